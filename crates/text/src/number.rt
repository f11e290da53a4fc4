// Numbers in a text: decimal digits, with no zero before another digit.
ghost use Rattle.std.specs.Prelude.{◌≡◌, ◌≤◌, IfOk, MatchResult};
ghost use Rattle.text.specs.Numerals.{numeral, number_up_to, Spelled, WrongNumber};

use crate::fault::Cause;

fn is_numeral(field: &[u8]) -> bool
    ensures { result ≡ numeral field.now }
{
    match field {
        [] | [b'0', _, ..] => false,
        _ => field.iter().all(u8::is_ascii_digit),
    }
}

// The number that `field` spells, which may not pass `limit`.
pub fn read_number(field: &[u8], limit: u32) -> Result<u32, Cause>
    ensures reads { result ≡ number_up_to limit field.now }
    ensures bound { IfOk result (λ n. n ≤ limit) }
    ensures cases { MatchResult result (λ n. Spelled limit field.now n) (λ cause. WrongNumber limit field.now cause) }
{
    if !is_numeral(field) {
        return Err(Cause::Digits);
    }
    let mut value: u64 = 0;
    for c in field {
        value = value * 10 + u64::from(*c - b'0');
        if value > u64::from(limit) {
            return Err(Cause::Size);
        }
    }
    Ok(value as u32)
}
