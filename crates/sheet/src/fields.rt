// The fields of a sheet's line.
ghost use Rattle.std.specs.Prelude.{◌≡◌, ◌≤◌, IfOk};
ghost use Rattle.text.specs.Numerals.{number_up_to};
ghost use Rattle.sheet.specs.Lines.{points_in, ending_in, letter_of, with_rest, next, last_points};

use processor::ending::Ending;
use text::fault::{Cause, FieldFault, in_field};
use text::fields::FieldReader;
use text::number::read_number;

// The letter that a field is.
pub(crate) fn letter(field: &[u8]) -> Result<char, Cause>
    ensures { result ≡ letter_of field.now }
{
    match field {
        [letter] => Ok(char::from(*letter)),
        _ => Err(Cause::Spelling),
    }
}

// Points are 1 to 1,000.
fn points(field: &[u8]) -> Result<u32, Cause>
    ensures { result ≡ points_in field.now }
{
    let n = read_number(field, 1000)?;
    if n == 0 {
        return Err(Cause::Size);
    }
    Ok(n)
}

// The ending that a field names.
pub(crate) fn ending(field: &[u8]) -> Result<Ending, Cause>
    ensures { result ≡ ending_in field.now }
{
    Ending::named(field).ok_or(Cause::Spelling)
}

// The number up to a limit in the next field, which is the one with this number.
pub(crate) fn read_up_to(
    fields: &mut FieldReader,
    number: usize,
    limit: u32,
) -> Result<u32, FieldFault>
    ensures reads { with_rest result fields.new ≡ next (number_up_to limit) number fields.old }
    ensures bound { IfOk result (λ n. n ≤ limit) }
{
    let field = fields.field(number)?;
    in_field(read_number(field, limit), number)
}

// The points in the next field, which has to be the last.
pub(crate) fn read_points(fields: &mut FieldReader, number: usize) -> Result<u32, FieldFault>
    requires { number ≤ 9 }
    ensures { result ≡ last_points number fields.old }
{
    let field = fields.field(number)?;
    let points = in_field(points(field), number)?;
    fields.end(number + 1)?;
    Ok(points)
}
