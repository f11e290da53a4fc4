// From words to their text.
ghost use Rattle.std.specs.Prelude.{◌≡◌, ℕ, ◌*◌, ◌/◌, ◌^◌, ◌<◌, ◌≤◌, length, take, IfOk};
ghost use Rattle.assembler.specs.Assembly.{WithinLimits};
ghost use Rattle.assembler.specs.Listing.{words_at, listing};
ghost use Rattle.assembler.specs.Lists.{Lists, OneLine, list_refusal_number};
ghost use Rattle.assembler.specs.Programs.{SpellsText};
ghost use Rattle.assembler.specs.Writes.{Appended};

use crate::listing::write_line;
use crate::writer::Writer;

// Why words are not listed: an enum of this call alone, too.
#[derive(Clone, Copy, PartialEq, Eq, Debug)]
pub enum ListRefusal {
    // over 13,312 bytes
    TooLong,
    // no multiple of 4 bytes
    Partial,
    // fewer than 19 output bytes a word
    Room,
}

impl ListRefusal {
    pub fn number(self) -> u8
        ensures { result ≡ list_refusal_number self }
    {
        match self {
            ListRefusal::TooLong => 7,
            ListRefusal::Partial => 10,
            ListRefusal::Room => 9,
        }
    }
}

fn write_lines(words: &[u8], out: &mut [u8]) -> usize
    requires { 19 * (length words.now / 4) ≤ length out.old }
    ensures { Appended out.old 0 (listing (words_at words.now)) out.new result }
{
    let mut writer = Writer::new(out);
    for word in words.as_chunks::<4>().0 {
        write_line(&mut writer, u32::from_be_bytes(*word));
    }
    writer.end()
}

// Lists `words`, four bytes each, into `out`, and says how many bytes were written: a line a word, which assembles to the word.
#[tactic(auto, using(crate::proofs::Listings::one_line))]
pub fn list(words: &[u8], out: &mut [u8]) -> Result<usize, ListRefusal>
    ensures lists { Lists words.now out.old result out.new }
    ensures bound { IfOk result (λ n. n ≤ length out.new) }
    ensures reads_back { IfOk result (λ n. SpellsText (take n out.new) (words_at words.now)) }
    ensures assembles { IfOk result (λ n. WithinLimits (take n out.new)) }
    ensures every { (w : ℕ) → w < 2 ^ 32 → OneLine w }
{
    if words.len() > 13312 {
        return Err(ListRefusal::TooLong);
    }
    if words.len() % 4 != 0 {
        return Err(ListRefusal::Partial);
    }
    if out.len() / 19 < words.len() / 4 {
        return Err(ListRefusal::Room);
    }
    Ok(write_lines(words, out))
}
