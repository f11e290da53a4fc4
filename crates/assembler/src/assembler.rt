// From a text to words.
ghost use Rattle.std.specs.Prelude.{◌≡◌, ℕ, ◌*◌, ◌≤◌, true, List, length, is_ok, IfOk, Ok};
ghost use Rattle.text.specs.Pieces.{pieces};
ghost use Rattle.assembler.specs.declared.assembler.AssembleRefusal.TheVariants.{Form};
ghost use Rattle.assembler.specs.Assembly.{WithinLimits, Assembles, assemble_refusal_number};
ghost use Rattle.assembler.specs.Grammar.{Spells};
ghost use Rattle.assembler.specs.Programs.{SpellsText};
ghost use Rattle.assembler.specs.Texts.{words_from, counted, words_of, bytes};
ghost use Rattle.assembler.specs.Writes.{Appended};

use crate::line::read_line;
use crate::writer::Writer;
use text::fault::{Fault, on_line};
use text::lines::{LineReader, count_newlines};

// Why a text is not assembled: an enum of this call alone, so that it can answer its own numbers only; a number can't stand beside the fault, so it has a `match`.
#[derive(Clone, Copy, PartialEq, Eq, Debug)]
pub enum AssembleRefusal {
    // over 65,536 bytes or over 3,328 newlines
    TooLong,
    // out of form: where, and how
    Form(Fault),
    // fewer than 4 output bytes a word
    Room,
}

impl From<Fault> for AssembleRefusal {
    ghost from_gives = { λ fault refusal. refusal ≡ Form fault };

    fn from(fault: Fault) -> AssembleRefusal {
        AssembleRefusal::Form(fault)
    }
}

impl AssembleRefusal {
    pub fn number(self) -> u8
        ensures { result ≡ assemble_refusal_number self }
    {
        match self {
            AssembleRefusal::TooLong => 7,
            AssembleRefusal::Form(_) => 8,
            AssembleRefusal::Room => 9,
        }
    }
}

// How many words `text` spells. The reader tells a missing newline as often as it is asked, so it is no Iterator that ends: the lines are counted here.
fn count_words(text: &[u8]) -> Result<usize, Fault>
    requires { length text.now ≤ 65536 }
    ensures { result ≡ counted (words_from 1 (pieces 10 text.now)) }
{
    let mut lines = LineReader::new(text);
    let mut count = 0;
    while let Some(line) = on_line(lines.line(), count + 1)? {
        on_line(read_line(line), count + 1)?;
        count += 1;
    }
    Ok(count)
}

// Writes the words that `text` spells, four bytes each, and says where they end.
fn write_words(text: &[u8], out: &mut [u8]) -> usize
    requires spells { is_ok (words_from 1 (pieces 10 text.now)) ≡ true }
    requires room { length (bytes (words_of (words_from 1 (pieces 10 text.now)))) ≤ length out.old }
    ensures { Appended out.old 0 (bytes (words_of (words_from 1 (pieces 10 text.now)))) out.new result }
{
    let mut lines = LineReader::new(text);
    let mut writer = Writer::new(out);
    while let Some(line) = lines.line().unwrap() {
        let word = read_line(line).unwrap();
        writer.piece(&word.to_be_bytes());
    }
    writer.end()
}

// Assembles `text` into `out`, and says how many bytes were written.
pub fn assemble(text: &[u8], out: &mut [u8]) -> Result<usize, AssembleRefusal>
    ensures assembles { Assembles text.now out.old result out.new }
    ensures bound { IfOk result (λ n. n ≤ length out.new) }
    ensures accepts { (ws : List ℕ) → WithinLimits text.now → SpellsText text.now ws → 4 * length ws ≤ length out.old → result ≡ Ok (4 * length ws) }
    ensures one { (line : List ℕ) (v w : ℕ) → Spells line v → Spells line w → v ≡ w }
{
    if text.len() > 65536 || count_newlines(text) > 3328 {
        return Err(AssembleRefusal::TooLong);
    }
    let words = count_words(text)?;
    if out.len() / 4 < words {
        return Err(AssembleRefusal::Room);
    }
    Ok(write_words(text, out))
}
