// A text line by line.
ghost use Rattle.std.specs.Prelude.{◌≡◌, ◌<◌, length};
ghost use Rattle.std.specs.List.{AllByRecursion};
ghost use Rattle.text.specs.Pieces.{pieces, joined, newlines, Lacks};
ghost use Rattle.text.specs.Readers.{Advances};

use crate::fault::{Cause, FieldFault};
use crate::find::find;
use std::marker::Model;

// The lines of a text, each ended by a newline: by rule parts of the text, known by their place. Fields are parted and lines are ended, so that the two readers answer differently.
#[derive(Drop)]
pub struct LineReader<'a> {
    text: &'a [u8],
    // where the next line begins
    at: usize,
}

// It is seen as the lines that are not handed out yet, and last what follows the last newline.
impl<'a> Model for LineReader<'a> {
    ghost use Rattle.std.specs.Prelude.{ℕ, List, drop};
    ghost use Rattle.text.specs.Pieces.{pieces};

    ghost Value = { List (List ℕ) };

    ghost view = { λ r. pieces 10 (drop r.at r.text.now) };
}

impl<'a> LineReader<'a> {
    #[tactic(auto, using(crate::proofs::Joins::pieces_join, crate::proofs::Joins::pieces_lack))]
    pub fn new(text: &'a [u8]) -> LineReader<'a>
        ensures value { result ≡ pieces 10 text.now }
        ensures joins { joined 10 result ≡ text.now }
        ensures lacks { AllByRecursion (Lacks 10) result }
    {
        LineReader { text, at: 0 }
    }

    // The next line, or none at the text's end; what follows the last newline is a fault.
    pub fn line(&mut self) -> Result<Option<&'a [u8]>, FieldFault>
        ensures advances { Advances self.old result self.new }
        ensures more { 0 < length self.new }
    {
        let start = self.at;
        if start >= self.text.len() {
            return Ok(None);
        }
        let end = find(self.text, b'\n', start);
        if end == self.text.len() {
            return Err(FieldFault {
                field: 0,
                cause: Cause::End,
            });
        }
        self.at = end + 1;
        Ok(Some(&self.text[start..end]))
    }
}

// How many newlines `text` holds.
pub fn count_newlines(text: &[u8]) -> usize
    ensures { result ≡ newlines text.now }
{
    text.iter().map(|c| usize::from(*c == b'\n')).sum()
}
