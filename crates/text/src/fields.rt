// A line field by field.
ghost use Rattle.std.specs.Prelude.{◌≡◌};
ghost use Rattle.std.specs.List.{AllByRecursion};
ghost use Rattle.text.specs.Pieces.{pieces, joined, Lacks};
ghost use Rattle.text.specs.Readers.{Hands, Ends};

use crate::fault::{Cause, FieldFault};
use crate::find::find;
use std::marker::Model;

// The fields of a line, which single tabs part: at least one. By rule they are parts of the line, known by their place.
#[derive(Drop)]
pub struct FieldReader<'a> {
    line: &'a [u8],
    // where the next field begins; past the line's end there is none
    at: usize,
}

// It is seen as the fields that are not handed out yet.
impl<'a> Model for FieldReader<'a> {
    ghost use Rattle.std.specs.Prelude.{ℕ, List};
    ghost use Rattle.text.specs.Pieces.{left};

    ghost Value = { List (List ℕ) };

    ghost view = { λ r. left 9 r.line.now r.at };
}

impl<'a> FieldReader<'a> {
    #[tactic(auto, using(crate::proofs::Joins::pieces_join, crate::proofs::Joins::pieces_lack))]
    pub fn new(line: &'a [u8]) -> FieldReader<'a>
        ensures value { result ≡ pieces 9 line.now }
        ensures joins { joined 9 result ≡ line.now }
        ensures lacks { AllByRecursion (Lacks 9) result }
    {
        FieldReader { line, at: 0 }
    }

    // The next field, which is the one with this number.
    pub fn field(&mut self, number: usize) -> Result<&'a [u8], FieldFault>
        ensures { Hands self.old number result self.new }
    {
        if self.at > self.line.len() {
            return Err(FieldFault {
                field: number,
                cause: Cause::Missing,
            });
        }
        let start = self.at;
        let end = find(self.line, b'\t', start);
        self.at = end + 1;
        Ok(&self.line[start..end])
    }

    // That no field is left; the one with this number would be the next.
    pub fn end(&self, number: usize) -> Result<(), FieldFault>
        ensures { Ends self.now number result }
    {
        if self.at <= self.line.len() {
            return Err(FieldFault {
                field: number,
                cause: Cause::Extra,
            });
        }
        Ok(())
    }
}
