// What can be wrong with a text, and where: a fault gains its field and its line on the way up.
ghost use Rattle.std.specs.Prelude.{◌≡◌, Some};
ghost use Rattle.text.specs.Faults.{cause_name, in_field, on_line};

use std::fmt;

#[derive(Clone, Copy, PartialEq, Eq, Debug)]
pub enum Cause {
    Spelling,
    Digits,
    Size,
    Missing,
    Extra,
    End,
}

// A fault of a line: the field, counted from 1, or 0 for the line as a whole.
#[derive(Clone, Copy, PartialEq, Eq, Debug)]
pub struct FieldFault {
    pub field: usize,
    pub cause: Cause,
}

// A fault of a text: the line, counted from 1, and its field.
#[derive(Clone, Copy, PartialEq, Eq, Debug)]
pub struct Fault {
    pub line: usize,
    pub field: usize,
    pub cause: Cause,
}

impl Cause {
    pub fn name(self) -> &'static str
        ensures { result.now ≡ cause_name self }
    {
        match self {
            Cause::Spelling => "SPELLING",
            Cause::Digits => "DIGITS",
            Cause::Size => "SIZE",
            Cause::Missing => "MISSING",
            Cause::Extra => "EXTRA",
            Cause::End => "END",
        }
    }
}

impl fmt::Display for Cause {
    ghost output = { λ cause. Some (cause_name cause) };

    fn fmt<W: fmt::Write>(&self, f: &mut fmt::Formatter<W>) -> fmt::Result {
        f.write_str(self.name())
    }
}

// What was read in a field; a cause becomes a fault of that field.
pub fn in_field<T>(read: Result<T, Cause>, field: usize) -> Result<T, FieldFault>
    ensures { result ≡ in_field read field }
{
    read.map_err(|cause| FieldFault { field, cause })
}

// What was read on a line; a fault of the line becomes one of the text.
pub fn on_line<T>(read: Result<T, FieldFault>, line: usize) -> Result<T, Fault>
    ensures { result ≡ on_line read line }
{
    read.map_err(|fault| Fault {
        line,
        field: fault.field,
        cause: fault.cause,
    })
}
