// Why a processor goes no further: it has ended, or it wants what is not there.
ghost use Rattle.std.specs.Prelude.{◌≡◌, Some, MatchOption, ◌≢◌};
ghost use Rattle.processor.specs.Names.{ending_name, ending_named, want_name};

use std::fmt;

// What ends a processor, until the next accepted start.
#[derive(Clone, Copy, PartialEq, Eq, Debug)]
pub enum Ending {
    Fetch,
    Code,
    Zero,
    Align,
    Range,
    Sector,
    Halt,
}

// What an instruction lacks: it is tried again by the next run.
#[derive(Clone, Copy, PartialEq, Eq, Debug)]
pub enum Want {
    Input,
    Paper,
    Keep,
}

impl Ending {
    pub fn name(self) -> &'static str
        ensures { result.now ≡ ending_name self }
    {
        match self {
            Ending::Fetch => "FETCH",
            Ending::Code => "CODE",
            Ending::Zero => "ZERO",
            Ending::Align => "ALIGN",
            Ending::Range => "RANGE",
            Ending::Sector => "SECTOR",
            Ending::Halt => "HALT",
        }
    }
}

const ENDINGS: [Ending; 7] = [
    Ending::Fetch,
    Ending::Code,
    Ending::Zero,
    Ending::Align,
    Ending::Range,
    Ending::Sector,
    Ending::Halt,
];

impl Ending {
    // The ending with this name.
    pub fn named(field: &[u8]) -> Option<Ending>
        ensures reads { result ≡ ending_named field.now }
        ensures cases { MatchOption result ((e : Ending) → field.now ≢ ending_name e) (λ e. field.now ≡ ending_name e) }
    {
        ENDINGS
            .iter()
            .copied()
            .find(|e| field == e.name().as_bytes())
    }
}

impl Want {
    pub fn name(self) -> &'static str
        ensures { result.now ≡ want_name self }
    {
        match self {
            Want::Input => "INPUT",
            Want::Paper => "PAPER",
            Want::Keep => "KEEP",
        }
    }
}

impl fmt::Display for Ending {
    ghost output = { λ e. Some (ending_name e) };

    fn fmt<W: fmt::Write>(&self, f: &mut fmt::Formatter<W>) -> fmt::Result {
        f.write_str(self.name())
    }
}

impl fmt::Display for Want {
    ghost output = { λ w. Some (want_name w) };

    fn fmt<W: fmt::Write>(&self, out: &mut fmt::Formatter<W>) -> fmt::Result {
        out.write_str(self.name())
    }
}
