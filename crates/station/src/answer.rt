// What the station's calls answer.
ghost use Rattle.std.specs.Prelude.{◌≡◌, Some};
ghost use Rattle.station.specs.Numbers.{stop_name, start_number, run_number, tally_number};

use processor::ending::{Ending, Want};
use std::fmt;
use text::fault::Fault;

// Why a run stopped: all granted steps were executed, an instruction wants what is not there, or the station has ended.
#[derive(Clone, Copy, PartialEq, Eq, Debug)]
pub enum Stop {
    Spent,
    Wants(Want),
    Ended(Ending),
}

// How many steps a run executed, and why it stopped.
#[derive(Clone, Copy, PartialEq, Eq, Debug)]
pub struct Answer {
    pub count: u32,
    pub stop: Stop,
}

// Each call has an enum of its own, so that it can answer its own refusals only; a number can't stand beside the fault that one holds, so each has a `match`.

// Why a start is refused: the memory's length is not allowed, printed bytes are uncollected, or the disk has no sector.
#[derive(Clone, Copy, PartialEq, Eq, Debug)]
pub enum StartRefusal {
    Length,
    Uncollected,
    NoSector,
}

// Why a run is refused: the station is not started, or the memory's length is not the one that it was started with.
#[derive(Clone, Copy, PartialEq, Eq, Debug)]
pub enum RunRefusal {
    NotStarted,
    OtherMemory,
}

// Why a tally is refused: not started, another memory's length, not ended, or the sheet is too long or not in form.
#[derive(Clone, Copy, PartialEq, Eq, Debug)]
pub enum TallyRefusal {
    NotStarted,
    OtherMemory,
    NotEnded,
    TooLong,
    Form(Fault),
}

impl Stop {
    pub fn name(self) -> &'static str
        ensures { result.now ≡ stop_name self }
    {
        match self {
            Stop::Spent => "SPENT",
            Stop::Wants(want) => want.name(),
            Stop::Ended(ending) => ending.name(),
        }
    }
}

impl fmt::Display for Stop {
    ghost output = { λ stop. Some (stop_name stop) };

    fn fmt<W: fmt::Write>(&self, f: &mut fmt::Formatter<W>) -> fmt::Result {
        f.write_str(self.name())
    }
}

impl StartRefusal {
    pub fn number(self) -> u8
        ensures { result ≡ start_number self }
    {
        match self {
            StartRefusal::Length => 1,
            StartRefusal::Uncollected => 2,
            StartRefusal::NoSector => 3,
        }
    }
}

impl RunRefusal {
    pub fn number(self) -> u8
        ensures { result ≡ run_number self }
    {
        match self {
            RunRefusal::NotStarted => 4,
            RunRefusal::OtherMemory => 5,
        }
    }
}

impl TallyRefusal {
    pub fn number(self) -> u8
        ensures { result ≡ tally_number self }
    {
        match self {
            TallyRefusal::NotStarted => 4,
            TallyRefusal::OtherMemory => 5,
            TallyRefusal::NotEnded => 6,
            TallyRefusal::TooLong => 7,
            TallyRefusal::Form(_) => 8,
        }
    }
}
