// Calls and their replies, as they cross to another language.
ghost use Rattle.std.specs.Prelude.{◌≡◌, min};

use std::ops::Range;

// What a call asks: 0 start, 1 run, 2 feed, 3 collect, 4 tally, 5 registers, 6 sector. C has numbers for it and for a reply's refusal.
#[repr(C)]
#[derive(Clone, Copy, PartialEq, Eq, Debug)]
pub struct Call {
    pub kind: u32,
    // how many steps a run is granted, or the sector that is read
    pub number: u32,
    // how many bytes of memory the call names
    pub memory: usize,
    // which part of the data a feed or a tally is given, or which part of the output a call writes
    pub from: usize,
    pub to: usize,
}

impl Call {
    // How many of so many bytes of memory the call names.
    pub(crate) fn named(self, length: usize) -> usize
        ensures { result ≡ min self.memory length }
    {
        self.memory.min(length)
    }

    // The part that the call names of so many bytes: what is past their end is not in it.
    pub(crate) fn part(self, length: usize) -> Range<usize>
        ensures ends { result.«end» ≡ min self.to length }
        ensures begins { result.start ≡ min self.from result.«end» }
    {
        let end = self.to.min(length);
        self.from.min(end)..end
    }
}

// What a call answered: its refusal's number, 0 where it was accepted; how many; a run's stop or a fault's cause; a fault's place.
#[repr(C)]
#[derive(Clone, Copy, PartialEq, Eq, Debug)]
pub struct Reply {
    pub refusal: u32,
    pub count: usize,
    pub reason: u32,
    pub line: usize,
    pub field: usize,
}
