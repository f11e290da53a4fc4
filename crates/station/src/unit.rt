// The station itself: it owns no device.
ghost use Rattle.std.specs.Prelude.{◌≡◌, replicate};

use processor::ending::Ending;
use processor::registers::Registers;

// How far a station is: a started one knows the length of the memory that it was started with.
#[derive(Clone, Copy, PartialEq, Eq, Debug)]
pub enum Phase {
    Unstarted,
    Running { length: usize },
    Ended { length: usize, ending: Ending },
}

// Registers, and how far the station is. Memory, disk and console are lent to each call.
#[derive(Drop)]
pub struct Station {
    pub(crate) registers: Registers,
    pub(crate) phase: Phase,
}

impl Station {
    pub fn new() -> Station
        ensures registers { result.registers ≡ replicate 64 0 }
        ensures phase { result.phase ≡ Phase.Unstarted }
    {
        Station {
            registers: Registers::new(),
            phase: Phase::Unstarted,
        }
    }
}
