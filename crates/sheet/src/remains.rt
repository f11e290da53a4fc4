// What an ended station leaves, and what a mark earns there.
ghost use Rattle.std.specs.Prelude.{◌≡◌, ◌<◌, ◌≤◌, [], length, MatchBool};
ghost use Rattle.processor.specs.Requests.{processor};
ghost use Rattle.sheet.specs.Marks.{points_of, InMemory, OnDisk, Holds, Earns};

use crate::mark::Mark;
use disk::Readable;
use processor::ending::Ending;
use processor::registers::Registers;

// Where marks are looked for: registers, memory and disk, and how the station ended.
#[derive(Drop)]
pub struct Remains<'a, D: Readable> {
    pub registers: &'a Registers,
    pub memory: &'a [u8],
    pub disk: &'a D,
    pub ending: Ending,
}

// Whether memory has this byte at the address.
fn in_memory(memory: &[u8], address: u32, byte: u32) -> bool
    ensures { MatchBool result (InMemory memory.now address byte) (InMemory memory.now address byte → ⊥) }
{
    match memory.get(address as usize) {
        Some(found) => u32::from(*found) == byte,
        None => false,
    }
}

// Whether the sector has this byte at the offset.
fn on_disk<D: Readable>(disk: &D, sector: u32, offset: u32, byte: u32) -> bool
    ensures { MatchBool result (OnDisk (D.Readable.sectors disk.now) sector offset byte) (OnDisk (D.Readable.sectors disk.now) sector offset byte → ⊥) }
{
    let mut block = [0; 512];
    disk.read(sector, &mut block).is_ok() && in_memory(&block, offset, byte)
}

impl<D: Readable> Remains<'_, D> {
    fn holds(&self, mark: Mark) -> bool
        ensures { MatchBool result (Holds (processor self.now.registers.now self.now.memory.now) (D.Readable.sectors self.now.disk.now) self.now.ending mark) (Holds (processor self.now.registers.now self.now.memory.now) (D.Readable.sectors self.now.disk.now) self.now.ending mark → ⊥) }
    {
        match mark {
            Mark::Word { register, word, .. } => self.registers.get(register) == word,
            Mark::Byte { address, byte, .. } => in_memory(self.memory, address, byte),
            Mark::Stored {
                sector,
                offset,
                byte,
                ..
            } => on_disk(self.disk, sector, offset, byte),
            Mark::Ends { ending, .. } => self.ending == ending,
        }
    }

    // The points of a mark where its value is there, else 0.
    pub fn worth(&self, mark: Mark) -> u32
        ensures earns { Earns (processor self.now.registers.now self.now.memory.now) (D.Readable.sectors self.now.disk.now) self.now.ending mark result }
        ensures bound { result ≤ points_of mark }
    {
        if self.holds(mark) { mark.points() } else { 0 }
    }
}
