// What a disk is: a readable one, and a writable one that builds on it.
#![tactic(auto)]

ghost use Rattle.std.specs.Prelude.{◌≡◌, ℕ, Bool, List, length};
ghost use Rattle.disk.specs.Disks.{disk, Whole, Reads, ReadsInto, Writes};

mod image;
mod sectors;

pub use image::{Image, Lent, ReadOnlyImage};

// The disk has no sector of that number.
#[derive(Clone, Copy, PartialEq, Eq, Debug)]
pub struct NoSuchSector;

// Why a read into a lent part of memory is not done.
#[derive(Clone, Copy, PartialEq, Eq, Debug)]
pub enum ReadRefusal {
    NoSuchSector,
    NotOneSector,
}

// Why a write is not done: there is no such sector, or it is not kept and no keep is left.
#[derive(Clone, Copy, PartialEq, Eq, Debug)]
pub enum WriteRefusal {
    NoSuchSector,
    NoKeep,
}

// A disk that can be read: at most 65,536 sectors of 512 bytes.
pub trait Readable {
    // The sectors, each a list of its bytes.
    ghost sectors: { Self → List (List ℕ) };

    // How many sectors there are.
    fn count(&self) -> u32
        ensures { result ≡ length (sectors self.now) };

    // The sector's bytes go to the lent block, which is untouched where there is no such sector.
    fn read(&self, sector: u32, block: &mut [u8; 512]) -> Result<(), NoSuchSector>
        ensures { Reads (sectors self.now) sector block.old result block.new };

    // The same for a lent part of a longer buffer, which has to be as long as a sector.
    fn read_into(&self, sector: u32, part: &mut [u8]) -> Result<(), ReadRefusal>
        ensures { ReadsInto (sectors self.now) sector part.old result part.new }
    {
        let mut block = [0; 512];
        match self.read(sector, &mut block) {
            Ok(()) => {
                if part.len() != 512 {
                    return Err(ReadRefusal::NotOneSector);
                }
                part.copy_from_slice(&block);
                Ok(())
            }
            Err(_) => Err(ReadRefusal::NoSuchSector),
        }
    }

    // A law: the sectors are whole.
    ghost whole: { (d : Self) → Whole (sectors d) };
}

// A disk that can also be written: some sectors are kept, and so many more can be.
pub trait Writable: Readable {
    // Which sectors are kept.
    ghost kept: { Self → ℕ → Bool };

    // How many more sectors can become kept.
    ghost keeps: { Self → ℕ };

    // The block becomes the sector's bytes; a sector that was not kept uses a keep.
    fn write(&mut self, sector: u32, block: [u8; 512]) -> Result<(), WriteRefusal>
        ensures { Writes (disk Self.Readable.sectors kept keeps self.old) sector block result (disk Self.Readable.sectors kept keeps self.new) };
}
