// The overlay, and what it means as a disk.
ghost use Rattle.std.specs.Prelude.{◌≡◌, ◌-◌, length};
ghost use Rattle.disk.specs.Disks.{Writes};
ghost use Rattle.overlay.specs.Entries.{holds};
ghost use Rattle.overlay.specs.Layers.{laid, overlaid, starting};
ghost use Rattle.overlay.specs.WholeLayers.{laid_whole};

use crate::kept::Table;
use disk::{NoSuchSector, Readable, Writable, WriteRefusal};

// A disk, and the sectors that were written since it was put below.
#[derive(Drop)]
pub struct Overlay<D: Readable> {
    below: D,
    table: Table,
}

impl<D: Readable> Overlay<D> {
    // Starts with the sectors below, none kept, and 32 keeps.
    pub fn new(below: D) -> Overlay<D>
        ensures starts { overlaid result.table.entries.items (D.Readable.sectors result.below) ≡ starting (D.Readable.sectors below) }
        ensures below { result.below ≡ below }
    {
        Overlay {
            below,
            table: Table::new(),
        }
    }
}

impl<D: Readable> Readable for Overlay<D> {
    ghost sectors = { λ o. laid o.table.entries.items (D.Readable.sectors o.below) };

    ghost whole = { λ o. laid_whole o.table.entries.items (D.Readable.sectors o.below) o.table.sized (D.Readable.whole o.below) };

    fn count(&self) -> u32 {
        self.below.count()
    }

    fn read(&self, sector: u32, block: &mut [u8; 512]) -> Result<(), NoSuchSector> {
        if sector >= self.count() {
            return Err(NoSuchSector);
        }
        match self.table.get(sector) {
            Some(bytes) => {
                *block = *bytes;
                Ok(())
            }
            None => self.below.read(sector, block),
        }
    }
}

impl<D: Readable> Writable for Overlay<D> {
    ghost kept = { λ o. holds o.table.entries.items };

    ghost keeps = { λ o. 32 - length o.table.entries.items };

    fn write(&mut self, sector: u32, block: [u8; 512]) -> Result<(), WriteRefusal>
        ensures writes { Writes (overlaid self.old.table.entries.items (D.Readable.sectors self.old.below)) sector block result (overlaid self.new.table.entries.items (D.Readable.sectors self.new.below)) }
        ensures below { self.new.below ≡ self.old.below }
    {
        if sector >= self.count() {
            return Err(WriteRefusal::NoSuchSector);
        }
        self.table
            .put(sector, block)
            .map_err(|_| WriteRefusal::NoKeep)
    }
}
