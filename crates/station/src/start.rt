// Starts.
ghost use Rattle.std.specs.Prelude.{◌≡◌};
ghost use Rattle.disk.specs.Disks.{Disk};
ghost use Rattle.station.specs.Views.{world};
ghost use Rattle.station.specs.Worlds.{Starts};

use crate::answer::StartRefusal;
use crate::unit::{Phase, Station};
use console::Console;
use disk::{NoSuchSector, Readable};
use processor::registers::Registers;

impl From<NoSuchSector> for StartRefusal {
    ghost use Rattle.station.specs.declared.answer.StartRefusal.TheVariants.{NoSector};

    ghost from_gives = { λ _ refusal. refusal ≡ NoSector };

    fn from(_missing: NoSuchSector) -> StartRefusal {
        StartRefusal::NoSector
    }
}

impl Station {
    // Loads the first sector to address 0, and begins there with all registers 0.
    pub fn start<D: Readable, C: Console>(
        &mut self,
        memory: &mut [u8],
        disk: &D,
        console: &C,
    ) -> Result<(), StartRefusal>
        ensures { (d : Disk) → d.sectors ≡ D.Readable.sectors disk.now → Starts (world self.old memory.old d (C.Console.meaning console.now)) result (world self.new memory.new d (C.Console.meaning console.now)) }
    {
        let length = memory.len();
        if length % 512 != 0 || length < 512 || length > 1_048_576 {
            return Err(StartRefusal::Length);
        }
        if console.printed() > 0 {
            return Err(StartRefusal::Uncollected);
        }
        let Some(block) = memory.first_chunk_mut() else {
            unreachable!()
        };
        disk.read(0, block)?;
        self.registers = Registers::new();
        self.phase = Phase::Running { length };
        Ok(())
    }
}
