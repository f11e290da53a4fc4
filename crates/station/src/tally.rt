// Tallies.
ghost use Rattle.std.specs.Prelude.{◌≡◌};
ghost use Rattle.processor.specs.Requests.{processor};
ghost use Rattle.station.specs.Histories.{HistoriesAgree};
ghost use Rattle.station.specs.Worlds.{Tallies};

use crate::answer::TallyRefusal;
use crate::unit::{Phase, Station};
use disk::Readable;
use sheet::refusal::SheetRefusal;
use sheet::remains::Remains;

impl From<SheetRefusal> for TallyRefusal {
    ghost use Rattle.station.specs.Worlds.{untold};

    ghost from_gives = { λ refusal untallied. untallied ≡ untold refusal };

    fn from(refusal: SheetRefusal) -> TallyRefusal {
        match refusal {
            SheetRefusal::TooLong => TallyRefusal::TooLong,
            SheetRefusal::Form(fault) => TallyRefusal::Form(fault),
        }
    }
}

impl Station {
    // The points that a sheet gives to an ended station. `tally` promises this and a theorem besides, and has one return for it.
    fn mark<D: Readable>(&self, memory: &[u8], disk: &D, sheet: &[u8]) -> Result<u32, TallyRefusal>
        ensures { Tallies (processor self.now.registers memory.now) self.now.phase (D.Readable.sectors disk.now) sheet.now result }
    {
        match self.phase {
            Phase::Unstarted => Err(TallyRefusal::NotStarted),
            Phase::Running { length } => {
                if memory.len() != length {
                    return Err(TallyRefusal::OtherMemory);
                }
                Err(TallyRefusal::NotEnded)
            }
            Phase::Ended { length, ending } => {
                if memory.len() != length {
                    return Err(TallyRefusal::OtherMemory);
                }
                let remains = Remains {
                    registers: &self.registers,
                    memory,
                    disk,
                    ending,
                };
                Ok(remains.give(sheet)?)
            }
        }
    }

    // Marks an ended station by a sheet. Any two histories that began alike and were fed alike agree, so that equal work gets equal points.
    pub fn tally<D: Readable>(
        &self,
        memory: &[u8],
        disk: &D,
        sheet: &[u8],
    ) -> Result<u32, TallyRefusal>
        ensures tallies { Tallies (processor self.now.registers memory.now) self.now.phase (D.Readable.sectors disk.now) sheet.now result }
        ensures histories { HistoriesAgree }
    {
        self.mark(memory, disk, sheet)
    }
}
