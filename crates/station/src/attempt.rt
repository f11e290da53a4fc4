// What comes of an attempt to execute the next instruction.
use console::NoPaper;
use disk::{NoSuchSector, WriteRefusal};
use processor::ending::{Ending, Want};

// What an executed instruction leaves: a processor that goes on, or one that halted.
#[derive(Clone, Copy, PartialEq, Eq, Debug)]
pub(crate) enum Executed {
    Going,
    Halted,
}

// Why an instruction is not executed: it lacks something, or it can't be done. Then nothing has changed.
#[derive(Clone, Copy, PartialEq, Eq, Debug)]
pub(crate) enum Obstacle {
    Lacking(Want),
    Impossible(Ending),
}

impl From<Ending> for Obstacle {
    ghost use Rattle.std.specs.Prelude.{◌≡◌};
    ghost use Rattle.station.specs.declared.attempt.Obstacle.TheVariants.{Impossible};

    ghost from_gives = { λ ending obstacle. obstacle ≡ Impossible ending };

    fn from(ending: Ending) -> Obstacle {
        Obstacle::Impossible(ending)
    }
}

impl From<NoPaper> for Obstacle {
    ghost use Rattle.std.specs.Prelude.{◌≡◌};
    ghost use Rattle.processor.specs.declared.ending.Want.TheVariants.{Paper};
    ghost use Rattle.station.specs.declared.attempt.Obstacle.TheVariants.{Lacking};

    ghost from_gives = { λ _ obstacle. obstacle ≡ Lacking Paper };

    fn from(_full: NoPaper) -> Obstacle {
        Obstacle::Lacking(Want::Paper)
    }
}

impl From<NoSuchSector> for Obstacle {
    ghost use Rattle.std.specs.Prelude.{◌≡◌};
    ghost use Rattle.processor.specs.declared.ending.Ending.TheVariants.{Sector};
    ghost use Rattle.station.specs.declared.attempt.Obstacle.TheVariants.{Impossible};

    ghost from_gives = { λ _ obstacle. obstacle ≡ Impossible Sector };

    fn from(_missing: NoSuchSector) -> Obstacle {
        Obstacle::Impossible(Ending::Sector)
    }
}

impl From<WriteRefusal> for Obstacle {
    ghost use Rattle.std.specs.Prelude.{◌≡◌};
    ghost use Rattle.station.specs.Machines.{obstacle};

    ghost from_gives = { λ refusal found. found ≡ obstacle refusal };

    fn from(refusal: WriteRefusal) -> Obstacle {
        match refusal {
            WriteRefusal::NoSuchSector => Obstacle::from(NoSuchSector),
            WriteRefusal::NoKeep => Obstacle::Lacking(Want::Keep),
        }
    }
}
