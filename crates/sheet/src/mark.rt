// The marks of a sheet.
ghost use Rattle.std.specs.Prelude.{◌≡◌};
ghost use Rattle.sheet.specs.Marks.{points_of};

use processor::ending::Ending;
use u5::operand::Register;

// A place, the value that is looked for there, and the points that it is worth: a register's word, a byte of memory, a byte of a sector, or how the station ended.
#[derive(Clone, Copy, PartialEq, Eq, Debug)]
pub enum Mark {
    Word {
        register: Register,
        word: u32,
        points: u32,
    },
    Byte {
        address: u32,
        byte: u32,
        points: u32,
    },
    Stored {
        sector: u32,
        offset: u32,
        byte: u32,
        points: u32,
    },
    Ends {
        ending: Ending,
        points: u32,
    },
}

impl Mark {
    pub fn points(self) -> u32
        ensures { result ≡ points_of self }
    {
        match self {
            Mark::Word { points, .. }
            | Mark::Byte { points, .. }
            | Mark::Stored { points, .. }
            | Mark::Ends { points, .. } => points,
        }
    }
}
