// What an instruction comes to, once it was decided.
use crate::width::Width;
use u5::operand::Register;

// What is left to do of an instruction, once all that it reads was read.
#[derive(Clone, Copy, PartialEq, Eq, Debug)]
pub enum Request {
    Passes,
    Sets { register: Register, value: u32 },
    Stores { at: usize, width: Width, value: u32 },
    Takes(Register),
    Prints(u8),
    Reads { at: usize, sector: u32 },
    Writes { at: usize, sector: u32 },
    Halts,
}
