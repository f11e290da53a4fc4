// What came of a step of the processor by itself, where it did not end it.
use u5::operand::Register;

// The step is done, or it asks something of a device and has changed nothing yet.
#[derive(Clone, Copy, PartialEq, Eq, Debug)]
pub enum Outcome {
    Done,
    Halted,
    Takes(Register),
    Prints(u8),
    Reads { at: usize, sector: u32 },
    Writes { at: usize, sector: u32 },
}
