// What an instruction works on, each within its bits.
ghost use Rattle.std.specs.Prelude.{◌<◌};

// One of the 64 registers, by its number.
#[derive(Clone, Copy, PartialEq, Eq, Debug)]
pub struct Register {
    pub number: u8,
    ghost below: { number < 64 },
}

// The number that an instruction carries in itself.
#[derive(Clone, Copy, PartialEq, Eq, Debug)]
pub struct Immediate {
    pub value: u16,
    ghost below: { value < 65536 },
}

// How many places an immediate is shifted to the left.
#[derive(Clone, Copy, PartialEq, Eq, Debug)]
pub struct Shift {
    pub places: u8,
    ghost below: { places < 32 },
}
