// The register file.
ghost use Rattle.std.specs.Prelude.{◌≡◌, replicate, slice_index};
ghost use Rattle.processor.specs.Words.{written, moved_on};

use std::marker::Model;
use u5::operand::Register;

// The 64 registers, by rule an array by value. r0 is always 0, and r63 is the address of the next instruction.
#[derive(Clone, Copy)]
pub struct Registers {
    words: [u32; 64],
}

// They are seen as their words.
impl Model for Registers {
    ghost use Rattle.std.specs.Prelude.{◌≡◌, ℕ, List, slice_index};

    ghost Value = { List ℕ };

    ghost view = { λ r. r.words };

    ghost invariant = { λ r. slice_index r.words 0 ≡ 0 };

    ghost inverse = { λ words. record { words = words } };
}

impl Registers {
    pub fn new() -> Registers
        ensures { result ≡ replicate 64 0 }
    {
        Registers { words: [0; 64] }
    }

    pub fn get(&self, r: Register) -> u32
        ensures value { result ≡ slice_index self.now r.number }
        ensures zero { slice_index self.now 0 ≡ 0 }
    {
        self.words[r.number as usize]
    }

    // A write to r0 has no effect.
    pub fn set(&mut self, r: Register, value: u32)
        ensures { self.new ≡ written self.old r.number value }
    {
        let n = r.number as usize;
        if n != 0 {
            self.words[n] = value;
        }
    }

    // r63 moves on to the instruction after the one that it names.
    pub fn advance(&mut self)
        ensures { self.new ≡ moved_on self.old }
    {
        self.words[63] = self.words[63].wrapping_add(4);
    }

    // What a register reads as while an instruction executes: r63 has moved on already.
    pub(crate) fn operand(&self, r: Register) -> u32
        ensures { result ≡ slice_index (moved_on self.now) r.number }
    {
        if r.number == 63 {
            self.words[63].wrapping_add(4)
        } else {
            self.get(r)
        }
    }
}
