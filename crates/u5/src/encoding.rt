// Words to instructions, and back.
ghost use Rattle.std.specs.Prelude.{◌≡◌, ◌+◌, ◌*◌, ◌/◌, ◌%◌, ◌^◌, ◌<◌, Some, MatchOption};
ghost use Rattle.u5.specs.Operations.{unused};
ghost use Rattle.u5.specs.Words.{register, immediate, shift, instruction, decoded, encoded, operation, bare, Unknown};

use crate::instruction::Instruction;
use crate::operand::{Immediate, Register, Shift};
use crate::operation::Operation;

// The register that six bits of the word name, `at` bits from its end.
fn register_at(word: u32, at: u32) -> Register
    requires { at < 32 }
    ensures { result ≡ register (word / 2 ^ at) }
{
    Register {
        number: ((word >> at) % 64) as u8,
    }
}

fn immediate_of(word: u32) -> Immediate
    ensures { result ≡ immediate (word / 2 ^ 5) }
{
    Immediate {
        value: ((word >> 5) % 65536) as u16,
    }
}

fn shift_of(word: u32) -> Shift
    ensures { result ≡ shift word }
{
    Shift {
        places: (word % 32) as u8,
    }
}

// The operation with the operands that stand in the word.
fn instruction_of(operation: Operation, word: u32) -> Instruction
    ensures { result ≡ instruction operation word }
{
    let a = register_at(word, 21);
    let b = register_at(word, 15);
    let c = register_at(word, 9);
    match operation {
        Operation::LoadB => Instruction::LoadB { a, b, c },
        Operation::LoadH => Instruction::LoadH { a, b, c },
        Operation::LoadW => Instruction::LoadW { a, b, c },
        Operation::StoreB => Instruction::StoreB { a, b, c },
        Operation::StoreH => Instruction::StoreH { a, b, c },
        Operation::StoreW => Instruction::StoreW { a, b, c },
        Operation::Add => Instruction::Add { a, b, c },
        Operation::Mul => Instruction::Mul { a, b, c },
        Operation::Div => Instruction::Div { a, b, c },
        Operation::Nor => Instruction::Nor { a, b, c },
        Operation::MovI => Instruction::MovI {
            r: a,
            i: immediate_of(word),
            s: shift_of(word),
        },
        Operation::CMov => Instruction::CMov { a, b, c },
        Operation::In => Instruction::In { a },
        Operation::Out => Instruction::Out { a },
        Operation::Read => Instruction::Read { a, b },
        Operation::Write => Instruction::Write { a, b },
        Operation::Halt => Instruction::Halt,
    }
}

impl Instruction {
    // The instruction that the word encodes, whatever stands in its unused bits.
    pub fn decode(word: u32) -> Option<Instruction>
        ensures value { result ≡ decoded word }
        ensures cases { MatchOption result (Unknown (word / 2 ^ 27)) (λ i. word ≡ encoded i + word % unused (operation i)) }
    {
        Operation::coded(word >> 27).map(|operation| instruction_of(operation, word))
    }

    pub fn operation(self) -> Operation
        ensures { result ≡ operation self }
    {
        match self {
            Instruction::LoadB { .. } => Operation::LoadB,
            Instruction::LoadH { .. } => Operation::LoadH,
            Instruction::LoadW { .. } => Operation::LoadW,
            Instruction::StoreB { .. } => Operation::StoreB,
            Instruction::StoreH { .. } => Operation::StoreH,
            Instruction::StoreW { .. } => Operation::StoreW,
            Instruction::Add { .. } => Operation::Add,
            Instruction::Mul { .. } => Operation::Mul,
            Instruction::Div { .. } => Operation::Div,
            Instruction::Nor { .. } => Operation::Nor,
            Instruction::MovI { .. } => Operation::MovI,
            Instruction::CMov { .. } => Operation::CMov,
            Instruction::In { .. } => Operation::In,
            Instruction::Out { .. } => Operation::Out,
            Instruction::Read { .. } => Operation::Read,
            Instruction::Write { .. } => Operation::Write,
            Instruction::Halt => Operation::Halt,
        }
    }

    // The word of the instruction, its unused bits 0: it decodes to the instruction again.
    pub fn encode(self) -> u32
        ensures value { result ≡ encoded self }
        ensures decodes { decoded result ≡ Some self }
        ensures clear { result % unused (operation self) ≡ 0 }
    {
        self.operation().opcode() * 0x800_0000 + self.operands()
    }

    // The operands, each at its place in the word.
    fn operands(self) -> u32
        ensures { bare (operation self) + result ≡ encoded self }
    {
        match self {
            Instruction::LoadB { a, b, c }
            | Instruction::LoadH { a, b, c }
            | Instruction::LoadW { a, b, c }
            | Instruction::StoreB { a, b, c }
            | Instruction::StoreH { a, b, c }
            | Instruction::StoreW { a, b, c }
            | Instruction::Add { a, b, c }
            | Instruction::Mul { a, b, c }
            | Instruction::Div { a, b, c }
            | Instruction::Nor { a, b, c }
            | Instruction::CMov { a, b, c } => {
                u32::from(a.number) * 0x20_0000
                    + u32::from(b.number) * 0x8000
                    + u32::from(c.number) * 0x200
            }
            Instruction::MovI { r, i, s } => {
                u32::from(r.number) * 0x20_0000 + u32::from(i.value) * 32 + u32::from(s.places)
            }
            Instruction::In { a } | Instruction::Out { a } => u32::from(a.number) * 0x20_0000,
            Instruction::Read { a, b } | Instruction::Write { a, b } => {
                u32::from(a.number) * 0x20_0000 + u32::from(b.number) * 0x8000
            }
            Instruction::Halt => 0,
        }
    }
}
