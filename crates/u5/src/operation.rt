// The 17 operations: how each is spelled, its opcode, and where its operands stand in a word.
ghost use Rattle.std.specs.Prelude.{◌≡◌, ◌<◌, All, MatchOption, ◌≢◌};
ghost use Rattle.u5.specs.Operations.{spelling, opcode, slots, unused, named, coded};

#[derive(Clone, Copy, PartialEq, Eq, Debug)]
pub enum Operation {
    LoadB = 0,
    LoadH = 1,
    LoadW = 2,
    StoreB = 4,
    StoreH = 5,
    StoreW = 6,
    Add = 8,
    Mul = 9,
    Div = 10,
    Nor = 11,
    MovI = 16,
    CMov = 18,
    In = 24,
    Out = 25,
    Read = 26,
    Write = 27,
    Halt = 31,
}

// What an operand is: a register, or a number up to a limit.
#[derive(Clone, Copy, PartialEq, Eq, Debug)]
pub enum Kind {
    Register,
    Number(u32),
}

// The place of an operand in a word: the weight of its lowest bit.
#[derive(Clone, Copy, PartialEq, Eq, Debug)]
pub struct Slot {
    pub kind: Kind,
    pub weight: u32,
}

const A: Slot = Slot {
    kind: Kind::Register,
    weight: 0x20_0000,
};

const B: Slot = Slot {
    kind: Kind::Register,
    weight: 0x8000,
};

const C: Slot = Slot {
    kind: Kind::Register,
    weight: 0x200,
};

const IMMEDIATE: Slot = Slot {
    kind: Kind::Number(65535),
    weight: 32,
};

const SHIFT: Slot = Slot {
    kind: Kind::Number(31),
    weight: 1,
};

const OPERATIONS: [Operation; 17] = [
    Operation::LoadB,
    Operation::LoadH,
    Operation::LoadW,
    Operation::StoreB,
    Operation::StoreH,
    Operation::StoreW,
    Operation::Add,
    Operation::Mul,
    Operation::Div,
    Operation::Nor,
    Operation::MovI,
    Operation::CMov,
    Operation::In,
    Operation::Out,
    Operation::Read,
    Operation::Write,
    Operation::Halt,
];

impl Operation {
    pub fn spelling(self) -> &'static [u8]
        ensures { result.now ≡ spelling self }
    {
        match self {
            Operation::LoadB => b"LOADB",
            Operation::LoadH => b"LOADH",
            Operation::LoadW => b"LOADW",
            Operation::StoreB => b"STOREB",
            Operation::StoreH => b"STOREH",
            Operation::StoreW => b"STOREW",
            Operation::Add => b"ADD",
            Operation::Mul => b"MUL",
            Operation::Div => b"DIV",
            Operation::Nor => b"NOR",
            Operation::MovI => b"MOVI",
            Operation::CMov => b"CMOV",
            Operation::In => b"IN",
            Operation::Out => b"OUT",
            Operation::Read => b"READ",
            Operation::Write => b"WRITE",
            Operation::Halt => b"HALT",
        }
    }

    // The five bits that a word of this operation begins with.
    pub fn opcode(self) -> u32
        ensures value { result ≡ opcode self }
        ensures bound { result < 32 }
    {
        self as u32
    }

    // The places of the operands, in order. That each weighs stands here: a static holds no struct with a ghost field.
    pub fn slots(self) -> &'static [Slot]
        ensures value { result.now ≡ slots self }
        ensures weigh { All (λ s. 0 < s.weight) result.now }
    {
        match self {
            Operation::LoadB
            | Operation::LoadH
            | Operation::LoadW
            | Operation::StoreB
            | Operation::StoreH
            | Operation::StoreW
            | Operation::Add
            | Operation::Mul
            | Operation::Div
            | Operation::Nor
            | Operation::CMov => &[A, B, C],
            Operation::MovI => &[A, IMMEDIATE, SHIFT],
            Operation::In | Operation::Out => &[A],
            Operation::Read | Operation::Write => &[A, B],
            Operation::Halt => &[],
        }
    }

    // What the bits below the last operand can hold: those are unused.
    pub fn unused(self) -> u32
        ensures value { result ≡ unused self }
        ensures some { 0 < result }
    {
        match self.slots() {
            [.., last] => last.weight,
            [] => 0x800_0000,
        }
    }

    // The operation that is spelled so.
    pub fn named(field: &[u8]) -> Option<Operation>
        ensures reads { result ≡ named field.now }
        ensures cases { MatchOption result ((o : Operation) → field.now ≢ spelling o) (λ o. field.now ≡ spelling o) }
    {
        for op in OPERATIONS {
            if field == op.spelling() {
                return Some(op);
            }
        }
        None
    }

    // The operation with this opcode: a `match`, so that decoding is a jump and not a search.
    pub fn coded(code: u32) -> Option<Operation>
        ensures { result ≡ coded code }
    {
        match code {
            0 => Some(Operation::LoadB),
            1 => Some(Operation::LoadH),
            2 => Some(Operation::LoadW),
            4 => Some(Operation::StoreB),
            5 => Some(Operation::StoreH),
            6 => Some(Operation::StoreW),
            8 => Some(Operation::Add),
            9 => Some(Operation::Mul),
            10 => Some(Operation::Div),
            11 => Some(Operation::Nor),
            16 => Some(Operation::MovI),
            18 => Some(Operation::CMov),
            24 => Some(Operation::In),
            25 => Some(Operation::Out),
            26 => Some(Operation::Read),
            27 => Some(Operation::Write),
            31 => Some(Operation::Halt),
            _ => None,
        }
    }
}
