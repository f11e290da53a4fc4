// Instructions, one variant an operation.
use crate::operand::{Immediate, Register, Shift};

// An operation with its operands: A, B and C are registers, R I S a register, an immediate and a shift.
#[derive(Clone, Copy, PartialEq, Eq, Debug)]
pub enum Instruction {
    LoadB {
        a: Register,
        b: Register,
        c: Register,
    },
    LoadH {
        a: Register,
        b: Register,
        c: Register,
    },
    LoadW {
        a: Register,
        b: Register,
        c: Register,
    },
    StoreB {
        a: Register,
        b: Register,
        c: Register,
    },
    StoreH {
        a: Register,
        b: Register,
        c: Register,
    },
    StoreW {
        a: Register,
        b: Register,
        c: Register,
    },
    Add {
        a: Register,
        b: Register,
        c: Register,
    },
    Mul {
        a: Register,
        b: Register,
        c: Register,
    },
    Div {
        a: Register,
        b: Register,
        c: Register,
    },
    Nor {
        a: Register,
        b: Register,
        c: Register,
    },
    MovI {
        r: Register,
        i: Immediate,
        s: Shift,
    },
    CMov {
        a: Register,
        b: Register,
        c: Register,
    },
    In {
        a: Register,
    },
    Out {
        a: Register,
    },
    Read {
        a: Register,
        b: Register,
    },
    Write {
        a: Register,
        b: Register,
    },
    Halt,
}
