// Cases of r63 and r0.
use crate::case::{Single, try_one, try_table};

const OPERAND: &[Single] = &[
    Single(
        "r63 reads as the instruction's address plus 4",
        "MOVI r2 9 0;ADD r1 pc r0;HALT;",
        "R 1 8 1;",
        "started, 3 HALT, 1 points",
    ),
    Single(
        "r63 as both operands",
        "MUL r1 pc pc;HALT;",
        "R 1 16 1;",
        "started, 2 HALT, 1 points",
    ),
    Single(
        "r63 in an address",
        "LOADB r1 pc r0;HALT;",
        "R 1 248 1;",
        "started, 2 HALT, 1 points",
    ),
    Single(
        "r63 is stored",
        "MOVI r1 512 0;STOREW pc r1 r0;HALT;",
        "M 514 0 1;M 515 8 1;",
        "started, 3 HALT, 2 points",
    ),
];

// r63 as target.
const JUMPS: &[Single] = &[
    Single(
        "MOVI jumps",
        "MOVI pc 8 0;MOVI r3 5 0;HALT;",
        "R 3 0 1;R 63 12 1;",
        "started, 2 HALT, 2 points",
    ),
    Single(
        "ADD jumps",
        "MOVI r1 12 0;ADD pc r1 r0;MOVI r3 5 0;HALT;",
        "R 3 0 1;R 63 16 1;",
        "started, 3 HALT, 2 points",
    ),
    Single(
        "MUL jumps",
        "MOVI r1 4 0;MUL pc r1 r1;HALT;HALT;MOVI r3 5 0;HALT;",
        "R 3 5 1;",
        "started, 4 HALT, 1 points",
    ),
    Single(
        "DIV jumps",
        "MOVI r1 33 0;MOVI r2 2 0;DIV pc r1 r2;HALT;MOVI r3 5 0;HALT;",
        "R 3 5 1;",
        "started, 5 HALT, 1 points",
    ),
    Single(
        "NOR jumps",
        "MOVI r1 16 0;NOR r1 r1 r0;NOR pc r1 r0;HALT;MOVI r3 5 0;HALT;",
        "R 3 5 1;",
        "started, 5 HALT, 1 points",
    ),
];

const MOVED_JUMPS: &[Single] = &[
    Single(
        "CMOV jumps",
        "MOVI r1 12 0;CMOV pc r1 r1;HALT;MOVI r3 5 0;HALT;",
        "R 3 5 1;",
        "started, 4 HALT, 1 points",
    ),
    Single(
        "LOADB jumps",
        "MOVI r1 15 0;LOADB pc r1 r0;HALT;WORD 16;MOVI r3 5 0;HALT;",
        "R 3 5 1;",
        "started, 4 HALT, 1 points",
    ),
    Single(
        "LOADH jumps",
        "MOVI r1 14 0;LOADH pc r1 r0;HALT;WORD 16;MOVI r3 5 0;HALT;",
        "R 3 5 1;",
        "started, 4 HALT, 1 points",
    ),
    Single(
        "LOADW jumps",
        "MOVI r1 12 0;LOADW pc r1 r0;HALT;WORD 16;MOVI r3 5 0;HALT;",
        "R 3 5 1;",
        "started, 4 HALT, 1 points",
    ),
];

// An instruction with the target r0, and HALT.
const ZERO: &[(&str, &str)] = &[
    ("r0 as target of LOADB", "LOADB r0 pc r0;HALT;"),
    ("r0 as target of LOADH", "LOADH r0 pc r0;HALT;"),
    ("r0 as target of LOADW", "LOADW r0 pc r0;HALT;"),
    ("r0 as target of ADD", "ADD r0 pc pc;HALT;"),
    ("r0 as target of MUL", "MUL r0 pc pc;HALT;"),
    ("r0 as target of DIV", "DIV r0 pc pc;HALT;"),
    ("r0 as target of NOR", "NOR r0 r0 r0;HALT;"),
    ("r0 as target of MOVI", "MOVI r0 9 0;HALT;"),
    ("r0 as target of CMOV", "CMOV r0 pc pc;HALT;"),
];

const ZERO_ENDING: &[Single] = &[Single(
    "RANGE though the target is r0",
    "MOVI r1 2048 0;LOADB r0 r1 r0;",
    "E RANGE 1;",
    "started, 1 RANGE, 1 points",
)];

pub fn try_all(rt: &HostRuntime) -> anyhow::Result<()> {
    try_table(rt, OPERAND)?;
    try_table(rt, JUMPS)?;
    try_table(rt, MOVED_JUMPS)?;
    for (label, program) in ZERO {
        let case = Single(
            label,
            program,
            "R 0 0 1;R 63 8 1;",
            "started, 2 HALT, 2 points",
        );
        try_one(rt, &case)?;
    }
    try_table(rt, ZERO_ENDING)
}
