// Cases of what instructions do to registers and memory.
use crate::case::{Single, try_table};

const ARITHMETIC: &[Single] = &[
    Single(
        "a sum keeps its low 32 bits",
        "NOR r1 r0 r0;MOVI r2 2 0;ADD r3 r1 r2;HALT;",
        "R 1 4294967295 1;R 3 1 1;",
        "started, 4 HALT, 2 points",
    ),
    Single(
        "MUL keeps its low 32 bits",
        "MOVI r1 1 16;MOVI r2 1 0;ADD r1 r1 r2;MUL r3 r1 r1;HALT;",
        "R 1 65537 1;R 3 131073 1;",
        "started, 5 HALT, 2 points",
    ),
    Single(
        "DIV rounds down",
        "MOVI r1 7 0;MOVI r2 2 0;DIV r3 r1 r2;HALT;",
        "R 3 3 1;",
        "started, 4 HALT, 1 points",
    ),
    Single(
        "DIV knows no sign",
        "NOR r1 r0 r0;MOVI r2 2 0;DIV r3 r1 r2;HALT;",
        "R 3 2147483647 1;",
        "started, 4 HALT, 1 points",
    ),
    Single(
        "NOR",
        "MOVI r1 12 0;MOVI r2 10 0;NOR r3 r1 r2;HALT;",
        "R 3 4294967281 1;",
        "started, 4 HALT, 1 points",
    ),
];

const MOVES: &[Single] = &[
    Single(
        "MOVI shifts",
        "MOVI r1 65535 16;HALT;",
        "R 1 4294901760 1;",
        "started, 2 HALT, 1 points",
    ),
    Single(
        "a shift of MOVI loses high bits",
        "MOVI r1 65535 20;MOVI r2 65535 31;HALT;",
        "R 1 4293918720 1;R 2 2147483648 1;",
        "started, 3 HALT, 2 points",
    ),
    Single(
        "CMOV is taken",
        "MOVI r1 7 0;MOVI r3 1 31;CMOV r2 r1 r3;HALT;",
        "R 2 7 1;",
        "started, 4 HALT, 1 points",
    ),
    Single(
        "CMOV is not taken",
        "MOVI r1 7 0;MOVI r2 9 0;CMOV r2 r1 r0;HALT;",
        "R 2 9 1;",
        "started, 4 HALT, 1 points",
    ),
];

// The word 0x44332211 goes to 512 first.
const STORES: &[Single] = &[
    Single(
        "STOREW puts the most significant byte first",
        "MOVI r1 17459 16;MOVI r2 8721 0;ADD r1 r1 r2;MOVI r3 512 0;STOREW r1 r3 r0;HALT;",
        "M 512 68 1;M 513 51 1;M 514 34 1;M 515 17 1;",
        "started, 6 HALT, 4 points",
    ),
    Single(
        "STOREH stores the low two bytes",
        "MOVI r1 17459 16;MOVI r2 8721 0;ADD r1 r1 r2;MOVI r3 512 0;STOREW r1 r3 r0;STOREH r1 r3 r0;HALT;",
        "M 512 34 1;M 513 17 1;M 514 34 1;M 515 17 1;",
        "started, 7 HALT, 4 points",
    ),
    Single(
        "STOREB stores the low byte",
        "MOVI r1 17459 16;MOVI r2 8721 0;ADD r1 r1 r2;MOVI r3 512 0;STOREW r1 r3 r0;STOREB r1 r3 r0;HALT;",
        "M 512 17 1;M 513 51 1;M 514 34 1;M 515 17 1;",
        "started, 7 HALT, 4 points",
    ),
];

// The word 1144201745 is 0x44332211.
const LOADS: &[Single] = &[
    Single(
        "LOADW takes the most significant byte first",
        "MOVI r1 12 0;LOADW r2 r1 r0;HALT;WORD 1144201745;",
        "R 2 1144201745 1;",
        "started, 3 HALT, 1 points",
    ),
    Single(
        "LOADH",
        "MOVI r1 12 0;LOADH r2 r1 r0;HALT;WORD 1144201745;",
        "R 2 17459 1;",
        "started, 3 HALT, 1 points",
    ),
    Single(
        "LOADB",
        "MOVI r1 12 0;LOADB r2 r1 r0;HALT;WORD 1144201745;",
        "R 2 68 1;",
        "started, 3 HALT, 1 points",
    ),
    Single(
        "loads are zero extended",
        "MOVI r1 16 0;LOADB r2 r1 r0;LOADH r3 r1 r0;HALT;WORD 4294967295;",
        "R 2 255 1;R 3 65535 1;",
        "started, 4 HALT, 2 points",
    ),
];

// The word 1426063360 is 0x55000000.
const UNALIGNED: &[Single] = &[
    Single(
        "an unaligned LOADW",
        "MOVI r1 13 0;LOADW r2 r1 r0;HALT;WORD 1144201745;WORD 1426063360;",
        "R 2 857870677 1;",
        "started, 3 HALT, 1 points",
    ),
    Single(
        "an unaligned LOADH",
        "MOVI r1 13 0;LOADH r2 r1 r0;HALT;WORD 1144201745;",
        "R 2 13090 1;",
        "started, 3 HALT, 1 points",
    ),
    Single(
        "an address is the sum of two registers",
        "MOVI r1 8 0;LOADB r2 r1 r1;HALT;WORD 0;WORD 1144201745;",
        "R 2 68 1;",
        "started, 3 HALT, 1 points",
    ),
];

const WRAPS: &[Single] = &[
    Single(
        "the address of a load wraps",
        "NOR r1 r0 r0;MOVI r2 13 0;LOADB r3 r1 r2;HALT;",
        "R 3 248 1;",
        "started, 4 HALT, 1 points",
    ),
    Single(
        "the address of a store wraps",
        "NOR r1 r0 r0;MOVI r2 513 0;STOREB r2 r1 r2;HALT;",
        "M 512 1 1;",
        "started, 4 HALT, 1 points",
    ),
    Single(
        "the bytes of a LOADW do not wrap",
        "NOR r1 r0 r0;LOADW r2 r1 r0;",
        "R 2 0 1;E RANGE 1;",
        "started, 1 RANGE, 2 points",
    ),
    Single(
        "the bytes of a LOADH do not wrap",
        "NOR r1 r0 r0;LOADH r2 r1 r0;",
        "R 2 0 1;E RANGE 1;",
        "started, 1 RANGE, 2 points",
    ),
];

const LAST_ADDRESSES: &[Single] = &[
    Single(
        "a STOREW to the last of all words is out of range",
        "MOVI r1 3 0;NOR r1 r1 r0;STOREW r1 r1 r0;",
        "E RANGE 1;",
        "started, 2 RANGE, 1 points",
    ),
    Single(
        "a READ to the last of all blocks is out of range",
        "MOVI r1 511 0;NOR r1 r1 r0;READ r1 r0;",
        "E RANGE 1;",
        "started, 2 RANGE, 1 points",
    ),
];

// ADD v0 a0 a1, STOREB v1 v0 zz, READ v0 v1 and HALT, with every unused bit set but at ADD, where it is the last alone.
const UNUSED: &[Single] = &[
    Single(
        "unused bits of ADD are ignored",
        "MOVI r3 2 0;MOVI r4 3 0;WORD 1075939329;HALT;",
        "R 1 5 1;",
        "started, 4 HALT, 1 points",
    ),
    Single(
        "unused bits of STOREB are ignored",
        "MOVI r1 512 0;MOVI r2 9 0;WORD 541098495;HALT;",
        "M 512 9 1;",
        "started, 4 HALT, 1 points",
    ),
    Single(
        "unused bits of READ are ignored",
        "MOVI r1 512 0;MOVI r2 1 0;WORD 3491856383;HALT;",
        "M 512 7 1;",
        "started, 4 HALT, 1 points",
    ),
    Single(
        "unused bits of HALT are ignored",
        "WORD 4294967295;",
        "E HALT 1;",
        "started, 1 HALT, 1 points",
    ),
];

pub fn try_all(rt: &HostRuntime) -> anyhow::Result<()> {
    for table in [
        ARITHMETIC,
        MOVES,
        STORES,
        LOADS,
        UNALIGNED,
        WRAPS,
        LAST_ADDRESSES,
        UNUSED,
    ] {
        try_table(rt, table)?;
    }
    Ok(())
}
