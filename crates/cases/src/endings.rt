// Cases of endings. A step that cannot be done leaves r63 at it, and is not counted.
use crate::case::{Single, try_one, try_table};

// Where memory is 0 stands LOADB zz zz zz, which is done.
const FETCHES: &[Single] = &[
    Single(
        "FETCH at an odd r63",
        "MOVI pc 5 0;",
        "R 63 5 1;E FETCH 1;",
        "started, 1 FETCH, 2 points",
    ),
    Single(
        "FETCH at an even r63 that is no multiple of 4",
        "MOVI pc 6 0;",
        "R 63 6 1;E FETCH 1;",
        "started, 1 FETCH, 2 points",
    ),
    Single(
        "FETCH past M-4",
        "MOVI pc 2048 0;",
        "R 63 2048 1;E FETCH 1;",
        "started, 1 FETCH, 2 points",
    ),
    Single(
        "FETCH at the last of all words",
        "MOVI r1 3 0;NOR pc r1 r0;",
        "R 63 4294967292 1;E FETCH 1;",
        "started, 2 FETCH, 2 points",
    ),
    Single(
        "the word at M-4 is fetched",
        "MOVI pc 2044 0;",
        "R 63 2048 1;",
        "started, 2 FETCH, 1 points",
    ),
];

const FETCH_FIRST: &[Single] = &[Single(
    "FETCH before CODE",
    "MOVI pc 6 0;WORD 402653184;WORD 402653184;",
    "R 63 6 1;",
    "started, 1 FETCH, 1 points",
)];

// A word is its opcode times 134,217,728, and no operand.
const CODES: &[(&str, &str)] = &[
    ("CODE at opcode 3", "WORD 402653184;"),
    ("CODE at opcode 7", "WORD 939524096;"),
    ("CODE at opcode 12", "WORD 1610612736;"),
    ("CODE at opcode 13", "WORD 1744830464;"),
    ("CODE at opcode 14", "WORD 1879048192;"),
    ("CODE at opcode 15", "WORD 2013265920;"),
    ("CODE at opcode 17", "WORD 2281701376;"),
    ("CODE at opcode 19", "WORD 2550136832;"),
    ("CODE at opcode 20", "WORD 2684354560;"),
    ("CODE at opcode 21", "WORD 2818572288;"),
    ("CODE at opcode 22", "WORD 2952790016;"),
    ("CODE at opcode 23", "WORD 3087007744;"),
    ("CODE at opcode 28", "WORD 3758096384;"),
    ("CODE at opcode 29", "WORD 3892314112;"),
    ("CODE at opcode 30", "WORD 4026531840;"),
];

const ZEROS: &[Single] = &[
    Single(
        "ZERO",
        "MOVI r1 6 0;MOVI r2 5 0;DIV r2 r1 r0;",
        "R 2 5 1;R 63 8 1;E ZERO 1;",
        "started, 2 ZERO, 3 points",
    ),
    Single(
        "ZERO though the target is r0",
        "DIV r0 r0 r0;",
        "R 63 0 1;E ZERO 1;",
        "started, 0 ZERO, 2 points",
    ),
    Single(
        "HALT is executed and counted",
        "HALT;",
        "R 63 4 1;E HALT 1;",
        "started, 1 HALT, 2 points",
    ),
];

const STORE_ALIGNS: &[Single] = &[
    Single(
        "ALIGN of STOREH at 7",
        "MOVI r1 7 0;STOREH r1 r1 r0;",
        "M 7 0 1;R 63 4 1;E ALIGN 1;",
        "started, 1 ALIGN, 3 points",
    ),
    Single(
        "STOREH at 6 is done",
        "MOVI r1 6 0;STOREH r1 r1 r0;HALT;",
        "M 6 0 1;M 7 6 1;",
        "started, 3 HALT, 2 points",
    ),
    Single(
        "ALIGN of STOREW at 6",
        "MOVI r1 6 0;STOREW r1 r1 r0;",
        "R 63 4 1;E ALIGN 1;",
        "started, 1 ALIGN, 2 points",
    ),
    Single(
        "STOREB at 513 is done",
        "MOVI r1 513 0;STOREB r1 r1 r0;HALT;",
        "M 513 1 1;",
        "started, 3 HALT, 1 points",
    ),
];

const SECTOR_ALIGNS: &[Single] = &[
    Single(
        "ALIGN of READ at 256",
        "MOVI r1 256 0;READ r1 r0;",
        "M 256 0 1;E ALIGN 1;",
        "started, 1 ALIGN, 2 points",
    ),
    Single(
        "ALIGN of WRITE at 768",
        "MOVI r1 768 0;WRITE r1 r0;",
        "D 0 0 128 1;E ALIGN 1;",
        "started, 1 ALIGN, 2 points",
    ),
];

const LOAD_RANGES: &[Single] = &[
    Single(
        "RANGE of LOADB at M",
        "MOVI r1 2048 0;LOADB r1 r1 r0;",
        "R 1 2048 1;R 63 4 1;E RANGE 1;",
        "started, 1 RANGE, 3 points",
    ),
    Single(
        "RANGE of LOADH at M-1",
        "MOVI r1 2047 0;LOADH r1 r1 r0;",
        "R 1 2047 1;R 63 4 1;E RANGE 1;",
        "started, 1 RANGE, 3 points",
    ),
    Single(
        "RANGE of LOADW at M-3",
        "MOVI r1 2045 0;LOADW r1 r1 r0;",
        "R 1 2045 1;R 63 4 1;E RANGE 1;",
        "started, 1 RANGE, 3 points",
    ),
];

const STORE_RANGES: &[Single] = &[
    Single(
        "RANGE of STOREB at M",
        "MOVI r1 2048 0;STOREB r1 r1 r0;",
        "R 1 2048 1;R 63 4 1;E RANGE 1;",
        "started, 1 RANGE, 3 points",
    ),
    Single(
        "RANGE of STOREH at M",
        "MOVI r1 2048 0;STOREH r1 r1 r0;",
        "R 1 2048 1;R 63 4 1;E RANGE 1;",
        "started, 1 RANGE, 3 points",
    ),
    Single(
        "RANGE of STOREW at M",
        "MOVI r1 2048 0;STOREW r1 r1 r0;",
        "R 1 2048 1;R 63 4 1;E RANGE 1;",
        "started, 1 RANGE, 3 points",
    ),
];

const SECTOR_RANGES: &[Single] = &[
    Single(
        "RANGE of READ at M",
        "MOVI r1 2048 0;READ r1 r0;",
        "R 1 2048 1;R 63 4 1;E RANGE 1;",
        "started, 1 RANGE, 3 points",
    ),
    Single(
        "RANGE of WRITE at M",
        "MOVI r1 2048 0;WRITE r1 r0;",
        "R 1 2048 1;R 63 4 1;E RANGE 1;",
        "started, 1 RANGE, 3 points",
    ),
];

const INSIDE: &[Single] = &[
    Single(
        "LOADB and STOREB at M-1 are done",
        "MOVI r1 2047 0;STOREB r1 r1 r0;LOADB r2 r1 r0;HALT;",
        "R 2 255 1;",
        "started, 4 HALT, 1 points",
    ),
    Single(
        "LOADH and STOREH at M-2 are done",
        "MOVI r1 2046 0;STOREH r1 r1 r0;LOADH r2 r1 r0;HALT;",
        "R 2 2046 1;",
        "started, 4 HALT, 1 points",
    ),
    Single(
        "LOADW and STOREW at M-4 are done",
        "MOVI r1 2044 0;STOREW r1 r1 r0;LOADW r2 r1 r0;HALT;",
        "R 2 2044 1;",
        "started, 4 HALT, 1 points",
    ),
    Single(
        "READ at M-512 is done",
        "MOVI r1 1536 0;MOVI r2 1 0;READ r1 r2;HALT;",
        "M 1535 0 1;M 1536 7 1;M 2047 7 1;",
        "started, 4 HALT, 3 points",
    ),
    Single(
        "WRITE at M-512 is done",
        "MOVI r1 1536 0;MOVI r2 1 0;WRITE r1 r2;HALT;",
        "D 1 0 0 1;D 1 511 0 1;D 2 0 7 1;",
        "started, 4 HALT, 3 points",
    ),
];

const SECTORS: &[Single] = &[
    Single(
        "SECTOR of READ",
        "MOVI r1 512 0;MOVI r2 34 0;READ r1 r2;",
        "M 512 0 1;R 63 8 1;E SECTOR 1;",
        "started, 2 SECTOR, 3 points",
    ),
    Single(
        "SECTOR of WRITE",
        "MOVI r1 512 0;MOVI r2 34 0;WRITE r1 r2;",
        "D 33 0 7 1;R 63 8 1;E SECTOR 1;",
        "started, 2 SECTOR, 3 points",
    ),
    Single(
        "SECTOR of READ at 65536",
        "MOVI r1 512 0;MOVI r2 1 16;READ r1 r2;",
        "M 512 0 1;E SECTOR 1;",
        "started, 2 SECTOR, 2 points",
    ),
    Single(
        "the last sector is read",
        "MOVI r1 512 0;MOVI r2 33 0;READ r1 r2;HALT;",
        "M 512 7 1;",
        "started, 4 HALT, 1 points",
    ),
];

const ALIGN_FIRST_AT_STORES: &[Single] = &[
    Single(
        "ALIGN before RANGE at STOREH",
        "MOVI r1 2049 0;STOREH r1 r1 r0;",
        "E ALIGN 1;",
        "started, 1 ALIGN, 1 points",
    ),
    Single(
        "ALIGN before RANGE at STOREW",
        "MOVI r1 2050 0;STOREW r1 r1 r0;",
        "E ALIGN 1;",
        "started, 1 ALIGN, 1 points",
    ),
];

const ALIGN_FIRST_AT_SECTORS: &[Single] = &[
    Single(
        "ALIGN before RANGE and SECTOR at READ",
        "MOVI r1 2049 0;MOVI r2 34 0;READ r1 r2;",
        "E ALIGN 1;",
        "started, 2 ALIGN, 1 points",
    ),
    Single(
        "ALIGN before RANGE and SECTOR at WRITE",
        "MOVI r1 2049 0;MOVI r2 34 0;WRITE r1 r2;",
        "E ALIGN 1;",
        "started, 2 ALIGN, 1 points",
    ),
    Single(
        "ALIGN before SECTOR at READ",
        "MOVI r1 256 0;MOVI r2 34 0;READ r1 r2;",
        "E ALIGN 1;",
        "started, 2 ALIGN, 1 points",
    ),
    Single(
        "ALIGN before SECTOR at WRITE",
        "MOVI r1 256 0;MOVI r2 34 0;WRITE r1 r2;",
        "E ALIGN 1;",
        "started, 2 ALIGN, 1 points",
    ),
];

const RANGE_FIRST: &[Single] = &[
    Single(
        "RANGE before SECTOR at READ",
        "MOVI r1 2048 0;MOVI r2 34 0;READ r1 r2;",
        "E RANGE 1;",
        "started, 2 RANGE, 1 points",
    ),
    Single(
        "RANGE before SECTOR at WRITE",
        "MOVI r1 2048 0;MOVI r2 34 0;WRITE r1 r2;",
        "E RANGE 1;",
        "started, 2 RANGE, 1 points",
    ),
];

pub fn try_all(rt: &HostRuntime) -> anyhow::Result<()> {
    try_table(rt, FETCHES)?;
    try_table(rt, FETCH_FIRST)?;
    for (label, program) in CODES {
        let case = Single(
            label,
            program,
            "R 63 0 1;E CODE 1;",
            "started, 0 CODE, 2 points",
        );
        try_one(rt, &case)?;
    }
    try_table(rt, ZEROS)?;
    try_table(rt, STORE_ALIGNS)?;
    try_table(rt, SECTOR_ALIGNS)?;
    try_table(rt, LOAD_RANGES)?;
    try_table(rt, STORE_RANGES)?;
    try_table(rt, SECTOR_RANGES)?;
    try_table(rt, INSIDE)?;
    try_table(rt, SECTORS)?;
    try_table(rt, ALIGN_FIRST_AT_STORES)?;
    try_table(rt, ALIGN_FIRST_AT_SECTORS)?;
    try_table(rt, RANGE_FIRST)
}
