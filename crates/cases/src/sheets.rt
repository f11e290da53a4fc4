// Cases of sheets: what their lines earn, and what is wrong with them.
use crate::case::{Single, try_one};

// It halts with 513 in r1 and 1 at the address 513.
const HALTED: &str = "MOVI r1 513 0;STOREB r1 r1 r0;HALT;";

const PLACES: &[(&str, &str, &str)] = &[
    ("an empty sheet", "", "started, 3 HALT, 0 points"),
    (
        "an R line hits",
        "R 1 513 1000;",
        "started, 3 HALT, 1000 points",
    ),
    (
        "an R line misses",
        "R 1 512 1000;",
        "started, 3 HALT, 0 points",
    ),
    (
        "an M line hits",
        "M 513 1 20;",
        "started, 3 HALT, 20 points",
    ),
    (
        "an M line misses",
        "M 513 2 20;",
        "started, 3 HALT, 0 points",
    ),
    (
        "an M line at the last byte of memory",
        "M 2047 0 5;",
        "started, 3 HALT, 5 points",
    ),
    (
        "an M line past memory",
        "M 2048 0 5;M 1048575 0 5;",
        "started, 3 HALT, 0 points",
    ),
];

const SECTORS_AND_ENDINGS: &[(&str, &str, &str)] = &[
    (
        "a D line hits",
        "D 1 0 7 3;D 33 511 7 4;",
        "started, 3 HALT, 7 points",
    ),
    ("a D line misses", "D 1 0 8 3;", "started, 3 HALT, 0 points"),
    (
        "a D line past the disk",
        "D 34 0 0 3;D 65535 511 0 3;",
        "started, 3 HALT, 0 points",
    ),
    ("an E line hits", "E HALT 4;", "started, 3 HALT, 4 points"),
    ("an E line misses", "E CODE 4;", "started, 3 HALT, 0 points"),
];

const SEVERAL_LINES: &[(&str, &str, &str)] = &[
    (
        "lines of every kind",
        "R 1 513 1;R 1 0 2;M 513 1 4;D 1 0 7 8;E HALT 16;E ZERO 32;",
        "started, 3 HALT, 29 points",
    ),
    (
        "the same line twice",
        "E HALT 5;E HALT 5;",
        "started, 3 HALT, 10 points",
    ),
];

const ENDS: &[(&str, &str, &str)] = &[
    (
        "END in an unended line",
        "E HALT 5",
        "started, 3 HALT, refused 8 1 0 END",
    ),
    (
        "END before the fields of its line",
        "X",
        "started, 3 HALT, refused 8 1 0 END",
    ),
    (
        "END after a good line",
        "E HALT 5;E",
        "started, 3 HALT, refused 8 2 0 END",
    ),
    (
        "a wrong line before an unended one",
        "X;E",
        "started, 3 HALT, refused 8 1 1 SPELLING",
    ),
];

const SPELLINGS: &[(&str, &str, &str)] = &[
    (
        "SPELLING of a letter",
        "X 1 513 1;",
        "started, 3 HALT, refused 8 1 1 SPELLING",
    ),
    (
        "SPELLING of a small letter",
        "r 1 513 1;",
        "started, 3 HALT, refused 8 1 1 SPELLING",
    ),
    (
        "SPELLING of two letters",
        "RR 1 513 1;",
        "started, 3 HALT, refused 8 1 1 SPELLING",
    ),
    (
        "SPELLING of an empty line",
        ";",
        "started, 3 HALT, refused 8 1 1 SPELLING",
    ),
    (
        "SPELLING of SPENT as an ending",
        "E SPENT 1;",
        "started, 3 HALT, refused 8 1 2 SPELLING",
    ),
    (
        "SPELLING of a want as an ending",
        "E INPUT 1;",
        "started, 3 HALT, refused 8 1 2 SPELLING",
    ),
    (
        "SPELLING of an ending in small letters",
        "E halt 1;",
        "started, 3 HALT, refused 8 1 2 SPELLING",
    ),
];

const DIGITS: &[(&str, &str, &str)] = &[
    (
        "DIGITS at a letter",
        "R x 513 1;",
        "started, 3 HALT, refused 8 1 2 DIGITS",
    ),
    (
        "DIGITS at an empty field",
        "R 1  1;",
        "started, 3 HALT, refused 8 1 3 DIGITS",
    ),
    (
        "DIGITS at a leading zero",
        "R 01 513 1;",
        "started, 3 HALT, refused 8 1 2 DIGITS",
    ),
    (
        "DIGITS before SIZE",
        "R 099 513 1;",
        "started, 3 HALT, refused 8 1 2 DIGITS",
    ),
    (
        "DIGITS at a sign",
        "R 1 513 -1;",
        "started, 3 HALT, refused 8 1 4 DIGITS",
    ),
];

const MISSING: &[(&str, &str, &str)] = &[
    (
        "MISSING after a letter",
        "R;",
        "started, 3 HALT, refused 8 1 2 MISSING",
    ),
    (
        "MISSING points of R",
        "R 1 513;",
        "started, 3 HALT, refused 8 1 4 MISSING",
    ),
    (
        "MISSING points of D",
        "D 1 0 7;",
        "started, 3 HALT, refused 8 1 5 MISSING",
    ),
    (
        "MISSING points of E",
        "E HALT;",
        "started, 3 HALT, refused 8 1 3 MISSING",
    ),
];

const EXTRA: &[(&str, &str, &str)] = &[
    (
        "EXTRA after R",
        "R 1 513 1 1;",
        "started, 3 HALT, refused 8 1 5 EXTRA",
    ),
    (
        "EXTRA after M",
        "M 513 1 1 1;",
        "started, 3 HALT, refused 8 1 5 EXTRA",
    ),
    (
        "EXTRA after D",
        "D 1 0 7 1 1;",
        "started, 3 HALT, refused 8 1 6 EXTRA",
    ),
    (
        "EXTRA at a tab after E",
        "E HALT 1 ;",
        "started, 3 HALT, refused 8 1 4 EXTRA",
    ),
];

const SIZES: &[(&str, &str, &str)] = &[
    (
        "SIZE of a register number",
        "R 64 0 1;",
        "started, 3 HALT, refused 8 1 2 SIZE",
    ),
    (
        "SIZE of a word",
        "R 1 4294967296 1;",
        "started, 3 HALT, refused 8 1 3 SIZE",
    ),
    (
        "SIZE of an address",
        "M 1048576 0 1;",
        "started, 3 HALT, refused 8 1 2 SIZE",
    ),
    (
        "SIZE of a byte of memory",
        "M 0 256 1;",
        "started, 3 HALT, refused 8 1 3 SIZE",
    ),
    (
        "SIZE of a sector number",
        "D 65536 0 0 1;",
        "started, 3 HALT, refused 8 1 2 SIZE",
    ),
    (
        "SIZE of an offset",
        "D 0 512 0 1;",
        "started, 3 HALT, refused 8 1 3 SIZE",
    ),
    (
        "SIZE of a byte of a sector",
        "D 0 0 256 1;",
        "started, 3 HALT, refused 8 1 4 SIZE",
    ),
];

const POINTS: &[(&str, &str, &str)] = &[
    (
        "SIZE of 0 points",
        "E HALT 0;",
        "started, 3 HALT, refused 8 1 3 SIZE",
    ),
    (
        "SIZE of 1001 points",
        "E HALT 1001;",
        "started, 3 HALT, refused 8 1 3 SIZE",
    ),
    (
        "1000 points",
        "E HALT 1000;",
        "started, 3 HALT, 1000 points",
    ),
];

const FIRST_WRONG: &[(&str, &str, &str)] = &[
    (
        "the first wrong field counts",
        "R 64 x 0 9;",
        "started, 3 HALT, refused 8 1 2 SIZE",
    ),
    (
        "the first wrong line counts",
        "E HALT 1;R 64 0 1;X;",
        "started, 3 HALT, refused 8 2 2 SIZE",
    ),
];

pub fn try_all(rt: &HostRuntime) -> anyhow::Result<()> {
    let tables = [
        PLACES,
        SECTORS_AND_ENDINGS,
        SEVERAL_LINES,
        ENDS,
        SPELLINGS,
        DIGITS,
        MISSING,
        EXTRA,
        SIZES,
        POINTS,
        FIRST_WRONG,
    ];
    for table in tables {
        for (label, sheet, due) in table {
            try_one(rt, &Single(label, HALTED, sheet, due))?;
        }
    }
    Ok(())
}
