// Cases of console and disk: what is taken, printed and written, and what an instruction wants.
use crate::bench::Call;
use crate::case::{Case, try_table};

const PRINTING: &[Case] = &[
    Case(
        "OUT prints the low byte",
        "MOVI r1 577 0;OUT r1;HALT;",
        &[Call::Start, Call::Run(9), Call::Collect(9)],
        "started, 3 HALT, 1:A",
    ),
    Case(
        "OUT prints in order",
        "MOVI r1 65 0;MOVI r2 66 0;OUT r1;OUT r2;HALT;",
        &[Call::Start, Call::Run(9), Call::Collect(9)],
        "started, 5 HALT, 2:AB",
    ),
    Case(
        "unused bits of OUT are ignored",
        "MOVI r3 65 0;WORD 3363831807;HALT;",
        &[Call::Start, Call::Run(9), Call::Collect(9)],
        "started, 3 HALT, 1:A",
    ),
    Case(
        "collects may be short",
        "MOVI r1 65 0;OUT r1;OUT r1;HALT;",
        &[
            Call::Start,
            Call::Run(9),
            Call::Collect(1),
            Call::Collect(9),
            Call::Collect(9),
        ],
        "started, 4 HALT, 1:A, 1:A, 0:",
    ),
];

const TAKING: &[Case] = &[
    Case(
        "IN takes in order what waits at the start",
        "IN r1;IN r2;OUT r2;OUT r1;HALT;",
        &[
            Call::Feed(b"xy"),
            Call::Start,
            Call::Run(9),
            Call::Collect(9),
        ],
        "fed 2, started, 5 HALT, 2:yx",
    ),
    Case(
        "IN is zero extended",
        "IN r1;HALT;",
        &[
            Call::Start,
            Call::Feed(b"\xff"),
            Call::Run(9),
            Call::Tally("R 1 255 1;"),
        ],
        "started, fed 1, 2 HALT, 1 points",
    ),
    Case(
        "IN to r63 jumps",
        "IN pc;HALT;MOVI r3 5 0;HALT;",
        &[
            Call::Start,
            Call::Feed(b"\x08"),
            Call::Run(9),
            Call::Tally("R 3 5 1;"),
        ],
        "started, fed 1, 3 HALT, 1 points",
    ),
];

// What is taken for r0 is nowhere, and no longer waits.
const TAKING_TO_ZERO: &[Case] = &[
    Case(
        "IN to r0 takes its byte",
        "IN r0;IN r1;OUT r1;HALT;",
        &[
            Call::Start,
            Call::Feed(b"xy"),
            Call::Run(9),
            Call::Collect(9),
            Call::Tally("R 0 0 1;R 1 121 1;"),
        ],
        "started, fed 2, 4 HALT, 1:y, 2 points",
    ),
    Case(
        "IN to r0 wants its byte",
        "IN r0;HALT;",
        &[Call::Start, Call::Run(9), Call::Feed(b"x"), Call::Run(9)],
        "started, 0 INPUT, fed 1, 2 HALT",
    ),
];

// What an instruction wants, it wants again from the next run on until it has it.
const INPUT: &[Case] = &[
    Case(
        "INPUT, and the same IN once it was fed",
        "IN r3;OUT r3;HALT;",
        &[
            Call::Start,
            Call::Run(5),
            Call::Feed(b"B"),
            Call::Run(5),
            Call::Collect(9),
            Call::Tally("R 3 66 1;R 63 12 1;"),
        ],
        "started, 0 INPUT, fed 1, 3 HALT, 1:B, 2 points",
    ),
    Case(
        "INPUT again where nothing was fed",
        "IN r3;",
        &[Call::Start, Call::Run(5), Call::Run(5)],
        "started, 0 INPUT, 0 INPUT",
    ),
    Case(
        "INPUT after a step",
        "MOVI r1 1 0;IN r2;HALT;",
        &[
            Call::Start,
            Call::Run(5),
            Call::Feed(b"B"),
            Call::Run(5),
            Call::Tally("R 1 1 1;R 2 66 1;R 63 12 1;"),
        ],
        "started, 1 INPUT, fed 1, 2 HALT, 3 points",
    ),
];

// A turn prints one byte and has two steps.
const PAPER: &[Case] = &[Case(
    "PAPER, and the same OUT once it was collected",
    "MOVI r3 65 0;OUT r3;MOVI pc 4 0;",
    &[
        Call::Start,
        Call::Run(1000000),
        Call::Run(5),
        Call::Collect(3),
        Call::Run(1000000),
    ],
    "started, 8193 PAPER, 0 PAPER, 3:AAA, 6 PAPER",
)];

// Sectors 1 to 32 are written first, and use up the keeps.
const KEEPS: &[Case] = &[
    Case(
        "KEEP at the 33rd sector",
        "MOVI r1 512 0;MOVI r2 1 0;MOVI r4 1 0;WRITE r1 r2;ADD r2 r2 r4;MOVI pc 12 0;",
        &[Call::Start, Call::Run(1000), Call::Run(1000)],
        "started, 99 KEEP, 0 KEEP",
    ),
    Case(
        "a kept sector is written again where no keep is left",
        "MOVI r1 512 0;MOVI r2 1 0;MOVI r4 1 0;MOVI r6 32 0;NOR r6 r6 r0;MOVI r7 24 0;WRITE r1 r2;ADD r2 r2 r4;ADD r5 r2 r6;CMOV pc r7 r5;STOREB r4 r1 r0;MOVI r8 5 0;WRITE r1 r8;HALT;",
        &[
            Call::Start,
            Call::Run(1000),
            Call::Tally("D 5 0 1 1;D 6 0 0 1;D 33 0 7 1;"),
        ],
        "started, 138 HALT, 3 points",
    ),
    Case(
        "SECTOR before KEEP",
        "MOVI r1 512 0;MOVI r2 1 0;MOVI r4 1 0;MOVI r6 32 0;NOR r6 r6 r0;MOVI r7 24 0;WRITE r1 r2;ADD r2 r2 r4;ADD r5 r2 r6;CMOV pc r7 r5;MOVI r9 34 0;WRITE r1 r9;",
        &[Call::Start, Call::Run(1000), Call::Tally("E SECTOR 1;")],
        "started, 135 SECTOR, 1 points",
    ),
];

const REWRITING: &[Case] = &[Case(
    "a sector is written and read back",
    "MOVI r1 512 0;MOVI r2 1 0;STOREB r2 r1 r0;WRITE r1 r2;MOVI r3 1024 0;READ r3 r2;HALT;",
    &[
        Call::Start,
        Call::Run(9),
        Call::Tally("M 1024 1 1;M 1025 0 1;M 1535 0 1;D 1 0 1 1;D 1 1 0 1;D 2 0 7 1;"),
    ],
    "started, 7 HALT, 6 points",
)];

pub fn try_all(rt: &HostRuntime) -> anyhow::Result<()> {
    for table in [
        PRINTING,
        TAKING,
        TAKING_TO_ZERO,
        INPUT,
        PAPER,
        KEEPS,
        REWRITING,
    ] {
        try_table(rt, table)?;
    }
    Ok(())
}
