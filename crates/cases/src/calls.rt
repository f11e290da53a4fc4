// Cases of grants, starts and refusals.
use crate::bench::Call;
use crate::case::{Case, try_table};

const NO_GRANTS: &[Case] = &[
    Case(
        "a grant of 0",
        "HALT;",
        &[Call::Start, Call::Run(0), Call::Run(1)],
        "started, 0 SPENT, 1 HALT",
    ),
    Case(
        "a grant of 0 at a word with no operation",
        "WORD 402653184;",
        &[Call::Start, Call::Run(0), Call::Run(1)],
        "started, 0 SPENT, 0 CODE",
    ),
    Case(
        "a grant of 0 at IN",
        "IN r1;",
        &[Call::Start, Call::Run(0), Call::Run(1)],
        "started, 0 SPENT, 0 INPUT",
    ),
];

const GRANTS: &[Case] = &[
    Case(
        "a grant that is used up before HALT",
        "MOVI r1 1 0;HALT;",
        &[Call::Start, Call::Run(1), Call::Run(1)],
        "started, 1 SPENT, 1 HALT",
    ),
    Case(
        "a grant that is used up at HALT",
        "MOVI r1 1 0;HALT;",
        &[Call::Start, Call::Run(2)],
        "started, 2 HALT",
    ),
    Case(
        "the largest grant",
        "HALT;",
        &[Call::Start, Call::Run(4294967295)],
        "started, 1 HALT",
    ),
];

const ENDED: &[Case] = &[
    Case(
        "a halted station, whatever the grant",
        "HALT;",
        &[
            Call::Start,
            Call::Run(5),
            Call::Run(5),
            Call::Run(0),
            Call::Run(4294967295),
        ],
        "started, 1 HALT, 0 HALT, 0 HALT, 0 HALT",
    ),
    Case(
        "a station that CODE ended, whatever the grant",
        "WORD 402653184;",
        &[Call::Start, Call::Run(5), Call::Run(5), Call::Run(0)],
        "started, 0 CODE, 0 CODE, 0 CODE",
    ),
];

const STARTS: &[Case] = &[
    Case(
        "a start after an ending",
        "MOVI r1 1 0;HALT;",
        &[
            Call::Start,
            Call::Run(5),
            Call::Start,
            Call::Run(1),
            Call::Run(1),
            Call::Tally("R 1 1 1;"),
        ],
        "started, 2 HALT, started, 1 SPENT, 1 HALT, 1 points",
    ),
    Case(
        "a start sets the registers to 0",
        "ADD r2 r2 r1;MOVI r1 5 0;HALT;",
        &[
            Call::Start,
            Call::Run(5),
            Call::Start,
            Call::Run(5),
            Call::Tally("R 1 5 1;R 2 0 1;"),
        ],
        "started, 3 HALT, started, 3 HALT, 2 points",
    ),
];

// The program stores 9 at 512 and over its own third instruction.
const LOADING: &[Case] = &[Case(
    "a start brings the first sector and leaves the rest of memory",
    "MOVI r1 512 0;LOADB r2 r1 r0;MOVI r3 9 0;STOREB r3 r1 r0;STOREB r3 r0 r3;HALT;",
    &[
        Call::Start,
        Call::Run(9),
        Call::Start,
        Call::Run(9),
        Call::Tally("R 2 9 1;R 3 9 1;"),
    ],
    "started, 6 HALT, started, 6 HALT, 2 points",
)];

const LENGTHS: &[Case] = &[
    Case(
        "lengths 512 and 1048576 start",
        "HALT;",
        &[Call::StartIn(512), Call::StartIn(1048576)],
        "started, started",
    ),
    Case(
        "lengths 0, 511 and 1049088 get 1",
        "HALT;",
        &[Call::StartIn(0), Call::StartIn(511), Call::StartIn(1049088)],
        "refused 1, refused 1, refused 1",
    ),
    Case(
        "a length that is no multiple of 512 gets 1",
        "HALT;",
        &[Call::StartIn(513), Call::StartIn(1048575)],
        "refused 1, refused 1",
    ),
];

const UNCOLLECTED: &[Case] = &[
    Case(
        "uncollected bytes get 2, and nothing changes",
        "MOVI r1 65 0;OUT r1;HALT;",
        &[
            Call::Start,
            Call::Run(9),
            Call::Start,
            Call::Run(9),
            Call::Tally("R 1 65 1;"),
            Call::Collect(9),
            Call::Start,
        ],
        "started, 3 HALT, refused 2, 0 HALT, 1 points, 1:A, started",
    ),
    Case(
        "1 before 2",
        "MOVI r1 65 0;OUT r1;HALT;",
        &[Call::Start, Call::Run(9), Call::StartIn(511)],
        "started, 3 HALT, refused 1",
    ),
];

const UNSTARTED: &[Case] = &[
    Case(
        "a run before a start gets 4",
        "HALT;",
        &[Call::Run(5), Call::RunIn(512)],
        "refused 4, refused 4",
    ),
    Case(
        "a tally before a start gets 4",
        "HALT;",
        &[Call::Tally(""), Call::TallyIn(512)],
        "refused 4, refused 4",
    ),
];

const OTHER_MEMORY: &[Case] = &[
    Case(
        "a run with another memory gets 5",
        "HALT;",
        &[
            Call::Start,
            Call::RunIn(512),
            Call::Run(5),
            Call::RunIn(512),
        ],
        "started, refused 5, 1 HALT, refused 5",
    ),
    Case(
        "a tally with another memory gets 5",
        "HALT;",
        &[
            Call::Start,
            Call::TallyIn(512),
            Call::Run(5),
            Call::TallyIn(512),
        ],
        "started, refused 5, 1 HALT, refused 5",
    ),
];

const UNTALLIED: &[Case] = &[
    Case(
        "a tally before an ending gets 6",
        "IN r1;",
        &[
            Call::Start,
            Call::Tally(""),
            Call::Run(5),
            Call::Tally(""),
            Call::Tally("X"),
        ],
        "started, refused 6, 0 INPUT, refused 6, refused 6",
    ),
    Case(
        "a sheet of 65529 bytes is read",
        "HALT;",
        &[Call::Start, Call::Run(5), Call::TallyLines(7281)],
        "started, 1 HALT, 7281 points",
    ),
    Case(
        "a sheet of 65538 bytes gets 7",
        "HALT;",
        &[Call::Start, Call::Run(5), Call::TallyLines(7282)],
        "started, 1 HALT, refused 7",
    ),
];

pub fn try_all(rt: &HostRuntime) -> anyhow::Result<()> {
    for table in [
        NO_GRANTS,
        GRANTS,
        ENDED,
        STARTS,
        LOADING,
        LENGTHS,
        UNCOLLECTED,
        UNSTARTED,
        OTHER_MEMORY,
        UNTALLIED,
    ] {
        try_table(rt, table)?;
    }
    Ok(())
}
