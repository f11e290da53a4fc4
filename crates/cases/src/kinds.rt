// Cases on other kinds of disk and console than an overlay and a keyboard.
use crate::bench::{Bench, Call, sectors_with};
use crate::case::Case;
use crate::verdict::judge;
use console::{Console, Keyboard, Script};
use disk::{Image, ReadOnlyImage, Writable};
use overlay::Overlay;

// Sets the first byte from 512 on to 1, writes these 512 bytes to sector 1, and reads them back to 1024.
const REWRITE: &str =
    "MOVI r1 512 0;MOVI r2 1 0;STOREB r2 r1 r0;WRITE r1 r2;MOVI r3 1024 0;READ r3 r2;HALT;";

const REWRITE_CALLS: &[Call] = &[
    Call::Start,
    Call::Run(9),
    Call::Tally("M 1024 1 1;D 1 0 1 1;D 1 1 0 1;"),
];

const REWRITE_DUE: &str = "started, 7 HALT, 3 points";

// MOVI a0 65 0, OUT a0 and HALT at the start of a disk with one sector, as the program `exam` runs it.
fn try_example(rt: &HostRuntime) -> anyhow::Result<()> {
    let heap = rt.alloc();
    let mut sector = [0u8; 512];
    sector[..12].copy_from_slice(b"\x80\x60\x08\x20\xc8\x60\x00\x00\xf8\x00\x00\x00");
    let mut paper = [0u8; 4096];
    let mut disk = Overlay::new(ReadOnlyImage::new(&sector));
    let mut console = Script::new(b"", &mut paper);
    let calls = [Call::Start, Call::Run(1_000_000), Call::Collect(4096)];
    let said = Bench::new(heap, 65536)?.make_all(&mut disk, &mut console, &calls)?;
    judge(
        rt,
        "the exam's example prints A and answers 3 and HALT",
        said.as_str(),
        "started, 3 HALT, 1:A",
    )
}

// What calls answer on a disk and a console, with a memory of this length.
fn try_calls<D: Writable, C: Console>(
    rt: &HostRuntime,
    length: usize,
    disk: &mut D,
    console: &mut C,
    case: &Case,
) -> anyhow::Result<()> {
    let Case(label, _, calls, due) = case;
    let said = Bench::new(rt.alloc(), length)?.make_all(disk, console, calls)?;
    judge(rt, label, said.as_str(), due)
}

// Cases on a disk of 511 bytes, which has no sector.
const NO_SECTOR: Case = Case(
    "a disk with no sector gets 3",
    "",
    &[Call::Start, Call::Run(1)],
    "refused 3, refused 4",
);

const REFUSALS_IN_ORDER: Case = Case(
    "1 before 2 before 3",
    "",
    &[
        Call::StartIn(511),
        Call::Start,
        Call::Collect(1),
        Call::Start,
    ],
    "refused 1, refused 2, 1:A, refused 3",
);

fn try_no_sectors(rt: &HostRuntime) -> anyhow::Result<()> {
    let mut keyboard = Keyboard::new(rt.alloc())?;
    let few = [0u8; 511];
    let mut disk = Overlay::new(ReadOnlyImage::new(&few));
    try_calls(rt, 512, &mut disk, &mut keyboard, &NO_SECTOR)?;
    let _ = keyboard.put(b'A');
    try_calls(rt, 512, &mut disk, &mut keyboard, &REFUSALS_IN_ORDER)
}

// Cases on a script with the text a and one paper place.
const SCRIPTS: &[Case] = &[
    Case(
        "a script's paper does not come back",
        "IN r1;OUT r1;OUT r1;HALT;",
        &[Call::Start, Call::Run(9), Call::Collect(9), Call::Run(9)],
        "started, 2 PAPER, 1:a, 0 PAPER",
    ),
    Case(
        "a script has no slots",
        "IN r1;IN r1;HALT;",
        &[Call::Start, Call::Run(9), Call::Feed(b"b"), Call::Run(9)],
        "started, 1 INPUT, fed 0, 0 INPUT",
    ),
];

fn try_scripts(rt: &HostRuntime) -> anyhow::Result<()> {
    for case in SCRIPTS {
        let Case(_, program, _, _) = case;
        let bytes = sectors_with(rt.alloc(), program)?;
        let mut paper = [0u8; 1];
        let mut disk = Overlay::new(ReadOnlyImage::new(bytes.as_slice()));
        let mut script = Script::new(b"a", &mut paper);
        try_calls(rt, 2048, &mut disk, &mut script, case)?;
    }
    Ok(())
}

// The first byte of sector 1.
fn first_of_second(sectors: &[u8]) -> &'static str {
    match sectors.get(512) {
        Some(1) => "1",
        Some(7) => "7",
        _ => "neither 1 nor 7",
    }
}

// Rewrites a sector of a disk, and says what was answered.
fn try_rewrite<D: Writable>(
    rt: &HostRuntime,
    label: &'static str,
    disk: &mut D,
) -> anyhow::Result<()> {
    let mut keyboard = Keyboard::new(rt.alloc())?;
    let case = Case(label, REWRITE, REWRITE_CALLS, REWRITE_DUE);
    try_calls(rt, 2048, disk, &mut keyboard, &case)
}

// The overlay has the sector that was written, and the image below has its own.
fn try_below(rt: &HostRuntime) -> anyhow::Result<()> {
    let mut bytes = sectors_with(rt.alloc(), REWRITE)?;
    let mut disk = Overlay::new(Image::new(bytes.as_mut_slice()));
    try_rewrite(rt, "an overlay answers what was written", &mut disk)?;
    let left = first_of_second(bytes.as_slice());
    judge(rt, "the disk below an overlay is as it was", left, "7")
}

fn try_image(rt: &HostRuntime) -> anyhow::Result<()> {
    let mut bytes = sectors_with(rt.alloc(), REWRITE)?;
    let mut disk = Image::new(bytes.as_mut_slice());
    try_rewrite(rt, "an image answers what was written", &mut disk)?;
    let left = first_of_second(bytes.as_slice());
    judge(rt, "a write to an image reaches its bytes", left, "1")
}

pub fn try_all(rt: &HostRuntime) -> anyhow::Result<()> {
    try_example(rt)?;
    try_no_sectors(rt)?;
    try_scripts(rt)?;
    try_below(rt)?;
    try_image(rt)
}
