// Cases: a program, the calls that are made on it, and the answers that are due.
use crate::bench::{Bench, Call, sectors_with};
use crate::verdict::judge;
use console::Keyboard;
use disk::ReadOnlyImage;
use overlay::Overlay;

// Its label, the program, the calls and what is due. The answers are parted by commas: "started", the count and the stop of a run, "fed" and how many, how many were collected and these bytes, points, or "refused" and the number.
#[derive(Clone, Copy)]
pub struct Case(
    pub &'static str,
    pub &'static str,
    pub &'static [Call],
    pub &'static str,
);

// A program that is started and run once, the sheet by which it is marked then, and what is due.
#[derive(Clone, Copy)]
pub struct Single(
    pub &'static str,
    pub &'static str,
    pub &'static str,
    pub &'static str,
);

// What can be tried: how it is called, what was answered, and what is due.
pub trait Trial {
    fn label(&self) -> &'static str;

    fn due(&self) -> &'static str;

    fn answers(&self, rt: &HostRuntime) -> anyhow::Result<String>;
}

// What calls answer over an overlay and a keyboard.
fn answers(rt: &HostRuntime, program: &str, calls: &[Call]) -> anyhow::Result<String> {
    let heap = rt.alloc();
    let bytes = sectors_with(heap, program)?;
    let mut disk = Overlay::new(ReadOnlyImage::new(bytes.as_slice()));
    let mut keyboard = Keyboard::new(heap)?;
    Bench::new(heap, 2048)?.make_all(&mut disk, &mut keyboard, calls)
}

impl Trial for Case {
    fn label(&self) -> &'static str {
        let Case(label, _, _, _) = self;
        label
    }

    fn due(&self) -> &'static str {
        let Case(_, _, _, due) = self;
        due
    }

    fn answers(&self, rt: &HostRuntime) -> anyhow::Result<String> {
        let Case(_, program, calls, _) = self;
        answers(rt, program, calls)
    }
}

impl Trial for Single {
    fn label(&self) -> &'static str {
        let Single(label, _, _, _) = self;
        label
    }

    fn due(&self) -> &'static str {
        let Single(_, _, _, due) = self;
        due
    }

    fn answers(&self, rt: &HostRuntime) -> anyhow::Result<String> {
        let Single(_, program, sheet, _) = self;
        let calls = [Call::Start, Call::Run(1000), Call::Tally(sheet)];
        answers(rt, program, &calls)
    }
}

pub fn try_one<T: Trial>(rt: &HostRuntime, case: &T) -> anyhow::Result<()> {
    let said = case.answers(rt)?;
    judge(rt, case.label(), said.as_str(), case.due())
}

pub fn try_table<T: Trial>(rt: &HostRuntime, table: &[T]) -> anyhow::Result<()> {
    for case in table {
        try_one(rt, case)?;
    }
    Ok(())
}
