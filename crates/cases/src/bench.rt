// The bench: a station with its memory, disk and console, and what its calls answer, as text.
use anyhow::anyhow;
use assembler::assembler::assemble;
use console::Console;
use disk::Writable;
use station::answer::TallyRefusal;
use station::unit::Station;
use std::alloc::Global;
use std::fmt::Write;
use std::mem;
use text::fault::Fault;

// A call that a case makes. The memory has 2,048 bytes, and the disk 34 sectors, unless the call says otherwise.
#[derive(Clone, Copy)]
pub enum Call {
    Start,
    // a start that names another memory, of this length
    StartIn(usize),
    Run(u32),
    // a run that names another memory, of this length
    RunIn(usize),
    Feed(&'static [u8]),
    // a collect into a buffer of this length
    Collect(usize),
    Tally(&'static str),
    // a tally that names another memory, of this length
    TallyIn(usize),
    // a tally by so many lines of nine bytes, each worth a point where the station halted
    TallyLines(usize),
}

// A text in full: blanks stand for tabs, and semicolons for newlines.
pub fn in_full(heap: Global, short: &str) -> anyhow::Result<Vec<u8>> {
    let mut text = short.as_bytes().to_vec(heap)?;
    for c in text.iter_mut() {
        match *c {
            b' ' => *c = b'\t',
            b';' => *c = b'\n',
            _ => {}
        }
    }
    Ok(text)
}

// The bytes of a disk with 34 sectors: a program, zeros up to the end of its sector, and sevens.
pub fn sectors_with(heap: Global, program: &str) -> anyhow::Result<Vec<u8>> {
    let mut sectors = vec![in heap; 0u8; 512]?;
    let text = in_full(heap, program)?;
    if assemble(text.as_slice(), sectors.as_mut_slice()).is_err() {
        return Err(anyhow!("a program is not in form"));
    }
    sectors.resize(17408, 7)?;
    Ok(sectors)
}

// A station with its memory, and what its calls answered so far, as text.
#[derive(Drop)]
pub struct Bench {
    heap: Global,
    station: Station,
    memory: Vec<u8>,
    said: String,
}

impl Bench {
    pub fn new(heap: Global, length: usize) -> anyhow::Result<Bench> {
        Ok(Bench {
            heap,
            station: Station::new(),
            memory: vec![in heap; 0u8; length]?,
            said: String::new(heap),
        })
    }

    fn start<D: Writable, C: Console>(&mut self, disk: &D, console: &C) -> anyhow::Result<()> {
        let memory = self.memory.as_mut_slice();
        match self.station.start(memory, disk, console) {
            Ok(()) => self.said.push_str("started")?,
            Err(refusal) => write!(self.said, "refused {}", refusal.number())?,
        }
        Ok(())
    }

    fn run<D: Writable, C: Console>(
        &mut self,
        disk: &mut D,
        console: &mut C,
        steps: u32,
    ) -> anyhow::Result<()> {
        let memory = self.memory.as_mut_slice();
        match self.station.run(memory, disk, console, steps) {
            Ok(answer) => write!(self.said, "{} {}", answer.count, answer.stop)?,
            Err(refusal) => write!(self.said, "refused {}", refusal.number())?,
        }
        Ok(())
    }

    fn feed<C: Console>(&mut self, console: &mut C, bytes: &[u8]) -> anyhow::Result<()> {
        let went = self.station.feed(console, bytes);
        write!(self.said, "fed {went}")?;
        Ok(())
    }

    fn collect<C: Console>(&mut self, console: &mut C, length: usize) -> anyhow::Result<()> {
        let mut buffer = vec![in self.heap; 0u8; length]?;
        let came = self.station.collect(console, buffer.as_mut_slice());
        write!(self.said, "{came}:")?;
        for byte in buffer.iter().take(came) {
            self.said.push(char::from(*byte))?;
        }
        Ok(())
    }

    // A form refusal carries its line, its field and its cause.
    fn tally<D: Writable>(&mut self, disk: &D, sheet: &[u8]) -> anyhow::Result<()> {
        let memory = self.memory.as_slice();
        match self.station.tally(memory, disk, sheet) {
            Ok(points) => write!(self.said, "{points} points")?,
            Err(refusal) => {
                write!(self.said, "refused {}", refusal.number())?;
                if let TallyRefusal::Form(Fault { line, field, cause }) = refusal {
                    write!(self.said, " {line} {field} {cause}")?;
                }
            }
        }
        Ok(())
    }

    // Another memory, of this length, takes the place of the one that is answered.
    fn swap_memory(&mut self, length: usize) -> anyhow::Result<Vec<u8>> {
        let other = vec![in self.heap; 0u8; length]?;
        Ok(mem::replace(&mut self.memory, other))
    }

    // Makes a call, and adds to the text what it answers.
    fn make<D: Writable, C: Console>(
        &mut self,
        disk: &mut D,
        console: &mut C,
        call: Call,
    ) -> anyhow::Result<()> {
        match call {
            Call::Start => self.start(disk, console),
            Call::StartIn(length) => {
                let own = self.swap_memory(length)?;
                let made = self.start(disk, console);
                self.memory = own;
                made
            }
            Call::Run(steps) => self.run(disk, console, steps),
            Call::RunIn(length) => {
                let own = self.swap_memory(length)?;
                let made = self.run(disk, console, 1);
                self.memory = own;
                made
            }
            Call::Feed(bytes) => self.feed(console, bytes),
            Call::Collect(length) => self.collect(console, length),
            Call::Tally(short) => {
                let sheet = in_full(self.heap, short)?;
                self.tally(disk, sheet.as_slice())
            }
            Call::TallyIn(length) => {
                let own = self.swap_memory(length)?;
                let made = self.tally(disk, b"");
                self.memory = own;
                made
            }
            Call::TallyLines(count) => {
                let sheet = b"E\tHALT\t1\n".repeat(self.heap, count)?;
                self.tally(disk, sheet.as_slice())
            }
        }
    }

    // Makes calls one after another, and parts what they answer by commas.
    pub fn make_all<D: Writable, C: Console>(
        mut self,
        disk: &mut D,
        console: &mut C,
        calls: &[Call],
    ) -> anyhow::Result<String> {
        for (i, call) in calls.iter().enumerate() {
            if i > 0 {
                self.said.push_str(", ")?;
            }
            self.make(disk, console, *call)?;
        }
        Ok(self.said)
    }
}
