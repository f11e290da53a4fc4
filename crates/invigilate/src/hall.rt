// The station of a hall: each call is made and answered by a line.
use crate::call::{Call, read_call};
use crate::desk::Desk;
use crate::lines::{Lines, asks_nothing, load};
use crate::say::{say_refused, say_unknown, say_untallied};
use console::Console;
use disk::Writable;
use station::unit::Station;
use std::{fmt, io};
use u5::operand::Register;

// Bytes as hexadecimal digits, two each.
#[derive(Drop)]
struct Digits<'a>(&'a [u8]);

impl fmt::Display for Digits<'_> {
    fn fmt<W: fmt::Write>(&self, f: &mut fmt::Formatter<W>) -> fmt::Result {
        for byte in self.0 {
            write!(f, "{byte:02x}")?;
        }
        Ok(())
    }
}

// A station with its memory, and the sitting of who uses it.
pub(crate) struct Hall {
    station: Station,
    memory: Vec<u8>,
    desk: Desk,
}

impl Hall {
    pub(crate) fn new(rt: &HostRuntime) -> Hall {
        Hall {
            station: Station::new(),
            memory: Vec::new(rt.alloc()),
            desk: Desk::new(),
        }
    }

    fn renew_memory(&mut self, rt: &HostRuntime, size: u32) -> io::Result<()> {
        self.memory = vec![in rt.alloc(); 0u8; size as usize]?;
        println!(rt; "ok")
    }

    fn start<D: Writable, C: Console>(
        &mut self,
        rt: &HostRuntime,
        disk: &D,
        console: &C,
    ) -> io::Result<()> {
        let memory = self.memory.as_mut_slice();
        match self.station.start(memory, disk, console) {
            Ok(()) => println!(rt; "ok"),
            Err(refusal) => say_refused(rt, refusal.number()),
        }
    }

    fn run<D: Writable, C: Console>(
        &mut self,
        rt: &HostRuntime,
        disk: &mut D,
        console: &mut C,
        steps: u32,
    ) -> io::Result<()> {
        let memory = self.memory.as_mut_slice();
        match self.station.run(memory, disk, console, steps) {
            Ok(answer) => println!(rt; "{}\t{}", answer.count, answer.stop),
            Err(refusal) => say_refused(rt, refusal.number()),
        }
    }

    // The bytes are hexadecimal, two digits each; for what spells none no memory is asked.
    fn feed<C: Console>(&self, rt: &HostRuntime, console: &mut C, digits: &[u8]) -> io::Result<()> {
        if digits.len() % 2 != 0 || !digits.iter().all(u8::is_ascii_hexdigit) {
            return say_unknown(rt);
        }
        let mut bytes = vec![in rt.alloc(); 0u8; digits.len() / 2]?;
        match hex::decode_to_slice(digits, bytes.as_mut_slice()) {
            Ok(()) => println!(rt; "{}", self.station.feed(console, bytes.as_slice())),
            Err(_) => say_unknown(rt),
        }
    }

    // No more bytes come than are printed, so that a larger buffer would stay empty. Only the bytes ask for memory: their digits go straight to the line.
    fn collect<C: Console>(&self, rt: &HostRuntime, console: &mut C, room: u32) -> io::Result<()> {
        let size = console.printed().min(room as usize);
        let mut buffer = vec![in rt.alloc(); 0u8; size]?;
        let came = self.station.collect(console, buffer.as_mut_slice());
        println!(rt; "{came}\t{}", Digits(buffer.as_slice()))
    }

    fn tally<D: Writable>(&self, rt: &HostRuntime, disk: &D, file: &[u8]) -> io::Result<()> {
        let Some(sheet) = load(rt, file)? else {
            return Ok(());
        };
        let memory = self.memory.as_slice();
        match self.station.tally(memory, disk, sheet.as_slice()) {
            Ok(points) => println!(rt; "{points}"),
            Err(refusal) => say_untallied(rt, refusal),
        }
    }

    fn say_registers(&self, rt: &HostRuntime) -> io::Result<()> {
        for number in 0..64u8 {
            let value = self.station.register(Register { number });
            let before = if number > 0 { " " } else { "" };
            print!(rt; "{before}{value:08x}")?;
        }
        println!(rt; "")
    }

    fn open(&mut self, rt: &HostRuntime, candidate: u32, grant: u32) -> io::Result<()> {
        match u16::try_from(candidate) {
            Ok(number) => self.desk.open(rt, number, grant),
            Err(_) => say_unknown(rt),
        }
    }

    // Each call takes other parts of the hall, so that closures would be no plainer.
    fn answer<D: Writable, C: Console>(
        &mut self,
        rt: &HostRuntime,
        disk: &mut D,
        console: &mut C,
        call: Call,
    ) -> io::Result<()> {
        match call {
            Call::Memory(size) => self.renew_memory(rt, size),
            Call::Start => self.start(rt, disk, console),
            Call::Run(steps) => self.run(rt, disk, console, steps),
            Call::Feed(digits) => self.feed(rt, console, digits),
            Call::Collect(room) => self.collect(rt, console, room),
            Call::Tally(file) => self.tally(rt, disk, file),
            Call::Registers => self.say_registers(rt),
            Call::Open { candidate, grant } => self.open(rt, candidate, grant),
            Call::Draw(count) => self.desk.draw(rt, count),
            Call::GiveBack(count) => self.desk.give_back(rt, count),
            Call::Settle(points) => self.desk.settle(rt, points),
            Call::Void => self.desk.void(rt),
        }
    }

    // Answers line after line, until the input ends.
    pub(crate) fn serve<D: Writable, C: Console>(
        &mut self,
        rt: &HostRuntime,
        lines: &mut Lines,
        disk: &mut D,
        console: &mut C,
    ) -> io::Result<()> {
        for line in lines.by_ref() {
            let line = line?;
            if asks_nothing(line.as_slice()) {
                continue;
            }
            match read_call(line.as_slice()) {
                Ok(call) => self.answer(rt, disk, console, call)?,
                Err(_) => say_unknown(rt)?,
            }
        }
        Ok(())
    }

    pub(crate) fn close(self, rt: &HostRuntime) -> io::Result<()> {
        let Hall {
            station: _,
            memory: _,
            desk,
        } = self;
        desk.close(rt)
    }
}
