// The words on a disk: started, run, collected and tallied.
use crate::folder::{HandIn, say_unread};
use crate::words::say_fault;
use console::{Console, Script};
use disk::{ReadOnlyImage, Readable, Writable};
use overlay::Overlay;
use sitting::token::Sitting;
use station::answer::{Answer, TallyRefusal};
use station::unit::Station;
use std::io::{ErrorKind, Write};
use std::{fs, io};
use text::lines::count_newlines;

fn say_run(rt: &HostRuntime, printed: &[u8], answer: Answer) -> io::Result<()> {
    println!(rt; "printed: bytes {}", printed.len())?;
    if !printed.is_empty() {
        rt.stdout().write_all(printed)?;
        if printed.last() != Some(&b'\n') {
            println!(rt; "")?;
        }
    }
    println!(rt; "ran: instructions {}, {}", answer.count, answer.stop)
}

fn say_untallied(rt: &HostRuntime, refusal: TallyRefusal) -> io::Result<()> {
    let number = refusal.number();
    match refusal {
        TallyRefusal::Form(fault) => say_fault(rt, "sheet.txt", number, fault),
        TallyRefusal::NotEnded => println!(rt;
            "refused {number}: the program has not ended, so there is nothing to mark"
        ),
        TallyRefusal::TooLong => println!(rt; "refused {number}: sheet.txt has over 65536 bytes"),
        _ => println!(rt; "refused {number}: the station can't be marked"),
    }
}

impl HandIn<'_> {
    // The sectors of disk.bin, if there is one.
    fn load_sectors(&self, rt: &HostRuntime) -> io::Result<Vec<u8>> {
        let path = self.path(rt, "disk.bin")?;
        match fs::read(rt, path.as_str()) {
            Ok(mut bytes) => {
                let size = bytes.len();
                let sectors = size / 512;
                println!(rt; "disk.bin: bytes {size}, sectors {sectors}")?;
                bytes.truncate(sectors * 512);
                Ok(bytes)
            }
            Err(e) => {
                if e.kind() != ErrorKind::NotFound {
                    say_unread(rt, "disk.bin", e)?;
                }
                Ok(Vec::new(rt.alloc()))
            }
        }
    }

    // The words at the start of a disk, over the sectors of disk.bin, with blank sectors where those end.
    fn lay_out(&self, rt: &HostRuntime, words: &[u8]) -> io::Result<Vec<u8>> {
        let mut bytes = self.load_sectors(rt)?;
        let needed = words.len().max(1).div_ceil(512).saturating_mul(512);
        bytes.resize(bytes.len().max(needed), 0)?;
        if words.len() <= bytes.len() {
            bytes.as_mut_slice()[..words.len()].copy_from_slice(words);
        }
        println!(rt;
            "disk: sectors {}, the words from its start on",
            bytes.len() / 512
        )?;
        Ok(bytes)
    }

    // The points by sheet.txt.
    fn tally<D: Readable>(
        &self,
        rt: &HostRuntime,
        station: &Station,
        memory: &[u8],
        disk: &D,
    ) -> io::Result<Option<u32>> {
        let Some(sheet) = self.read(rt, "sheet.txt")? else {
            return Ok(None);
        };
        match station.tally(memory, disk, sheet.as_slice()) {
            Ok(points) => {
                let lines = count_newlines(sheet.as_slice());
                println!(rt; "sheet.txt: lines {lines}, points {points}")?;
                Ok(Some(points))
            }
            Err(refusal) => {
                say_untallied(rt, refusal)?;
                Ok(None)
            }
        }
    }

    // Draws all that is left, runs, and gives back what was not executed.
    fn run<D: Writable, C: Console>(
        &self,
        rt: &HostRuntime,
        sitting: &mut Sitting,
        disk: &mut D,
        console: &mut C,
    ) -> io::Result<Option<u32>> {
        let mut memory = [0u8; 65536];
        let mut station = Station::new();
        if let Err(refusal) = station.start(&mut memory, disk, console) {
            println!(rt; "refused {}: the station does not start", refusal.number())?;
            return Ok(None);
        }
        let granted = sitting.left();
        let _ = sitting.draw(granted);
        match station.run(&mut memory, disk, console, granted) {
            Ok(answer) => {
                let _ = sitting.give_back(granted.saturating_sub(answer.count));
                let mut paper = [0u8; 4096];
                let came = station.collect(console, &mut paper);
                if let Some(printed) = paper.get(..came) {
                    say_run(rt, printed, answer)?;
                }
                self.tally(rt, &station, &memory, disk)
            }
            Err(refusal) => {
                println!(rt; "refused {}: the station does not run", refusal.number())?;
                Ok(None)
            }
        }
    }

    // Runs the words with the script as input, and marks what they leave.
    pub(crate) fn examine(
        &self,
        rt: &HostRuntime,
        sitting: &mut Sitting,
        words: &[u8],
    ) -> io::Result<Option<u32>> {
        let bytes = self.lay_out(rt, words)?;
        println!(rt; "input: bytes {}", self.script.len())?;
        let mut paper = [0u8; 4096];
        let mut disk = Overlay::new(ReadOnlyImage::new(bytes.as_slice()));
        let mut console = Script::new(self.script, &mut paper);
        self.run(rt, sitting, &mut disk, &mut console)
    }
}
