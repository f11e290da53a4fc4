// Runs the program on a disk once, with standard input as its script.
#![tactic(auto)]

ghost use Rattle.std.specs.Prelude.{◌≤◌, length, IfOk};

use console::{Console, Script};
use disk::{ReadOnlyImage, Readable, Writable};
use host::{fill, load};
use overlay::Overlay;
use station::answer::Answer;
use station::unit::Station;
use std::io;
use std::io::Write;

// How many instructions the program is granted.
const STEPS: u32 = 1_000_000;

// The beginning of disk.bin; where there is none, nothing.
fn load_disk(rt: &HostRuntime, buffer: &mut [u8]) -> io::Result<usize>
    ensures { IfOk result (λ n. n ≤ length buffer.new) }
{
    match load(rt, "disk.bin", buffer) {
        Ok(size) => Ok(size),
        Err(e) => {
            eprintln!(rt; "disk.bin can't be read, and counts as an empty one: {e}")?;
            Ok(0)
        }
    }
}

fn say_refused(rt: &HostRuntime, number: u8) -> io::Result<()> {
    println!(rt; "refused\t{number}")
}

// The printed text, the count and the stop's name.
fn say<C: Console>(
    rt: &HostRuntime,
    station: &Station,
    console: &mut C,
    answer: Answer,
) -> io::Result<()> {
    let mut printed = [0u8; 4096];
    let came = station.collect(console, &mut printed);
    if let Some(text) = printed.get(..came) {
        rt.stdout().write_all(text)?;
    }
    println!(rt; "{}\t{}", answer.count, answer.stop)
}

fn examine<D: Writable, C: Console>(
    rt: &HostRuntime,
    disk: &mut D,
    console: &mut C,
) -> io::Result<()> {
    let mut memory = [0u8; 65536];
    let mut station = Station::new();
    if let Err(refusal) = station.start(&mut memory, disk, console) {
        return say_refused(rt, refusal.number());
    }
    match station.run(&mut memory, disk, console, STEPS) {
        Ok(answer) => say(rt, &station, console, answer),
        Err(refusal) => say_refused(rt, refusal.number()),
    }
}

fn main(rt: HostRuntime) -> io::Result<()> {
    let mut sectors = [0u8; 32768];
    let size = load_disk(&rt, &mut sectors)?;
    let mut typed = [0u8; 4096];
    let length = fill(&mut rt.stdin(), &mut typed)?;
    let mut paper = [0u8; 4096];
    let mut disk = Overlay::new(ReadOnlyImage::new(&sectors[..size]));
    let mut console = Script::new(&typed[..length], &mut paper);
    examine(&rt, &mut disk, &mut console)
}
