// A hall's day from lines of calls: each is answered by a line.
#![tactic(auto)]

mod call;
mod desk;
mod devices;
mod hall;
mod lines;
mod say;

use console::{Console, Keyboard, Script};
use devices::{ConsoleKind, DiskKind, named_console, named_disk};
use disk::{Image, ReadOnlyImage, Writable};
use hall::Hall;
use lines::Lines;
use overlay::Overlay;
use std::io;
use std::io::{BufRead, BufReader};

// Serves the calls, and voids a sitting that is left open, whatever happened.
fn serve<D: Writable, C: Console>(
    rt: &HostRuntime,
    lines: &mut Lines,
    disk: &mut D,
    console: &mut C,
) -> io::Result<()> {
    println!(rt; "ok")?;
    let mut hall = Hall::new(rt);
    let served = hall.serve(rt, lines, disk, console);
    hall.close(rt)?;
    served
}

// The line that names the console, and then the calls.
fn with_disk<D: Writable>(rt: &HostRuntime, lines: &mut Lines, disk: &mut D) -> io::Result<()> {
    println!(rt; "ok")?;
    match named_console(rt, lines)? {
        Some(ConsoleKind::Keyboard) => {
            let mut console = Keyboard::new(rt.alloc())?;
            serve(rt, lines, disk, &mut console)
        }
        Some(ConsoleKind::Script(text)) => {
            let mut paper = [0u8; 4096];
            let mut console = Script::new(text.as_slice(), &mut paper);
            serve(rt, lines, disk, &mut console)
        }
        None => Ok(()),
    }
}

fn main(rt: HostRuntime) -> io::Result<()> {
    let mut lines = BufReader::new(rt.alloc(), rt.stdin())?.split(rt.alloc(), b'\n');
    match named_disk(&rt, &mut lines)? {
        Some((DiskKind::Image, mut bytes)) => {
            let mut disk = Image::new(bytes.as_mut_slice());
            with_disk(&rt, &mut lines, &mut disk)
        }
        Some((DiskKind::Overlay, bytes)) => {
            let mut disk = Overlay::new(ReadOnlyImage::new(bytes.as_slice()));
            with_disk(&rt, &mut lines, &mut disk)
        }
        None => Ok(()),
    }
}
