// The lines that name the disk and the console: any other line before them is not understood.
use crate::call::three_fields;
use crate::lines::{Lines, asks_nothing, load};
use crate::say::say_unknown;
use std::io;

// How a disk lies over the bytes of its file.
#[derive(Clone, Copy)]
pub(crate) enum DiskKind {
    Image,
    Overlay,
}

// What is typed: by someone while calls are made, or all of it before.
#[derive(Drop)]
pub(crate) enum ConsoleKind {
    Keyboard,
    Script(Vec<u8>),
}

// The disk that a line names, with the bytes of its file.
fn disk_of(rt: &HostRuntime, line: &[u8]) -> io::Result<Option<(DiskKind, Vec<u8>)>> {
    let (kind, file) = match three_fields(line) {
        Ok((b"disk", b"image", file)) => (DiskKind::Image, file),
        Ok((b"disk", b"overlay", file)) => (DiskKind::Overlay, file),
        _ => {
            say_unknown(rt)?;
            return Ok(None);
        }
    };
    Ok(load(rt, file)?.map(|bytes| (kind, bytes)))
}

// The console that a line names.
fn console_of(rt: &HostRuntime, line: &[u8]) -> io::Result<Option<ConsoleKind>> {
    match three_fields(line) {
        Ok((b"console", b"keyboard", b"")) => Ok(Some(ConsoleKind::Keyboard)),
        Ok((b"console", b"script", file)) => Ok(load(rt, file)?.map(ConsoleKind::Script)),
        _ => {
            say_unknown(rt)?;
            Ok(None)
        }
    }
}

// What the first line names that names something which can be had.
fn first_named<T: Drop, F: Fn(&HostRuntime, &[u8]) -> io::Result<Option<T>> + Drop>(
    rt: &HostRuntime,
    lines: &mut Lines,
    named_by: F,
) -> io::Result<Option<T>>
    requires { F.IsAlwaysCallable named_by }
{
    for line in lines.by_ref() {
        let line = line?;
        if asks_nothing(line.as_slice()) {
            continue;
        }
        if let Some(named) = named_by(rt, line.as_slice())? {
            return Ok(Some(named));
        }
    }
    Ok(None)
}

// The first disk that a line names and that can be read.
pub(crate) fn named_disk(
    rt: &HostRuntime,
    lines: &mut Lines,
) -> io::Result<Option<(DiskKind, Vec<u8>)>> {
    first_named(rt, lines, disk_of)
}

// The first console that a line names and that can be had.
pub(crate) fn named_console(
    rt: &HostRuntime,
    lines: &mut Lines,
) -> io::Result<Option<ConsoleKind>> {
    first_named(rt, lines, console_of)
}
