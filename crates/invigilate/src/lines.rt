// Lines of standard input, and files that they name.
use std::alloc::Global;
use std::io::{BufReader, Split, Stdin};
use std::{fs, io};

// What is left of standard input, line by line.
pub(crate) type Lines = Split<BufReader<Stdin>, Global>;

// A line that is empty or a remark asks nothing.
pub(crate) fn asks_nothing(line: &[u8]) -> bool {
    matches!(line, [] | [b'#', ..])
}

// The bytes of a file; where it can't be read, a line says so.
pub(crate) fn load(rt: &HostRuntime, name: &[u8]) -> io::Result<Option<Vec<u8>>> {
    let Ok(path) = std::str::from_utf8(name) else {
        println!(rt; "a file's name is UTF-8")?;
        return Ok(None);
    };
    match fs::read(rt, path) {
        Ok(bytes) => Ok(Some(bytes)),
        Err(e) => {
            println!(rt; "{path} can't be read: {e}")?;
            Ok(None)
        }
    }
}
