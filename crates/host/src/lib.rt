// What the programs share: the beginning of a file or of the standard input, in a buffer.
#![tactic(auto)]

ghost use Rattle.std.specs.Prelude.{◌≤◌, length, IfOk};

use std::fs::File;
use std::io;
use std::io::{ErrorKind, Read};

// Reads until the buffer is full or the input ends, and says how many bytes came.
pub fn fill<R: Read>(input: &mut R, buffer: &mut [u8]) -> io::Result<usize>
    ensures { IfOk result (λ n. n ≤ length buffer.new) }
{
    let size = buffer.len();
    let mut rest = buffer;
    while !rest.is_empty() {
        let more = input.read(rest)?;
        if more == 0 {
            break;
        }
        rest = &mut rest[more..];
    }
    Ok(size - rest.len())
}

// The beginning of a file, and how many bytes came: none where there is no such file.
pub fn load(rt: &HostRuntime, path: &str, buffer: &mut [u8]) -> io::Result<usize>
    ensures { IfOk result (λ n. n ≤ length buffer.new) }
{
    match File::open(rt, path) {
        Ok(mut file) => fill(&mut file, buffer),
        Err(e) if e.kind() == ErrorKind::NotFound => Ok(0),
        Err(e) => Err(e),
    }
}
