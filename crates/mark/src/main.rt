// Marks the hand-in in the working directory, with standard input as its input.
#![tactic(auto)]

use hand_in::hand_in;
use std::io::Read;
use std::{env, io};

// The candidate's number, which is the program's argument; 1 where there is none.
fn candidate(rt: &HostRuntime) -> io::Result<Option<u16>> {
    let Some(argument) = env::args(rt)?.nth(1) else {
        return Ok(Some(1));
    };
    match argument.as_str().parse::<u16>() {
        Ok(number) => Ok(Some(number)),
        Err(_) => {
            println!(rt; "a candidate has a number from 1 to 65535, and not {argument}")?;
            Ok(None)
        }
    }
}

fn main(rt: HostRuntime) -> io::Result<()> {
    let Some(candidate) = candidate(&rt)? else {
        return Ok(());
    };
    let mut script = Vec::new(rt.alloc());
    rt.stdin().read_to_end(&mut script)?;
    hand_in(&rt, ".", candidate, script.as_slice())
}
