// One hand-in from beginning to end, each step printed.
#![tactic(auto)]

mod answer;
mod exam;
mod folder;
mod record;
mod words;

use folder::HandIn;
use sitting::calls::open;
use std::io;

// How many instructions a hand-in is granted.
const GRANT: u32 = 1_000_000;

// Marks the hand-in in a folder, with a script as its input, in a sitting of the candidate.
pub fn hand_in(rt: &HostRuntime, folder: &str, candidate: u16, script: &[u8]) -> io::Result<()> {
    match open(candidate, GRANT) {
        Ok(mut sitting) => {
            let marked = HandIn { folder, script }.mark(rt, &mut sitting);
            record::finish(rt, sitting, marked)
        }
        Err(refusal) => println!(rt;
            "refused {}: a candidate has a number from 1 to 65535",
            refusal.number()
        ),
    }
}
