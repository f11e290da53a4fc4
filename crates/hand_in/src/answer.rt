// The answer text: read, assembled, listed, and the listing assembled again.
use crate::folder::HandIn;
use crate::words::say_fault;
use assembler::assembler::{AssembleRefusal, assemble};
use assembler::lister::list;
use sitting::token::Sitting;
use std::io;
use text::lines::count_newlines;

// The most words that a text can spell, and the longest listing of them, in bytes: what fills such a buffer is lent it, and answers a count.
const WORDS: usize = 13312;

const LISTING: usize = 63232;

fn say_refused(rt: &HostRuntime, refusal: AssembleRefusal) -> io::Result<()> {
    let number = refusal.number();
    match refusal {
        AssembleRefusal::TooLong => println!(rt;
            "refused {number}: answer.txt has over 65536 bytes or over 3328 lines"
        ),
        AssembleRefusal::Form(fault) => say_fault(rt, "answer.txt", number, fault),
        AssembleRefusal::Room => println!(rt; "refused {number}: there is no room for the words"),
    }
}

// Lists the words, assembles the listing, and says whether the words are the same. It is not inlined, so that its buffers are off the stack before the program runs.
#[inline(never)]
fn read_back(rt: &HostRuntime, words: &[u8]) -> io::Result<()> {
    let mut listing = [0u8; LISTING];
    let size = match list(words, &mut listing) {
        Ok(size) => size,
        Err(refusal) => {
            return println!(rt; "refused {}: the words can't be listed", refusal.number());
        }
    };
    let text = &listing[..size];
    println!(rt; "listed: lines {}, bytes {size}", count_newlines(text))?;
    let mut again = [0u8; WORDS];
    match assemble(text, &mut again) {
        Ok(count) => {
            let same = if &again[..count] == words {
                "the same words"
            } else {
                "other words"
            };
            println!(rt; "assembled again: bytes {count}, {same}")
        }
        Err(refusal) => say_refused(rt, refusal),
    }
}

impl HandIn<'_> {
    fn mark_text(
        &self,
        rt: &HostRuntime,
        sitting: &mut Sitting,
        text: &[u8],
    ) -> io::Result<Option<u32>> {
        println!(rt;
            "answer.txt: bytes {}, lines {}",
            text.len(),
            count_newlines(text)
        )?;
        let mut words = [0u8; WORDS];
        match assemble(text, &mut words) {
            Ok(count) => {
                println!(rt; "assembled: words {}, bytes {count}", count / 4)?;
                read_back(rt, &words[..count])?;
                self.examine(rt, sitting, &words[..count])
            }
            Err(refusal) => {
                say_refused(rt, refusal)?;
                Ok(None)
            }
        }
    }

    // The points of the hand-in, or none where something was refused on the way.
    pub(crate) fn mark(&self, rt: &HostRuntime, sitting: &mut Sitting) -> io::Result<Option<u32>> {
        match self.read(rt, "answer.txt")? {
            Some(text) => self.mark_text(rt, sitting, text.as_slice()),
            None => Ok(None),
        }
    }
}
