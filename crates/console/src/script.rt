// A console for a machine that runs alone: a text waits, and what is printed goes to a lent buffer.
ghost use Rattle.std.specs.Prelude.{◌≡◌, ◌≤◌, length};
ghost use Rattle.console.specs.Kinds.{scripted, starting_scripted, scripted_kind};
ghost use Rattle.std.proofs.Common.{rules};

use crate::{Console, NoPaper, NoSlot};
use std::ops::Range;

// The printed bytes are a range of the lent paper, which has no heap behind it: before the range are bytes that were pulled.
#[derive(Drop)]
pub struct Script<'a> {
    waiting: &'a [u8],
    paper: &'a mut [u8],
    printed: Range<usize>,
    ghost order: { printed.start ≤ printed.«end» },
    ghost within: { printed.«end» ≤ length paper.now },
}

impl<'a> Script<'a> {
    // The whole text waits, and the whole buffer is paper.
    pub fn new(text: &'a [u8], paper: &'a mut [u8]) -> Script<'a>
        ensures starts { scripted result.waiting.now result.paper.now result.printed.start result.printed.«end» ≡ starting_scripted text.now (length paper.old) }
        ensures lender { result.paper.ghost_name ≡ paper.entry.ghost_name }
    {
        Script {
            waiting: text,
            paper,
            printed: 0..0,
        }
    }
}

impl Console for Script<'_> {
    const P: u8 = 0;

    const Q: u8 = 0;

    ghost kind = { scripted_kind };

    ghost meaning = { λ s. scripted s.waiting.now s.paper.now s.printed.start s.printed.«end» };

    ghost bound = { Prim.search rules };

    fn figures() -> (u8, u8)
        ensures { result ≡ (scripted_kind.slot_back, scripted_kind.paper_back) }
    {
        (Self::P, Self::Q)
    }

    fn take(&mut self) -> Option<u8> {
        let (&byte, rest) = self.waiting.split_first()?;
        self.waiting = rest;
        Some(byte)
    }

    fn put(&mut self, byte: u8) -> Result<(), NoPaper> {
        if self.printed.end == self.paper.len() {
            return Err(NoPaper);
        }
        self.paper[self.printed.end] = byte;
        self.printed.end += 1;
        Ok(())
    }

    // A script has no slots.
    fn offer(&mut self, _byte: u8) -> Result<(), NoSlot> {
        Err(NoSlot)
    }

    fn pull(&mut self) -> Option<u8> {
        let at = self.printed.next()?;
        Some(self.paper[at])
    }

    fn printed(&self) -> usize {
        self.printed.len()
    }
}
