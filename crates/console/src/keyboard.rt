// A console for someone who types: bytes come in and go out while it stands.
ghost use Rattle.std.specs.Prelude.{◌≡◌, ◌≤◌, length, IfOk};
ghost use Rattle.console.specs.Kinds.{typed, starting_typed, typed_kind};
ghost use Rattle.std.proofs.Common.{rules};

use crate::ring::Ring;
use crate::{Console, NoPaper, NoSlot};
use std::alloc::{AllocError, Global};

// How many bytes can wait.
const SLOTS: usize = 256;

// How many printed bytes there is paper for.
const PAPER: usize = 4096;

// The bytes that wait, and those that are printed.
#[derive(Drop)]
pub struct Keyboard {
    waiting: Ring<SLOTS>,
    printed: Ring<PAPER>,
    ghost few_waiting: { length waiting ≤ 256 },
    ghost few_printed: { length printed ≤ 4096 },
}

impl Keyboard {
    // All memory is got here, so that no later call can fail for want of it.
    pub fn new(heap: Global) -> Result<Keyboard, AllocError>
        ensures { IfOk result (λ k. typed k.waiting k.printed ≡ starting_typed) }
    {
        Ok(Keyboard {
            waiting: Ring::new(heap)?,
            printed: Ring::new(heap)?,
        })
    }
}

impl Console for Keyboard {
    const P: u8 = 1;

    const Q: u8 = 1;

    ghost kind = { typed_kind };

    ghost meaning = { λ k. typed k.waiting k.printed };

    ghost bound = { Prim.search rules };

    fn figures() -> (u8, u8) {
        (Self::P, Self::Q)
    }

    fn take(&mut self) -> Option<u8> {
        self.waiting.pop()
    }

    fn put(&mut self, byte: u8) -> Result<(), NoPaper> {
        self.printed.try_push(byte).map_err(|_| NoPaper)
    }

    fn offer(&mut self, byte: u8) -> Result<(), NoSlot> {
        self.waiting.try_push(byte).map_err(|_| NoSlot)
    }

    fn pull(&mut self) -> Option<u8> {
        self.printed.pop()
    }

    fn printed(&self) -> usize {
        self.printed.len()
    }
}
