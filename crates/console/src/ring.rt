// A ring of bytes with a fixed number of places.
ghost use Rattle.std.specs.Prelude.{◌≡◌, ◌<◌, ◌≤◌, ◌↔◌, ℕ, List, [], ◌∷◌, ◌++◌, length, IfOk, IsOk, OnOk, OnErr, MatchOption};
ghost use Rattle.std.specs.VecDeque.{deque_len, deque_capacity};

use std::alloc::{AllocError, Global};
use std::collections::VecDeque;
use std::marker::Model;

// Every place holds a byte.
#[derive(Drop)]
pub(crate) struct Full;

// At most N bytes, the oldest first, in memory that is got once.
#[derive(Drop)]
pub(crate) struct Ring<const N: usize> {
    bytes: VecDeque<u8>,
}

impl<const N: usize> Model for Ring<N> {
    ghost Value = { List ℕ };

    ghost view = { λ r. r.bytes.items };

    ghost invariant = { λ r. (deque_len r.bytes ≤ N) × (N ≤ deque_capacity r.bytes) };
}

impl<const N: usize> Ring<N> {
    pub(crate) fn new(heap: Global) -> Result<Ring<N>, AllocError>
        ensures { IfOk result (λ ring. ring ≡ []) }
    {
        let bytes = VecDeque::with_capacity(heap, N)?;
        Ok(Ring { bytes })
    }

    pub(crate) fn len(&self) -> usize
        ensures { result ≡ length self.now }
    {
        self.bytes.len()
    }

    // The byte goes in behind the others, if there is a place for it.
    pub(crate) fn try_push(&mut self, byte: u8) -> Result<(), Full>
        ensures ok { OnOk result (self.new ≡ self.old ++ byte ∷ []) }
        ensures room { IsOk result ↔ (length self.old < N) }
        ensures err { OnErr result (self.new ≡ self.old) }
        ensures few { length self.old ≤ N }
    {
        if self.bytes.len() < N {
            self.bytes.push_back_reserved(byte);
            Ok(())
        } else {
            Err(Full)
        }
    }

    // The oldest byte goes out.
    pub(crate) fn pop(&mut self) -> Option<u8>
        ensures cases { MatchOption result ((self.old ≡ []) × (self.new ≡ [])) (λ byte. self.old ≡ byte ∷ self.new) }
        ensures few { length self.old ≤ N }
    {
        self.bytes.pop_front()
    }
}
