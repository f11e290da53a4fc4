// The table of the sectors that an overlay keeps.
ghost use Rattle.std.specs.Prelude.{◌≡◌, ◌<◌, [], length, IfSome, MatchOption};
ghost use Rattle.std.specs.List.{All};
ghost use Rattle.overlay.specs.Entries.{keys, rewritten, Apart, IsSized, Finds, Has, Lacks, Keeps, StandsOnlyAt};

use crate::entry::Entry;
use arrayvec::ArrayVec;

// How many sectors an overlay can keep.
const KEEPS: usize = 32;

// The sector has no entry, and there is no room for one more.
#[derive(Drop)]
pub(crate) struct Full;

// The entries in use, which lie in the table itself. No sector stands twice.
#[derive(Drop)]
pub(crate) struct Table {
    entries: ArrayVec<Entry, KEEPS>,
    ghost apart: { Apart (keys entries.items) },
    ghost sized: { All IsSized entries.items },
}

impl Table {
    // A table with no entry.
    pub(crate) fn new() -> Table
        ensures { result.entries.items ≡ [] }
    {
        Table {
            entries: ArrayVec::new(),
        }
    }

    // Where the sector's entry stands. There is no other.
    #[tactic(auto, using(crate::proofs::Rules::found_only))]
    fn find(&self, sector: u32) -> Option<usize>
        ensures cases { Finds self.now.entries.items sector result }
        ensures only { IfSome result (λ i. StandsOnlyAt self.now.entries.items sector i) }
    {
        self.entries
            .as_slice()
            .iter()
            .position(|entry| entry.sector == sector)
    }

    // The sector's bytes, if the table has them.
    pub(crate) fn get(&self, sector: u32) -> Option<&[u8; 512]>
        ensures { MatchOption result (Lacks self.now.entries.items sector) (λ bytes. Has self.now.entries.items sector bytes.now) }
    {
        let i = self.find(sector)?;
        Some(&self.entries.as_slice()[i].bytes)
    }

    // New bytes for the sector that stands at a place.
    fn rewrite(&mut self, i: usize, block: [u8; 512])
        requires { i < length self.old.entries.items }
        ensures { self.new.entries.items ≡ rewritten self.old.entries.items i block }
    {
        self.entries.as_mut_slice()[i].bytes = block;
    }

    // The sector's bytes are these from now on, unless it has no entry and the table is full.
    pub(crate) fn put(&mut self, sector: u32, block: [u8; 512]) -> Result<(), Full>
        ensures { Keeps self.old.entries.items sector block result self.new.entries.items }
    {
        if let Some(i) = self.find(sector) {
            self.rewrite(i, block);
            return Ok(());
        }
        if self.entries.is_full() {
            return Err(Full);
        }
        self.entries.push(Entry {
            sector,
            bytes: block,
        });
        Ok(())
    }
}
