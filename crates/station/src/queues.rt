// Bytes to the console and from it.
ghost use Rattle.std.specs.Prelude.{◌≡◌, ℕ, List};
ghost use Rattle.disk.specs.Disks.{Disk};
ghost use Rattle.station.specs.Views.{world};
ghost use Rattle.station.specs.Worlds.{Feeds, Collects};

use crate::unit::Station;
use console::Console;

impl Station {
    // Offers bytes to the console one after another until there is no slot, and answers how many went.
    pub fn feed<C: Console>(&self, console: &mut C, bytes: &[u8]) -> usize
        ensures { (memory : List ℕ) (d : Disk) → Feeds (world self.now memory d (C.Console.meaning console.old)) bytes.now result (world self.now memory d (C.Console.meaning console.new)) }
    {
        for (went, byte) in bytes.iter().enumerate() {
            let Ok(()) = console.offer(*byte) else {
                return went;
            };
        }
        bytes.len()
    }

    // Pulls bytes from the console into a buffer until one or the other runs out, and answers how many came.
    pub fn collect<C: Console>(&self, console: &mut C, buffer: &mut [u8]) -> usize
        ensures { (memory : List ℕ) (d : Disk) → Collects C.Console.kind (world self.now memory d (C.Console.meaning console.old)) buffer.old result (world self.now memory d (C.Console.meaning console.new)) buffer.new }
    {
        let room = buffer.len();
        for (came, place) in buffer.iter_mut().enumerate() {
            match console.pull() {
                Some(byte) => *place = byte,
                None => return came,
            }
        }
        room
    }
}
