// What a console is: bytes that wait to be taken, and bytes that were printed and wait to be pulled.
#![tactic(auto)]

ghost use Rattle.std.specs.Prelude.{◌≡◌, ◌≤◌, length};
ghost use Rattle.console.specs.Consoles.{Console as Meaning, Kind, Takes, Puts, Offers, Pulls};

mod keyboard;
mod ring;
mod script;

pub use keyboard::Keyboard;
pub use script::Script;

// A printed byte finds no place on the paper.
#[derive(Clone, Copy, PartialEq, Eq, Debug)]
pub struct NoPaper;

// An offered byte finds no slot to wait in.
#[derive(Clone, Copy, PartialEq, Eq, Debug)]
pub struct NoSlot;

// A console as its user and its machine see it.
pub trait Console {
    // How many slots a taken byte gives back, 0 or 1.
    const P: u8;

    // How many paper places a pulled byte gives back, 0 or 1.
    const Q: u8;

    // The two constants for the clauses. A `ghost P` beside `const P` gets no proof yet for an impl with a lifetime, as Script's.
    ghost kind: { Kind };

    // What waits and is printed, and the room for more.
    ghost meaning: { Self → Meaning };

    // The two constants of this kind of console.
    fn figures() -> (u8, u8)
        ensures { result ≡ (kind.slot_back, kind.paper_back) };

    // The first byte that waits.
    fn take(&mut self) -> Option<u8>
        ensures { Takes kind (meaning self.old) result (meaning self.new) };

    // Prints a byte.
    fn put(&mut self, byte: u8) -> Result<(), NoPaper>
        ensures { Puts (meaning self.old) byte result (meaning self.new) };

    // Gives a byte to wait behind the others.
    fn offer(&mut self, byte: u8) -> Result<(), NoSlot>
        ensures { Offers (meaning self.old) byte result (meaning self.new) };

    // The first printed byte that was not pulled yet.
    fn pull(&mut self) -> Option<u8>
        ensures { Pulls kind (meaning self.old) result (meaning self.new) };

    // How many bytes are printed and not pulled yet.
    fn printed(&self) -> usize
        ensures { result ≡ length (meaning self.now).printed };

    // A law: each of the two is at most 1.
    ghost bound: { (kind.slot_back ≤ 1) × (kind.paper_back ≤ 1) };
}
