// A function over any console, proved from its meaning alone, and tests of each kind of console.
#![tactic(auto)]

ghost use Rattle.std.specs.Prelude.{◌≡◌, [], length};
ghost use Rattle.console_tests.specs.Draining.{Drained};

use console::Console;

#[cfg(test)]
mod keyboards;
#[cfg(test)]
mod scripts;

// Pulls every printed byte, on any console, and says how many there were.
pub fn drain<C: Console>(console: &mut C) -> usize
    ensures count { result ≡ length (C.Console.meaning console.old).printed }
    ensures empty { (C.Console.meaning console.new).printed ≡ [] }
    ensures drained { Drained C.Console.kind (C.Console.meaning console.old) result (C.Console.meaning console.new) }
{
    let count = console.printed();
    for _i in 0..count {
        let _ = console.pull();
    }
    count
}

// How many of 0, 1, 2 and so on are accepted before one is not, of so many at most.
fn accepted<F: FnMut(u8) -> bool>(most: u16, mut accepts: F) -> u16
    requires { (f : _) (byte : _) → F.pre f byte }
{
    (0..most)
        .find(|n| !accepts((n % 256) as u8))
        .unwrap_or(most)
}

// Offers 0, 1, 2 and so on until there is no slot, and says how many went: at most 1,000.
pub fn offer_all<C: Console>(console: &mut C) -> u16 {
    accepted(1000, |byte| console.offer(byte).is_ok())
}

// Prints 0, 1, 2 and so on until there is no paper, and says how many went: at most 10,000.
pub fn put_all<C: Console>(console: &mut C) -> u16 {
    accepted(10_000, |byte| console.put(byte).is_ok())
}

// Whether the next bytes to take are those from one number on, up to before another.
pub fn takes<C: Console>(console: &mut C, from: u16, to: u16) -> bool {
    (from..to).all(|n| console.take() == Some((n % 256) as u8))
}
