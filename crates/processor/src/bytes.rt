// Loads and stores: the bytes of memory, the most significant first.
ghost use Rattle.std.specs.Prelude.{◌≡◌, ℕ, ◌+◌, ◌≤◌, length};
ghost use Rattle.std.specs.List.{between};
ghost use Rattle.processor.specs.Widths.{size};
ghost use Rattle.processor.specs.Words.{number_of, last_bytes, overwritten};

use crate::width::Width;

// The number that the bytes of memory at an address are.
pub(crate) fn load(memory: &[u8], at: usize, width: Width) -> u32
    requires { at + size width ≤ length memory.now }
    ensures { result ≡ number_of (between at (at + size width) memory.now) }
{
    let width = width.size();
    let mut bytes = [0u8; 4];
    bytes[4 - width..].copy_from_slice(&memory[at..at + width]);
    u32::from_be_bytes(bytes)
}

// The last bytes of the value go to an address.
pub(crate) fn store(memory: &mut [u8], at: usize, width: Width, value: u32)
    requires { at + size width ≤ length memory.old }
    ensures { memory.new ≡ overwritten at (size width) (last_bytes (size width) value) memory.old }
{
    let width = width.size();
    let bytes = value.to_be_bytes();
    memory[at..at + width].copy_from_slice(&bytes[4 - width..]);
}
