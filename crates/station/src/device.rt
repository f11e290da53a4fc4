// Steps: what an instruction asks, the disk and the console do. The registers are written last.
// What is lent stays parameters: a struct of several `&mut` would need a clause on each method that it still holds the same.
ghost use Rattle.std.specs.Prelude.{◌≡◌, ℕ, ◌+◌, ◌≤◌, length};
ghost use Rattle.processor.specs.Requests.{taking, printing, reading, writing};
ghost use Rattle.station.specs.Views.{AsksConsole, AsksDisk, Attempts};

use crate::attempt::{Executed, Obstacle};
use console::Console;
use disk::{Readable, Writable};
use processor::ending::Want;
use processor::outcome::Outcome;
use processor::registers::Registers;
use u5::operand::Register;

// The byte that the console gives goes to a register.
fn take<C: Console>(
    registers: &mut Registers,
    memory: &[u8],
    console: &mut C,
    a: Register,
) -> Result<Executed, Obstacle>
    ensures { AsksConsole C.Console (taking a) registers.old memory.now console.old result registers.new console.new }
{
    let Some(byte) = console.take() else {
        return Err(Obstacle::Lacking(Want::Input));
    };
    registers.advance();
    registers.set(a, u32::from(byte));
    Ok(Executed::Going)
}

// The console prints a byte.
fn print<C: Console>(
    registers: &mut Registers,
    memory: &[u8],
    console: &mut C,
    byte: u8,
) -> Result<Executed, Obstacle>
    ensures { AsksConsole C.Console (printing byte) registers.old memory.now console.old result registers.new console.new }
{
    console.put(byte)?;
    registers.advance();
    Ok(Executed::Going)
}

// A sector goes to the part of memory that starts at the address.
fn read<D: Writable>(
    registers: &mut Registers,
    memory: &mut [u8],
    disk: &D,
    at: usize,
    sector: u32,
) -> Result<Executed, Obstacle>
    requires { at + 512 ≤ length memory.old }
    ensures { AsksDisk D.Readable D.Writable.own (reading at sector) registers.old memory.old disk.now result registers.new memory.new disk.now }
{
    let (_, rest) = memory.split_at_mut(at);
    let Some(block) = rest.first_chunk_mut() else {
        unreachable!()
    };
    disk.read(sector, block)?;
    registers.advance();
    Ok(Executed::Going)
}

// The 512 bytes from the address on go to a sector.
fn write<D: Writable>(
    registers: &mut Registers,
    memory: &[u8],
    disk: &mut D,
    at: usize,
    sector: u32,
) -> Result<Executed, Obstacle>
    requires { at + 512 ≤ length memory.now }
    ensures { AsksDisk D.Readable D.Writable.own (writing at sector) registers.old memory.now disk.old result registers.new memory.now disk.new }
{
    let Some(block) = memory[at..].first_chunk() else {
        unreachable!()
    };
    disk.write(sector, *block)?;
    registers.advance();
    Ok(Executed::Going)
}

// Tries to execute the next instruction. Where that fails, nothing has changed.
pub(crate) fn step<D: Writable, C: Console>(
    registers: &mut Registers,
    memory: &mut [u8],
    disk: &mut D,
    console: &mut C,
) -> Result<Executed, Obstacle>
    ensures { Attempts D.Readable D.Writable.own C.Console registers.old memory.old disk.old console.old result registers.new memory.new disk.new console.new }
{
    match registers.step(memory)? {
        Outcome::Done => Ok(Executed::Going),
        Outcome::Halted => Ok(Executed::Halted),
        Outcome::Takes(a) => take(registers, memory, console, a),
        Outcome::Prints(byte) => print(registers, memory, console, byte),
        Outcome::Reads { at, sector } => read(registers, memory, disk, at, sector),
        Outcome::Writes { at, sector } => write(registers, memory, disk, at, sector),
    }
}
