// One call of each kind, on the parts of memory, data and output that it names.
ghost use Rattle.std.specs.Prelude.{◌≡◌, ℕ, List};
ghost use Rattle.console.specs.Consoles.{Console as Meaning};
ghost use Rattle.disk.specs.Disks.{Disk};
ghost use Rattle.std.specs.List.{between};
ghost use Rattle.station.specs.Views.{disk_of};
ghost use Rattle.ffi.specs.Calls.{bench, Started, Ran, Fed, Collected, Tallied, Shows, Shown, ReadsOut, ReadOut};

use crate::call::{Call, Reply};
use crate::replies::counted;
use console::Console;
use disk::{Readable, Writable};
use station::unit::Station;
use u5::operand::Register;

// The part of bytes that a call names.
fn part(bytes: &[u8], call: Call) -> &[u8]
    ensures { result.now ≡ between call.from call.to bytes.now }
{
    &bytes[call.part(bytes.len())]
}

// Starts the station on the memory that the call names.
pub(crate) fn start<D: Readable, C: Console>(
    station: &mut Station,
    memory: &mut [u8],
    disk: &D,
    console: &C,
    call: Call,
) -> Reply
    ensures { (d : Disk) (output : List ℕ) → d.sectors ≡ D.Readable.sectors disk.now → Started call (bench station.old memory.old d (C.Console.meaning console.now) output) result (bench station.new memory.new d (C.Console.meaning console.now) output) }
{
    let end = call.named(memory.len());
    Reply::from(station.start(&mut memory[..end], disk, console))
}

// Runs the station on that memory for so many steps as the call's number says.
pub(crate) fn run<D: Writable, C: Console>(
    station: &mut Station,
    memory: &mut [u8],
    disk: &mut D,
    console: &mut C,
    call: Call,
) -> Reply
    ensures { (output : List ℕ) → Ran C.Console.kind call (bench station.old memory.old (disk_of D.Readable D.Writable.own disk.old) (C.Console.meaning console.old) output) result (bench station.new memory.new (disk_of D.Readable D.Writable.own disk.new) (C.Console.meaning console.new) output) }
{
    let end = call.named(memory.len());
    Reply::from(station.run(&mut memory[..end], disk, console, call.number))
}

// Feeds the part of the data that the call names.
pub(crate) fn feed<C: Console>(station: &Station, console: &mut C, data: &[u8], call: Call) -> Reply
    ensures { (memory : List ℕ) (d : Disk) (output : List ℕ) → Fed call «data».now (bench station.now memory d (C.Console.meaning console.old) output) result (bench station.now memory d (C.Console.meaning console.new) output) }
{
    counted(station.feed(console, part(data, call)))
}

// Collects into the part of the output that the call names.
pub(crate) fn collect<C: Console>(
    station: &Station,
    console: &mut C,
    out: &mut [u8],
    call: Call,
) -> Reply
    ensures { (memory : List ℕ) (d : Disk) → Collected C.Console.kind call (bench station.now memory d (C.Console.meaning console.old) out.old) result (bench station.now memory d (C.Console.meaning console.new) out.new) }
{
    let part = call.part(out.len());
    counted(station.collect(console, &mut out[part]))
}

// Tallies the station by the part of the data that the call names.
pub(crate) fn tally<D: Readable>(
    station: &Station,
    memory: &[u8],
    disk: &D,
    data: &[u8],
    call: Call,
) -> Reply
    ensures { (d : Disk) (k : Meaning) (output : List ℕ) → d.sectors ≡ D.Readable.sectors disk.now → Tallied call «data».now (bench station.now memory.now d k output) result (bench station.now memory.now d k output) }
{
    let end = call.named(memory.len());
    Reply::from(station.tally(&memory[..end], disk, part(data, call)))
}

// Shows the registers in the part of the output that the call names.
pub(crate) fn registers(station: &Station, out: &mut [u8], call: Call) -> Reply
    ensures { (memory : List ℕ) (d : Disk) (k : Meaning) → Shown call (bench station.now memory d k out.old) result (bench station.now memory d k out.new) }
{
    let part = call.part(out.len());
    counted(show(station, &mut out[part]))
}

// The registers, four bytes each, into a buffer that has just room for them.
fn show(station: &Station, out: &mut [u8]) -> usize
    ensures { Shows station.now.registers out.old result out.new }
{
    if out.len() != 256 {
        return 0;
    }
    // `as_chunks_mut` says nothing of what the bytes end as, so the places are counted here.
    for number in 0..64u8 {
        let bytes = station.register(Register { number }).to_be_bytes();
        let at = 4 * number as usize;
        out[at..at + 4].copy_from_slice(&bytes);
    }
    256
}

// Reads the sector of the call's number into the part of the output that the call names.
pub(crate) fn sector<D: Readable>(disk: &D, out: &mut [u8], call: Call) -> Reply
    ensures { (s : Station) (memory : List ℕ) (d : Disk) (k : Meaning) → d.sectors ≡ D.Readable.sectors disk.now → ReadOut call (bench s memory d k out.old) result (bench s memory d k out.new) }
{
    let part = call.part(out.len());
    counted(read_out(disk, call.number, &mut out[part]))
}

// A sector, into a buffer that has just room for it.
fn read_out<D: Readable>(disk: &D, sector: u32, out: &mut [u8]) -> usize
    ensures { ReadsOut (D.Readable.sectors disk.now) sector out.old result out.new }
{
    let Some(block) = out.as_mut_array() else {
        return 0;
    };
    match disk.read(sector, block) {
        Ok(()) => 512,
        Err(_) => 0,
    }
}
