// Functions over any disks, proved from their meaning alone, and tests of the images.
#![tactic(auto)]

ghost use Rattle.std.specs.Prelude.{◌≡◌, ◌+◌, ◌≤◌, length, IfOk};
ghost use Rattle.disk.specs.Disks.{disk};
ghost use Rattle.disk_tests.specs.Using.{Copies, Last, ReadsAt};

use disk::{NoSuchSector, Readable, Writable, WriteRefusal};

#[cfg(test)]
mod images;

// Copies a sector from one disk to another, whatever kinds they are.
pub fn copy_sector<A: Writable, B: Writable>(
    from: &A,
    to: &mut B,
    sector: u32,
) -> Result<(), WriteRefusal>
    ensures { Copies (A.Readable.sectors from.now) sector (disk B.Readable.sectors B.Writable.kept B.Writable.keeps to.old) result (disk B.Readable.sectors B.Writable.kept B.Writable.keeps to.new) }
{
    let mut block = [0; 512];
    from.read(sector, &mut block)
        .map_err(|_| WriteRefusal::NoSuchSector)?;
    to.write(sector, block)
}

// Reads a sector into the part of a buffer from a place on.
pub(crate) fn read_at<D: Readable>(
    disk: &D,
    buffer: &mut [u8],
    at: usize,
    sector: u32,
) -> Result<(), NoSuchSector>
    requires { at + 512 ≤ length buffer.old }
    ensures { ReadsAt (D.Readable.sectors disk.now) sector at buffer.old result buffer.new }
{
    let (_, rest) = buffer.split_at_mut(at);
    let Some(block) = rest.first_chunk_mut() else {
        unreachable!()
    };
    disk.read(sector, block)
}

// A read after a write gives the written bytes, on any writable disk.
pub fn write_and_read<D: Writable>(
    to: &mut D,
    sector: u32,
    block: [u8; 512],
) -> Result<[u8; 512], WriteRefusal>
    ensures { IfOk result (λ read. read ≡ block) }
{
    to.write(sector, block)?;
    let mut read = [0; 512];
    let Ok(()) = to.read(sector, &mut read) else {
        unreachable!()
    };
    Ok(read)
}

// The number of the last sector, on any disk: it fits 16 bits, since there are at most 65,536.
pub fn last_sector<D: Readable>(disk: &D) -> Option<u16>
    ensures { Last (D.Readable.sectors disk.now) result }
{
    disk.count().checked_sub(1).map(|last| last as u16)
}

// Writes as many sectors from the first on, each full of its number, and says whether all were done.
pub fn fill<D: Writable>(to: &mut D, sectors: u8) -> bool {
    (0..sectors).all(|s| to.write(u32::from(s), [s; 512]).is_ok())
}

// Whether a write finds no keep.
pub fn finds_no_keep<D: Writable>(to: &mut D, sector: u32) -> bool {
    to.write(sector, [1; 512]) == Err(WriteRefusal::NoKeep)
}

// The byte that stands first and last in a sector, where it is the same and the sector exists.
pub fn edges<D: Readable>(disk: &D, sector: u32) -> Option<u8> {
    let mut block = [0; 512];
    disk.read(sector, &mut block).ok()?;
    (block[0] == block[511]).then_some(block[0])
}
