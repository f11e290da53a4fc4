// Sectors that lie one after another in bytes.
ghost use Rattle.std.specs.Prelude.{◌≡◌, length};
ghost use Rattle.disk.specs.Cuts.{cut, sector_count, Rewrites};

use crate::WriteRefusal;

// The whole sectors of the bytes, at most 65,536.
pub(crate) fn sectors_of(bytes: &[u8]) -> &[[u8; 512]]
    ensures sectors { result.now ≡ cut bytes.now }
    ensures count { length result.now ≡ sector_count bytes.now }
{
    let (whole, _) = bytes.as_chunks();
    &whole[..whole.len().min(65_536)]
}

// Copies the block over a sector of the bytes. The part is cut by its place, since `as_chunks_mut` says nothing of what the bytes end as.
pub(crate) fn write_sector(
    bytes: &mut [u8],
    sector: u32,
    block: &[u8; 512],
) -> Result<(), WriteRefusal>
    ensures { Rewrites bytes.old sector block.now result bytes.new }
{
    if sector as usize >= sectors_of(bytes).len() {
        return Err(WriteRefusal::NoSuchSector);
    }
    let at = sector as usize * 512;
    bytes[at..at + 512].copy_from_slice(block);
    Ok(())
}
