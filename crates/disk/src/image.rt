// A disk in lent bytes.
ghost use Rattle.std.specs.Prelude.{◌≡◌, true};
ghost use Rattle.disk.specs.Disks.{Writes};
ghost use Rattle.disk.specs.Cuts.{cut, imaged, Rewrites};
ghost use Rattle.disk.specs.WholeCuts.{cut_whole};

use crate::sectors::{sectors_of, write_sector};
use crate::{NoSuchSector, Readable, Writable, WriteRefusal};
use std::convert::AsSlice;

// The bytes are lent for as long as the disk stands.
#[derive(Drop)]
pub struct Lent<B> {
    bytes: B,
}

// A disk whose bytes are written in place. It keeps every sector from the start.
pub type Image<'a> = Lent<&'a mut [u8]>;

// A disk whose bytes are only read.
pub type ReadOnlyImage<'a> = Lent<&'a [u8]>;

impl<'a> Image<'a> {
    // It starts as the disk that the bytes are. The name says that the lender gets them back as the disk leaves them.
    pub fn new(bytes: &'a mut [u8]) -> Image<'a>
        ensures starts { imaged result.bytes.now ≡ imaged bytes.old }
        ensures same { result.bytes.now ≡ bytes.old }
        ensures lender { result.bytes.ghost_name ≡ bytes.entry.ghost_name }
    {
        Image { bytes }
    }
}

impl<'a> ReadOnlyImage<'a> {
    // Its sectors are those of the bytes.
    pub fn new(bytes: &'a [u8]) -> ReadOnlyImage<'a>
        ensures starts { cut result.bytes.now ≡ cut bytes.now }
        ensures same { result.bytes.now ≡ bytes.now }
    {
        ReadOnlyImage { bytes }
    }
}

impl<B: AsSlice<u8>> Readable for Lent<B> {
    ghost sectors = { λ d. cut (B.items d.bytes) };

    ghost whole = { λ d. cut_whole (B.items d.bytes) };

    fn count(&self) -> u32 {
        sectors_of(self.bytes.as_slice()).len() as u32
    }

    fn read(&self, sector: u32, block: &mut [u8; 512]) -> Result<(), NoSuchSector> {
        let sectors = sectors_of(self.bytes.as_slice());
        *block = *sectors.get(sector as usize).ok_or(NoSuchSector)?;
        Ok(())
    }
}

impl Writable for Image<'_> {
    ghost kept = { λ _ _. true };

    ghost keeps = { λ _. 0 };

    // What a write to any disk promises, and besides that no byte outside the sector is touched.
    fn write(&mut self, sector: u32, block: [u8; 512]) -> Result<(), WriteRefusal>
        ensures writes { Writes (imaged self.old.bytes.now) sector block result (imaged self.new.bytes.now) }
        ensures elsewhere { Rewrites self.old.bytes.now sector block result self.new.bytes.now }
        ensures lender { self.new.bytes.ghost_name ≡ self.old.bytes.ghost_name }
    {
        write_sector(self.bytes, sector, &block)
    }
}
