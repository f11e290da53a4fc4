// Tests of the images.
use crate::{edges, last_sector, read_at};
use disk::{Image, NoSuchSector, ReadOnlyImage, ReadRefusal, Readable, Writable, WriteRefusal};
use std::test::Fail;

#[test]
fn less_than_a_sector_is_none(rt: HostRuntime) {
    let mut bytes = [7; 511];
    assert!(rt; ReadOnlyImage::new(&bytes).count() == 0);
    let mut disk = Image::new(&mut bytes);
    assert!(rt; disk.count() == 0);
    assert_eq!(rt; disk.write(0, [8; 512]), Err(WriteRefusal::NoSuchSector));
}

#[test]
fn a_sector_of_bytes_is_one(rt: HostRuntime) {
    let mut bytes = [7; 512];
    assert!(rt; ReadOnlyImage::new(&bytes).count() == 1);
    let mut disk = Image::new(&mut bytes);
    assert!(rt; disk.count() == 1 && disk.write(0, [8; 512]).is_ok());
    assert_eq!(rt; edges(&disk, 0), Some(8));
}

#[test]
fn what_is_past_the_last_sector_is_untouched(rt: HostRuntime) {
    let mut bytes = [7; 1023];
    let mut disk = Image::new(&mut bytes);
    assert!(rt; disk.count() == 1 && disk.write(0, [8; 512]).is_ok());
    assert_eq!(rt; disk.write(1, [9; 512]), Err(WriteRefusal::NoSuchSector));
    assert!(rt; bytes[511] == 8 && bytes[512] == 7 && bytes[1022] == 7);
}

#[test]
fn a_long_image_has_65536_sectors(rt: HostRuntime) -> Result<(), Fail> {
    let mut bytes = vec![in rt.alloc(); 7; 33_554_944]?;
    let mut disk = Image::new(&mut bytes);
    assert!(rt; disk.count() == 65536 && disk.write(65535, [8; 512]).is_ok());
    assert_eq!(rt;
        disk.write(65536, [9; 512]),
        Err(WriteRefusal::NoSuchSector)
    );
    assert!(rt; edges(&disk, 65535) == Some(8) && edges(&disk, 65534) == Some(7));
    assert!(rt; last_sector(&disk) == Some(65535));
    assert!(rt; bytes.get(33_554_432) == Some(&7));
    Ok(())
}

#[test]
fn a_part_of_memory_is_read_into(rt: HostRuntime) {
    let bytes = [9; 512];
    let disk = ReadOnlyImage::new(&bytes);
    let mut memory = [0; 1024];
    assert!(rt; disk.read_into(0, &mut memory[256..768]).is_ok());
    assert!(rt; memory[255] == 0 && memory[256] == 9 && memory[767] == 9 && memory[768] == 0);
}

#[test]
fn a_part_of_memory_is_borrowed_as_a_block(rt: HostRuntime) {
    let bytes = [9; 512];
    let disk = ReadOnlyImage::new(&bytes);
    let mut memory = [0; 1024];
    assert_eq!(rt; read_at(&disk, &mut memory, 256, 0), Ok(()));
    assert!(rt; memory[255] == 0 && memory[256] == 9 && memory[767] == 9 && memory[768] == 0);
}

#[test]
fn a_part_is_untouched_where_there_is_no_sector(rt: HostRuntime) {
    let bytes = [9; 512];
    let disk = ReadOnlyImage::new(&bytes);
    let mut memory = [7; 512];
    assert_eq!(rt; read_at(&disk, &mut memory, 0, 1), Err(NoSuchSector));
    assert!(rt; memory[0] == 7 && memory[511] == 7);
}

#[test]
fn only_a_part_of_one_sector_is_read_into(rt: HostRuntime) {
    let bytes = [9; 512];
    let disk = ReadOnlyImage::new(&bytes);
    let mut less = [0; 511];
    assert_eq!(rt;
        disk.read_into(0, &mut less),
        Err(ReadRefusal::NotOneSector)
    );
    assert_eq!(rt;
        disk.read_into(1, &mut less),
        Err(ReadRefusal::NoSuchSector)
    );
    assert!(rt; less[0] == 0);
    let mut one = [0; 512];
    assert!(rt; disk.read_into(0, &mut one).is_ok() && one[511] == 9);
}
