// Tests of the overlay, over each kind of disk.
use disk::{Image, ReadOnlyImage, Readable, Writable, WriteRefusal};
use disk_tests::{copy_sector, edges, fill, finds_no_keep, write_and_read};
use overlay::Overlay;

#[test]
fn the_33rd_sector_finds_no_keep(rt: HostRuntime) {
    let bytes = [200; 17408];
    let mut disk = Overlay::new(ReadOnlyImage::new(&bytes));
    assert!(rt; fill(&mut disk, 32));
    assert!(rt; finds_no_keep(&mut disk, 32));
    assert!(rt; disk.write(5, [99; 512]).is_ok());
    assert_eq!(rt; edges(&disk, 5), Some(99));
    assert_eq!(rt; edges(&disk, 31), Some(31));
    assert_eq!(rt; edges(&disk, 32), Some(200));
}

#[test]
fn an_overlay_lies_over_an_overlay(rt: HostRuntime) {
    let bytes = [100; 1536];
    let mut lower = Overlay::new(ReadOnlyImage::new(&bytes));
    assert!(rt; fill(&mut lower, 2));
    let mut upper = Overlay::new(lower);
    assert!(rt; upper.write(1, [3; 512]).is_ok());
    assert_eq!(rt; edges(&upper, 0), Some(0));
    assert_eq!(rt; edges(&upper, 1), Some(3));
    assert_eq!(rt; edges(&upper, 2), Some(100));
}

#[test]
fn an_overlay_lies_over_an_overlay_of_an_image(rt: HostRuntime) {
    let mut bytes = [7; 1024];
    let mut upper = Overlay::new(Overlay::new(Image::new(&mut bytes)));
    assert_eq!(rt; upper.count(), 2);
    assert_eq!(rt; upper.write(1, [3; 512]), Ok(()));
    assert_eq!(rt; upper.write(2, [3; 512]), Err(WriteRefusal::NoSuchSector));
    assert_eq!(rt; edges(&upper, 0), Some(7));
    assert_eq!(rt; edges(&upper, 1), Some(3));
    assert_eq!(rt; edges(&upper, 2), None);
    assert!(rt; bytes[511] == 7 && bytes[512] == 7);
}

#[test]
fn an_image_below_is_never_written(rt: HostRuntime) {
    let mut bytes = [7; 512];
    let mut disk = Overlay::new(Image::new(&mut bytes));
    assert!(rt; fill(&mut disk, 1));
    assert_eq!(rt; edges(&disk, 0), Some(0));
    assert!(rt; bytes[0] == 7 && bytes[511] == 7);
}

#[test]
fn a_sector_goes_from_disk_to_disk(rt: HostRuntime) {
    let mut bytes = [1; 512];
    let other = [6; 512];
    let mut image = Image::new(&mut bytes);
    let mut layer = Overlay::new(ReadOnlyImage::new(&other));
    assert!(rt; copy_sector(&layer, &mut image, 0).is_ok());
    assert_eq!(rt; edges(&image, 0), Some(6));
    assert!(rt; write_and_read(&mut layer, 0, [5; 512]).is_ok());
}
