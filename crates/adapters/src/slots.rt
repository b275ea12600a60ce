//! Slots that are freed.
use container_log::{LogFault, Spot, free, read_segment, read_slot, seal};
use container_meta::{Fit, Kind, OpenContainer, Seg};
use dd_disk::{Disk, MemDisk};
use digests::Afresh;
use std::alloc::Global;
use std::test::Fail;

/// The size of a disk with two slots.
const SIZE: usize = 1_574_400;

/// The SHA-256 of `abc`, by FIPS 180-4.
static ABC: [u8; 32] = [
    0xba, 0x78, 0x16, 0xbf, 0x8f, 0x01, 0xcf, 0xea, 0x41, 0x41, 0x40, 0xde, 0x5d, 0xae, 0x22, 0x23,
    0xb0, 0x03, 0x61, 0xa3, 0x96, 0x17, 0x7a, 0x9c, 0xb4, 0x10, 0xff, 0x61, 0xf2, 0x00, 0x15, 0xad,
];

/// Seals a container of `abc` with the id 7 into slot 1, and gives the digest of its header.
fn seal_abc<D: Disk>(alloc: Global, disk: &mut D) -> Result<Result<[u8; 32], LogFault>, Fail> {
    let seg = Seg::leaf(alloc, b"abc")?;
    let mut container = OpenContainer::new(alloc, Kind::Leaf)?;
    if matches!(container.try_add(&seg), Fit::NoRoom) || container.is_empty() {
        return Err("the segment was not added".into());
    }
    let mut image = vec![in alloc; 9u8; 262_144]?;
    if disk.size() < SIZE as u64 {
        return Err("the disk is too small".into());
    }
    Ok(seal(disk, 1, 7, &container, &mut image))
}

/// The id in slot 1, or none of a free slot.
fn held<D: Disk>(alloc: Global, disk: &mut D) -> Result<Option<u64>, Fail> {
    if disk.size() < SIZE as u64 {
        return Err("the disk is too small".into());
    }
    let mut raw = vec![in alloc; 0u8; 49_664]?;
    let mut entries = Vec::with_capacity(alloc, 1_024)?;
    match read_slot(disk, 1, raw.as_mut_slice(), &mut entries) {
        Ok(header) => Ok(header.map(|header| header.id)),
        Err(_) => Err("the slot is damaged".into()),
    }
}

/// What the three bytes of `abc` in slot 1 are read as.
fn segment<D: Disk>(disk: &mut D, buf: &mut [u8; 5]) -> Result<Result<(), LogFault>, Fail> {
    if disk.size() < SIZE as u64 {
        return Err("the disk is too small".into());
    }
    let place = Spot {
        slot: 1,
        offset: 0,
        length: 3,
        digest: ABC,
    };
    Ok(read_segment(disk, &mut Afresh, &place, buf))
}

fn close<D: Disk>(disk: &mut D) -> Result<Result<(), LogFault>, Fail> {
    if disk.size() < SIZE as u64 {
        return Err("the disk is too small".into());
    }
    Ok(free(disk, 1))
}

#[test]
fn what_is_sealed_is_read_until_it_is_freed(rt: HostRuntime) -> Result<(), Fail> {
    let alloc = rt.alloc();
    let mut disk = MemDisk::new(vec![in alloc; 0u8; SIZE]?, Vec::new(alloc));
    assert_eq!(rt; held(alloc, &mut disk)?, None);
    assert!(rt; seal_abc(alloc, &mut disk)?.is_ok());
    assert_eq!(rt; held(alloc, &mut disk)?, Some(7));
    let mut buf = *b"-----";
    assert!(rt; segment(&mut disk, &mut buf)?.is_ok());
    assert_eq!(rt; buf, *b"abc--");
    assert!(rt; close(&mut disk)?.is_ok());
    assert_eq!(rt; held(alloc, &mut disk)?, None);
    assert!(rt; segment(&mut disk, &mut buf)?.is_ok());
    Ok(())
}

#[test]
fn a_call_that_fails_is_told(rt: HostRuntime) -> Result<(), Fail> {
    let alloc = rt.alloc();
    let fails = [1, 2].to_vec(alloc)?;
    let mut disk = MemDisk::new(vec![in alloc; 0u8; SIZE]?, fails);
    let mut buf = [0u8; 5];
    assert!(rt; matches!(segment(&mut disk, &mut buf)?, Err(LogFault::DiskRead)));
    assert!(rt; matches!(close(&mut disk)?, Err(LogFault::DiskWrite)));
    assert!(rt; disk.faults() == 2);
    Ok(())
}
