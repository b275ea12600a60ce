//! A disk that is lent, through the bound, and the calls in the words of the layers above.
use dd_disk::{Disk, DiskFault, MemDisk, read_at, sync_all, write_gated};
use std::test::Fail;

fn write_and_read<D: Disk>(disk: &mut D, into: &mut [u8; 2]) -> Result<(), DiskFault> {
    if disk.size() < 8 {
        return Err(DiskFault);
    }
    disk.write(4, &[7, 8])?;
    disk.sync()?;
    disk.read(4, into)
}

#[test]
fn a_lent_disk_is_a_disk(rt: HostRuntime) -> Result<(), Fail> {
    let alloc = rt.alloc();
    let mut disk = MemDisk::new(vec![in alloc; 0u8; 64]?, Vec::new(alloc));
    let mut into = [0u8; 2];
    assert!(rt; write_and_read(&mut &mut disk, &mut into).is_ok());
    assert_eq!(rt; into, [7, 8]);
    assert!(rt; disk.moment() == 3);
    assert!(rt; disk.bytes().get(5) == Some(&8));
    Ok(())
}

#[test]
fn a_gate_is_written_last(rt: HostRuntime) -> Result<(), Fail> {
    let alloc = rt.alloc();
    let mut disk = MemDisk::new(vec![in alloc; 0u8; 8]?, Vec::new(alloc));
    assert!(rt; disk.size() == 8);
    assert!(rt; write_gated(&mut disk, 2, &[5, 6, 7]).is_ok());
    assert!(rt; disk.size() == 8);
    assert!(rt; disk.write(6, &[8]).is_ok());
    assert!(rt; sync_all(&mut disk).is_ok());
    let mut into = [0u8; 7];
    assert!(rt; disk.size() == 8);
    assert!(rt; read_at(&mut disk, 1, &mut into).is_ok());
    assert_eq!(rt; into, [0, 5, 6, 7, 0, 8, 0]);
    assert!(rt; disk.moment() == 7);
    Ok(())
}
