//! Records and deletes that are appended without a reading between them, and checkpoints without a record: no command does so.
ghost use Rattle.std.specs.Prelude.{◌≡◌, IsTrue};
ghost use Rattle.disk_format.specs.Cells.{IsChange};
ghost use Rattle.namespace.specs.Names.{change_value};

use dd_disk::{Disk, Fill, MemDisk};
use journal_cells::{CellFault, Journal, encode_record, scan};
use namespace::{Change, Names, Record, Root};
use sha2::{Digest, Sha256};
use std::alloc::Global;
use std::process::Abort;
use std::test::Fail;

/// The size in bytes of a disk of 4 slots.
const SIZE: usize = 2_622_976;

/// A store without records, whose half 0 counts.
fn bare(alloc: Global) -> Result<Vec<u8>, Fail> {
    let mut image = vec![in alloc; 0u8; SIZE]?;
    if image.len() < 1_024 {
        return Err("the image is too small".into());
    }
    image[512..520].copy_from_slice(b"\xb5DDFSSEL");
    // The generation and the form.
    image[527] = 1;
    image[531] = 1;
    let digest = Sha256::digest(&image[513..992]);
    image[992..1_024].copy_from_slice(&digest);
    Ok(image)
}

fn put(alloc: Global, name: &[u8], sequence: u64) -> Result<Record, Fail> {
    let root = Root {
        length: 2_000,
        level: 0,
        digest: [7; 32],
    };
    Ok(Record {
        sequence,
        name: name.to_vec(alloc)?,
        change: Change::Put(root),
    })
}

fn delete(alloc: Global, name: &[u8], sequence: u64) -> Result<Record, Fail> {
    Ok(Record {
        sequence,
        name: name.to_vec(alloc)?,
        change: Change::Delete,
    })
}

/// Whether a change is a delete, or a put of one segment.
fn is_plain(change: &Change) -> bool
    ensures { IsTrue result → IsChange (change_value change.now) }
{
    match change {
        Change::Put(root) => root.level == 0 && 1 <= root.length && root.length <= 16_384,
        Change::Delete => true,
    }
}

/// What a disk's journal is read as.
fn read<D: Disk>(alloc: Global, disk: &mut D) -> Result<(Journal, Names), Fail> {
    if disk.size() < SIZE as u64 {
        return Err("the disk is too small".into());
    }
    let Ok((journal, names, last)) = scan(alloc, disk) else {
        return Err("the journal was not read".into());
    };
    if journal.last() != last {
        return Err("the last sequence number is another".into());
    }
    Ok((journal, names))
}

/// Appends a record that the names take.
fn add<D: Disk>(
    alloc: Global,
    disk: &mut D,
    journal: &mut Journal,
    names: &Names,
    value: &Record,
) -> Result<Result<(), CellFault>, Fail> {
    if disk.size() < SIZE as u64 {
        return Err("the disk is too small".into());
    }
    if journal.count() >= 1_024 || journal.last() >= value.sequence {
        return Err("the record has no place".into());
    }
    let Ok(()) = names.check(value) else {
        return Err("the names refuse the record".into());
    };
    if !is_plain(&value.change) {
        return Err("the record has no spelling".into());
    }
    let cell = encode_record(alloc, value)?;
    Ok(journal.append(disk, value, &cell))
}

/// Appends a record to a disk's journal, and gives it to the names.
fn add_both<D: Disk>(
    alloc: Global,
    disk: &mut D,
    journal: &mut Journal,
    names: &mut Names,
    value: &Record,
) -> Result<(), Fail> {
    if add(alloc, disk, journal, names, value)?.is_err() {
        return Err("the record was not appended".into());
    }
    match names.apply(value) {
        Ok(()) => Ok(()),
        Err(_) => Err("the names refuse the record".into()),
    }
}

/// The root of a put.
fn root_of(change: &Change) -> Option<(u64, u8, [u8; 32])> {
    match change {
        Change::Put(root) => Some((root.length, root.level, root.digest)),
        Change::Delete => None,
    }
}

fn are_same(found: &[Record], wanted: &[Record]) -> bool {
    found.len() == wanted.len()
        && found.iter().zip(wanted).all(|(one, other)| {
            one.sequence == other.sequence
                && one.name == other.name
                && root_of(&one.change) == root_of(&other.change)
        })
}

/// Appends a record to a disk's journal, and reads it again: it is the same as the one in memory.
fn added(
    rt: &(impl Abort + AllocGlobal),
    disk: &mut MemDisk,
    value: &Record,
) -> Result<Journal, Fail> {
    let alloc = rt.alloc();
    let (mut journal, mut names) = read(alloc, disk)?;
    add_both(alloc, disk, &mut journal, &mut names, value)?;
    let (again, left) = read(alloc, disk)?;
    assert!(rt; journal == again);
    assert!(rt; are_same(&left.list(alloc)?, &names.list(alloc)?));
    Ok(again)
}

#[test]
fn what_is_appended_is_read_again(rt: HostRuntime) -> Result<(), Fail> {
    let alloc = rt.alloc();
    let mut disk = MemDisk::new(bare(alloc)?, Vec::new(alloc));
    let journal = added(&rt, &mut disk, &put(alloc, b"a", 1)?)?;
    assert_eq!(rt; (journal.count(), journal.last()), (1, 1));
    let journal = added(&rt, &mut disk, &put(alloc, b"b", 5)?)?;
    assert_eq!(rt; (journal.count(), journal.last()), (2, 5));
    let journal = added(&rt, &mut disk, &delete(alloc, b"a", 6)?)?;
    assert_eq!(rt; (journal.count(), journal.last()), (3, 6));
    let (_journal, names) = read(alloc, &mut disk)?;
    let wanted = [put(alloc, b"b", 5)?];
    assert!(rt; are_same(&names.list(alloc)?, &wanted));
    Ok(())
}

#[test]
fn two_records_are_appended_without_a_reading(rt: HostRuntime) -> Result<(), Fail> {
    let alloc = rt.alloc();
    let mut disk = MemDisk::new(bare(alloc)?, Vec::new(alloc));
    let (mut journal, mut names) = read(alloc, &mut disk)?;
    for (name, sequence) in [(b"a", 1u64), (b"b", 2)] {
        let value = put(alloc, name, sequence)?;
        add_both(alloc, &mut disk, &mut journal, &mut names, &value)?;
    }
    assert_eq!(rt; (journal.count(), journal.last()), (2, 2));
    let (again, left) = read(alloc, &mut disk)?;
    assert!(rt; journal == again);
    assert!(rt; are_same(&left.list(alloc)?, &names.list(alloc)?));
    Ok(())
}

/// The SHA-256 of the cell at a place.
fn cell_digest(disk: &MemDisk, at: usize) -> [u8; 32] {
    let rest = disk.bytes().get(at..).unwrap_or(b"");
    Sha256::digest(rest.get(..512).unwrap_or(b""))
}

// The digests of the cells are those of another program's.
#[test]
fn records_have_the_bytes_of_the_format(rt: HostRuntime) -> Result<(), Fail> {
    let alloc = rt.alloc();
    let mut disk = MemDisk::new(bare(alloc)?, Vec::new(alloc));
    let _journal = added(&rt, &mut disk, &put(alloc, b"notes.txt", 5)?)?;
    let _journal = added(&rt, &mut disk, &delete(alloc, b"notes.txt", 6)?)?;
    assert_eq!(rt;
        cell_digest(&disk, 1_536),
        [
            0x1f, 0xa2, 0x97, 0xde, 0xe3, 0xc9, 0x08, 0xbd, 0x0f, 0xa3, 0xd5, 0x09, 0x23, 0x3d,
            0x25, 0xcd, 0xa2, 0xa1, 0x5a, 0x99, 0xe0, 0x04, 0xf0, 0xb4, 0xf7, 0xca, 0x96, 0x2a,
            0x71, 0x8c, 0xc8, 0xbf,
        ]
    );
    assert_eq!(rt;
        cell_digest(&disk, 2_048),
        [
            0x72, 0x15, 0x73, 0x43, 0x27, 0x14, 0x00, 0x3a, 0xb8, 0x84, 0xb1, 0xb6, 0xad, 0xdd,
            0xfa, 0xbb, 0x1f, 0xcc, 0xcc, 0xb8, 0xef, 0xb6, 0xbb, 0xd2, 0xd5, 0x9f, 0x80, 0x76,
            0x44, 0xb7, 0x5a, 0x57,
        ]
    );
    Ok(())
}

#[test]
fn a_call_of_the_disk_that_fails_leaves_the_journal(rt: HostRuntime) -> Result<(), Fail> {
    let alloc = rt.alloc();
    let image = bare(alloc)?;
    let (before, names) = read(alloc, &mut MemDisk::new(image.clone()?, Vec::new(alloc)))?;
    let value = put(alloc, b"a", 1)?;
    for call in 1..5u64 {
        let mut disk = MemDisk::new(image.clone()?, vec![in alloc; call]?);
        let mut journal = before;
        let answer = add(alloc, &mut disk, &mut journal, &names, &value)?;
        assert!(rt; matches!(answer, Err(CellFault::DiskWrite)), "{}", call);
        assert!(rt; journal == before, "{}", call);
        // The gate is written by the third call.
        let (again, _names) = read(alloc, &mut disk)?;
        assert_eq!(rt; again.count() == 1, call > 2, "{}", call);
    }
    Ok(())
}

/// Makes a checkpoint of a disk's journal.
fn make_room<D: Disk>(
    alloc: Global,
    disk: &mut D,
    journal: &mut Journal,
    names: &Names,
) -> Result<Result<(), CellFault>, Fail> {
    if disk.size() < SIZE as u64 {
        return Err("the disk is too small".into());
    }
    match journal.prepare(alloc, names) {
        Ok(fresh) => Ok(journal.write_checkpoint(disk, &fresh)),
        Err(fault) => Ok(Err(fault)),
    }
}

/// A disk with two names, whose last sequence number is of a name that is gone.
fn few(alloc: Global) -> Result<MemDisk, Fail> {
    let mut disk = MemDisk::new(bare(alloc)?, Vec::new(alloc));
    let (mut journal, mut names) = read(alloc, &mut disk)?;
    let records = [
        put(alloc, b"b", 1)?,
        put(alloc, b"c", 3)?,
        put(alloc, b"a", 4)?,
        delete(alloc, b"b", 6)?,
    ];
    for value in &records {
        add_both(alloc, &mut disk, &mut journal, &mut names, value)?;
    }
    Ok(disk)
}

/// Makes a checkpoint of an image, which takes so many calls of the disk. A stop in each of them leaves the same names and the
/// same last sequence number.
fn stopped(
    rt: &(impl Abort + AllocGlobal),
    image: Vec<u8>,
    calls: u64,
    fills: &[Fill],
) -> Result<MemDisk, Fail> {
    let alloc = rt.alloc();
    let mut disk = MemDisk::new(image, Vec::new(alloc));
    let (mut journal, names) = read(alloc, &mut disk)?;
    let wanted = names.list(alloc)?;
    let before = disk.moment();
    assert!(rt; make_room(alloc, &mut disk, &mut journal, &names)?.is_ok());
    assert_eq!(rt; disk.moment().saturating_sub(before), calls);
    for call in 0..calls {
        for fill in fills {
            let stop = before.saturating_add(1).saturating_add(call);
            let image = disk.crash_image(alloc, stop, *fill)?;
            let (found, left) = read(alloc, &mut MemDisk::new(image, Vec::new(alloc)))?;
            assert_eq!(rt; found.last(), journal.last(), "{}", call);
            assert!(rt; are_same(&left.list(alloc)?, &wanted), "{}", call);
        }
    }
    Ok(disk)
}

// The second time the other selector is open, and its gate is closed first.
#[test]
fn a_stop_in_a_checkpoint_keeps_the_names(rt: HostRuntime) -> Result<(), Fail> {
    let alloc = rt.alloc();
    let fills = [Fill::Byte(0xA5), Fill::Byte(0xB5)];
    let image = few(alloc)?.bytes().to_vec(alloc)?;
    let disk = stopped(&rt, image, 7, &fills)?;
    let _disk = stopped(&rt, disk.bytes().to_vec(alloc)?, 9, &fills)?;
    Ok(())
}

// The other selector is closed then, over any bytes.
#[test]
fn a_stop_after_a_stop_keeps_the_names(rt: HostRuntime) -> Result<(), Fail> {
    let alloc = rt.alloc();
    let image = few(alloc)?.bytes().to_vec(alloc)?;
    let disk = stopped(&rt, image, 7, &[])?;
    let disk = stopped(&rt, disk.bytes().to_vec(alloc)?, 9, &[])?;
    // The last calls are the write of a selector's bytes 1 to 511, a sync, the write of its gate, a sync.
    let stop = disk.moment().saturating_sub(3).max(1);
    let image = disk.crash_image(alloc, stop, Fill::Byte(0xB5))?;
    assert!(rt; image.get(512..).unwrap_or(b"").starts_with(b"\x00\xB5"));
    let fills = [Fill::Old, Fill::New, Fill::Byte(0xA5), Fill::Byte(0xB5)];
    let _disk = stopped(&rt, image, 7, &fills)?;
    Ok(())
}
