//! The index in memory, as the trait has it.
ghost use Rattle.std.specs.Prelude.{◌≤◌, ℕ};
ghost use Rattle.segment_index.specs.Places.{HasKind, HasPlaces, IsPlace};

use dd_disk::{BlindDisk, Disk, MemDisk};
use segment_index::{Index, Key, MapIndex, Place};
use std::alloc::Global;
use std::process::Abort;
use std::test::Fail;

fn key(kind: u8) -> Key
    requires { kind ≤ 1 }
    ensures { HasKind result }
{
    let mut key = [5; 33];
    key[0] = kind;
    key
}

fn place(slot: u32) -> Place
    requires { slot ≤ 3 }
    ensures { IsPlace 2622976 result }
{
    Place {
        slot,
        offset: 7,
        length: 3,
        level: 0,
    }
}

/// The fields of a place that was looked up.
type Fields = (u32, u32, u32, u8);

/// No keys, on a disk of any size.
fn no_keys(alloc: Global) -> MapIndex
    ensures { (size : ℕ) → HasPlaces size result }
{
    MapIndex::new(alloc)
}

fn put<D: Disk>(index: &mut MapIndex, disk: &mut D, kind: u8, slot: u32) -> Result<(), Fail>
    requires kind { kind ≤ 1 }
    requires slot { slot ≤ 3 }
    requires serves { HasPlaces (D.view disk.old).size index.old }
    ensures serves { HasPlaces (D.view disk.new).size index.new }
{
    if disk.size() != 2_622_976 {
        return Err("the disk has another size".into());
    }
    match index.put(disk, &key(kind), place(slot)) {
        Ok(()) => Ok(()),
        Err(_) => Err("the key was not put".into()),
    }
}

fn remove<D: Disk>(index: &mut MapIndex, disk: &mut D, kind: u8) -> Result<(), Fail>
    requires kind { kind ≤ 1 }
    requires serves { HasPlaces (D.view disk.old).size index.old }
    ensures serves { HasPlaces (D.view disk.new).size index.new }
{
    match index.remove(disk, &key(kind)) {
        Ok(()) => Ok(()),
        Err(_) => Err("the key was not removed".into()),
    }
}

fn find<D: Disk>(index: &mut MapIndex, disk: &mut D, kind: u8) -> Result<Option<Fields>, Fail>
    requires kind { kind ≤ 1 }
    requires serves { HasPlaces (D.view disk.old).size index.old }
    ensures serves { HasPlaces (D.view disk.new).size index.new }
{
    match index.get(disk, &key(kind)) {
        Ok(Some(place)) => Ok(Some((place.slot, place.offset, place.length, place.level))),
        Ok(None) => Ok(None),
        Err(_) => Err("the key was not looked up".into()),
    }
}

/// Puts two keys, and removes one of them.
fn put_two<D: Disk>(rt: &(impl Abort + AllocGlobal), disk: &mut D) -> Result<(), Fail> {
    let mut index = no_keys(rt.alloc());
    put(&mut index, disk, 0, 2)?;
    put(&mut index, disk, 1, 1)?;
    assert_eq!(rt; find(&mut index, disk, 1)?, Some((1, 7, 3, 0)));
    assert_eq!(rt; find(&mut index, disk, 0)?, Some((2, 7, 3, 0)));
    remove(&mut index, disk, 1)?;
    assert_eq!(rt; find(&mut index, disk, 1)?, None);
    assert_eq!(rt; find(&mut index, disk, 0)?, Some((2, 7, 3, 0)));
    Ok(())
}

#[test]
fn an_index_keeps_what_is_put_until_it_is_removed(rt: HostRuntime) -> Result<(), Fail> {
    let alloc = rt.alloc();
    let image = vec![in alloc; 0u8; 2_622_976]?;
    put_two(&rt, &mut BlindDisk::new(image, Vec::new(alloc)))
}

#[test]
fn an_index_in_memory_calls_no_disk(rt: HostRuntime) -> Result<(), Fail> {
    let alloc = rt.alloc();
    // Its first calls fail.
    let fails = vec![in alloc; 1u64, 2, 3, 4]?;
    let mut disk = MemDisk::new(vec![in alloc; 0u8; 2_622_976]?, fails);
    put_two(&rt, &mut disk)?;
    assert!(rt; disk.faults() == 0 && disk.moment() == 0);
    Ok(())
}
