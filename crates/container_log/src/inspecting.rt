//! The container slots of a disk, inspected: docs/FORMAT.md, 'Check'.
ghost use Rattle.std.specs.Prelude.{◌≡◌, ◌+◌, ◌-◌, ◌≤◌, List, ℕ, length, vec_capacity, suc, [], ◌++◌, OnOk, IfOk, IfErr};
ghost use Rattle.std.specs.Option.{option_to_list};
ghost use Rattle.base_model.specs.Bytes.{byte_at};
ghost use Rattle.sha2.specs.Sha256.{sha256};
ghost use Rattle.container_meta.specs.Reading.{ReachEnd, header_at};
ghost use Rattle.container_meta.specs.Spelling.{HeaderValue, IsHeader};
ghost use Rattle.dd_disk.specs.Ending.{ending, Reads};
ghost use Rattle.dd_disk.specs.Shows.{Shows};
ghost use Rattle.disk_format.specs.declared.numbers.TheConstants.{CONTAINER_GATE as OPEN_GATE, DATA_BYTES, MOST_ENTRIES, SLOT_BYTES};
ghost use Rattle.disk_format.specs.Layout.{slot_at, size_of, IsSlotCount};
ghost use Rattle.inspection.specs.Found.{nothing};
ghost use Rattle.inspection.specs.Handing.{blames, Reports, Stops, Finds, StopsAmong};
ghost use Rattle.inspection.specs.declared.halt.Halt.TheVariants.{Memory, DiskRead, Untaken};
ghost use Rattle.container_log.specs.Inspecting.{
  copy_bytes,
  copy_damage as damage_of_copy,
  copies_found,
  AreInSlot,
  is_used as is_used_among,
  id_damage as damage_of_id,
  header_damage as damage_of_header,
  ids_with,
  slot_found,
  ReadsSlot,
  slot_bytes,
  slots_found,
};

use crate::ahead::look_ahead;
use crate::reading::why_of;
use crate::slot::{copy_in, read_gate};
use container_meta::{Entry, MetaFault, decode_into};
use dd_disk::{Disk, DiskFault, read_at};
use dd_io::Sink;
use digests::{Ahead, TakesDigests};
use disk_format::{CONTAINER_GATE, MOST_ENTRIES, SLOT_BYTES, Why, slot_at};
use inspection::{Damage, Halt, SpellsDamage, Tally, add_cell, add_copy};
use std::alloc::Global;
use std::thread::Threads;

// ---- what stands in an open slot, by its bytes

// The damage of a copy.
fn copy_damage<H: TakesDigests>(
    digests: &mut H,
    slot: u32,
    entry: &Entry,
    bytes: &[u8],
) -> Option<Damage>
    requires length { length bytes.now ≡ SLOT_BYTES }
    requires within { entry.now.offset + entry.now.length ≤ DATA_BYTES }
    ensures { result ≡ damage_of_copy slot entry.now (sha256 (copy_bytes entry.now bytes.now)) }
{
    let got = digests.digest(copy_in(entry, bytes));
    if entry.digest == got {
        return None;
    }
    Some(Damage::Copy {
        slot,
        offset: entry.offset,
        length: entry.length,
        want: entry.digest,
        got,
    })
}

// Each copy that entries name is counted, and its damage handed on.
fn inspect_copies<K: Sink, S: SpellsDamage, H: TakesDigests>(
    digests: &mut H,
    sink: &mut K,
    tally: &mut Tally,
    slot: u32,
    entries: &[Entry],
    bytes: &[u8],
) -> Result<(), Halt>
    requires length { length bytes.now ≡ SLOT_BYTES }
    requires within { AreInSlot entries.now }
    ensures done { OnOk result (Reports S.line (copies_found slot entries.now bytes.now) (K.view sink.old) (K.view sink.new)
        tally.old tally.new) }
    ensures halt { IfErr result (λ halt. (halt ≡ Untaken)
        × Stops S.line (copies_found slot entries.now bytes.now) (K.view sink.old) (K.view sink.new) halt) }
{
    for entry in entries {
        add_copy::<K, S>(sink, tally, &copy_damage(digests, slot, entry, bytes))?;
    }
    Ok(())
}

fn is_used(ids: &[u64], id: u64) -> bool
    ensures { result ≡ is_used_among ids.now id }
{
    ids.iter().any(|used| *used == id)
}

// That a header before this one has its id.
fn id_damage(slot: u32, ids: &[u64], id: u64) -> Option<Damage>
    ensures { result ≡ damage_of_id slot ids.now id }
{
    if !is_used(ids, id) {
        return None;
    }
    Some(Damage::Cell {
        at: slot_at(slot),
        why: Why::Field { offset: 8, got: id },
    })
}

// How a header breaks the format by itself.
fn header_damage(slot: u32, header: &[u8], fault: MetaFault) -> Option<Damage>
    requires { ReachEnd header.now }
    ensures { result ≡ damage_of_header slot header.now fault }
{
    match why_of(header, fault) {
        Some(why) => Some(Damage::Cell {
            at: slot_at(slot),
            why,
        }),
        None => None,
    }
}

// The header of an open slot is counted, and its damage handed on; the copies of a right one come after it. The id of a right one
// is answered.
#[tactic(auto, unfolding(crate::specs::Inspecting::slot_found))]
fn inspect_bytes<K: Sink, S: SpellsDamage, H: TakesDigests>(
    digests: &mut H,
    sink: &mut K,
    tally: &mut Tally,
    slot: u32,
    ids: &[u64],
    bytes: &[u8],
    entries: &mut Vec<Entry>,
) -> Result<Option<u64>, Halt>
    requires length { length bytes.now ≡ SLOT_BYTES }
    requires room { MOST_ENTRIES ≤ vec_capacity entries.old }
    ensures id { IfOk result (λ id. ids_with ids.now (header_at bytes.now) ≡ ids.now ++ option_to_list id) }
    ensures done { OnOk result (Reports S.line (slot_found slot ids.now bytes.now) (K.view sink.old) (K.view sink.new)
        tally.old tally.new) }
    ensures halt { IfErr result (λ halt. (halt ≡ Untaken)
        × Stops S.line (slot_found slot ids.now bytes.now) (K.view sink.old) (K.view sink.new) halt) }
    ensures room { vec_capacity entries.old ≤ vec_capacity entries.new }
{
    match decode_into(bytes, entries) {
        Ok(right) => {
            add_cell::<K, S>(sink, tally, &id_damage(slot, ids, right.id))?;
            inspect_copies::<K, S, H>(digests, sink, tally, slot, entries, bytes)?;
            Ok(Some(right.id))
        }
        Err(fault) => {
            add_cell::<K, S>(sink, tally, &header_damage(slot, bytes, fault))?;
            Ok(None)
        }
    }
}

// ---- slots

// Fills a buffer with the gate of an open slot and the bytes after it, which it reads.
fn read_body<D: Disk>(disk: &mut D, slot: u32, bytes: &mut [u8]) -> Result<(), Halt>
    requires place { slot_at slot + SLOT_BYTES ≤ (D.view disk.old).size }
    requires length { length bytes.old ≡ SLOT_BYTES }
    ensures shown { OnOk result (Shows (D.view disk.old) (D.view disk.new) (λ image.
        byte_at (slot_at slot) image ≡ OPEN_GATE → slot_bytes slot image ≡ bytes.new)) }
    ensures length { length bytes.new ≡ SLOT_BYTES }
    ensures reads { Reads (ending blames result) (D.view disk.old) (D.view disk.new) }
    ensures halt { IfErr result (λ halt. halt ≡ DiskRead) }
{
    bytes[0] = CONTAINER_GATE;
    match read_at(disk, slot_at(slot) + 1, &mut bytes[1..]) {
        Ok(()) => Ok(()),
        Err(DiskFault) => Err(Halt::DiskRead),
    }
}

// Reads the gate of a slot and, where that is open, the bytes after it. It answers whether it is open.
fn read_slot_into<D: Disk>(disk: &mut D, slot: u32, bytes: &mut [u8]) -> Result<bool, Halt>
    requires place { slot_at slot + SLOT_BYTES ≤ (D.view disk.old).size }
    requires length { length bytes.old ≡ SLOT_BYTES }
    ensures shown { IfOk result (λ opened. Shows (D.view disk.old) (D.view disk.new) (ReadsSlot slot opened bytes.new)) }
    ensures length { length bytes.new ≡ SLOT_BYTES }
    ensures reads { Reads (ending blames result) (D.view disk.old) (D.view disk.new) }
    ensures halt { IfErr result (λ halt. halt ≡ DiskRead) }
{
    let gate = match read_gate(disk, slot) {
        Ok(gate) => gate,
        Err(_) => return Err(Halt::DiskRead),
    };
    if gate != CONTAINER_GATE {
        return Ok(false);
    }
    read_body(disk, slot, bytes)?;
    Ok(true)
}

// Puts the id of a right header behind those before it.
fn add_id(ids: &mut Vec<u64>, id: Option<u64>) -> Result<(), Halt>
    ensures added { OnOk result (ids.new.items ≡ ids.old.items ++ option_to_list id) }
    ensures halt { IfErr result (λ halt. halt ≡ Memory) }
{
    if let Some(id) = id {
        ids.push(id)?;
    }
    Ok(())
}

// One slot. The id of a right header is put behind those before it.
fn inspect_slot<D: Disk, K: Sink, S: SpellsDamage, H: TakesDigests>(
    disk: &mut D,
    digests: &mut H,
    sink: &mut K,
    tally: &mut Tally,
    slot: u32,
    ids: &mut Vec<u64>,
    bytes: &mut [u8],
    entries: &mut Vec<Entry>,
) -> Result<(), Halt>
    requires place { slot_at slot + SLOT_BYTES ≤ (D.view disk.old).size }
    requires length { length bytes.old ≡ SLOT_BYTES }
    requires room { MOST_ENTRIES ≤ vec_capacity entries.old }
    ensures found { OnOk result ((left : ℕ) → Finds S.line (slots_found (suc left) slot ids.old.items)
        (slots_found left (suc slot) ids.new.items)
        (D.view disk.old) (D.view disk.new) (K.view sink.old, tally.old) (K.view sink.new, tally.new)) }
    ensures stopped { IfErr result (λ halt. (left : ℕ) → StopsAmong S.line (slots_found (suc left) slot ids.old.items)
        (D.view disk.old) (D.view disk.new) (K.view sink.old) (K.view sink.new) halt) }
    ensures length { length bytes.new ≡ SLOT_BYTES }
    ensures room { vec_capacity entries.old ≤ vec_capacity entries.new }
    ensures reads { Reads (ending blames result) (D.view disk.old) (D.view disk.new) }
{
    if !read_slot_into(disk, slot, bytes)? {
        return Ok(());
    }
    let id = inspect_bytes::<K, S, H>(digests, sink, tally, slot, ids, bytes, entries)?;
    add_id(ids, id)
}

// Room for the bytes of a slot.
fn slot_buffer(alloc: Global) -> Result<Vec<u8>, Halt>
    ensures long { IfOk result (λ bytes. length bytes.items ≡ SLOT_BYTES) }
    ensures halt { IfErr result (λ halt. halt ≡ Memory) }
{
    let bytes = vec![in alloc; 0u8; SLOT_BYTES as usize]?;
    Ok(bytes)
}

// Room for the entries of a container.
fn entry_buffer(alloc: Global) -> Result<Vec<Entry>, Halt>
    ensures room { IfOk result (λ entries. MOST_ENTRIES ≤ vec_capacity entries) }
    ensures halt { IfErr result (λ halt. halt ≡ Memory) }
{
    let entries = Vec::with_capacity(alloc, MOST_ENTRIES)?;
    Ok(entries)
}

// The slots of a disk, from slot 0 on, each read into `bytes`.
fn inspect_each<D: Disk, K: Sink, S: SpellsDamage, R: Threads + Sync>(
    rt: &R,
    alloc: Global,
    disk: &mut D,
    sink: &mut K,
    tally: &mut Tally,
    slots: u32,
    bytes: &mut [u8],
    entries: &mut Vec<Entry>,
    mut ids: Vec<u64>,
) -> Result<(), Halt>
    requires count { IsSlotCount slots }
    requires size { (D.view disk.old).size ≡ size_of slots }
    requires length { length bytes.old ≡ SLOT_BYTES }
    requires room { MOST_ENTRIES ≤ vec_capacity entries.old }
    requires none { ids.items ≡ [] }
    ensures found { OnOk result (Finds S.line (slots_found slots 0 []) (λ image. nothing)
        (D.view disk.old) (D.view disk.new) (K.view sink.old, tally.old) (K.view sink.new, tally.new)) }
    ensures stopped { IfErr result (StopsAmong S.line (slots_found slots 0 [])
        (D.view disk.old) (D.view disk.new) (K.view sink.old) (K.view sink.new)) }
    ensures reads { Reads (ending blames result) (D.view disk.old) (D.view disk.new) }
{
    let mut ahead = Ahead::new(alloc);
    for slot in 0..slots {
        look_ahead(rt, alloc, &*disk, &mut ahead, slots, slot, bytes, entries);
        inspect_slot::<D, K, S, Ahead>(
            disk, &mut ahead, sink, tally, slot, &mut ids, bytes, entries,
        )?;
    }
    Ok(())
}

/// Inspects the slots of a disk, from slot 0 on: of each its gate and, where that is open, all bytes after it. A header that breaks the
/// format, or has the id of a right one before it, is damaged; and of a right one each copy whose bytes have another digest. With more
/// than one processor slots are read ahead, and several threads take the digests of their copies. It takes memory for one slot, for the
/// entries of one, and for the ids; and, where there is some, for the copies of the slots that are read ahead.
pub fn inspect_slots<D: Disk, K: Sink, S: SpellsDamage, R: Threads + Sync>(
    rt: &R,
    alloc: Global,
    disk: &mut D,
    sink: &mut K,
    tally: &mut Tally,
    slots: u32,
) -> Result<(), Halt>
    requires count { IsSlotCount slots }
    requires size { (D.view disk.old).size ≡ size_of slots }
    ensures found { OnOk result (Finds S.line (slots_found slots 0 []) (λ image. nothing)
        (D.view disk.old) (D.view disk.new) (K.view sink.old, tally.old) (K.view sink.new, tally.new)) }
    ensures stopped { IfErr result (StopsAmong S.line (slots_found slots 0 [])
        (D.view disk.old) (D.view disk.new) (K.view sink.old) (K.view sink.new)) }
    ensures reads { Reads (ending blames result) (D.view disk.old) (D.view disk.new) }
{
    let mut bytes = slot_buffer(alloc)?;
    let mut entries = entry_buffer(alloc)?;
    inspect_each::<D, K, S, R>(
        rt,
        alloc,
        disk,
        sink,
        tally,
        slots,
        bytes.as_mut_slice(),
        &mut entries,
        Vec::new(alloc),
    )
}
