//! Containers that are compared with what is held, all of them before any place is put.
ghost use Rattle.std.specs.Prelude.{◌≡◌, ◌+◌, ◌≤◌, length, None, OnErr, OnOk, IfOk, IfErr};
ghost use Rattle.std.specs.List.{AllByRecursion};
ghost use Rattle.container_log.specs.Many.{HaveSegments, placed};
ghost use Rattle.container_meta.specs.declared.kind.Kind.TheVariants.{Leaf};
ghost use Rattle.dd_disk.specs.Ending.{ending, Reads};
ghost use Rattle.dd_disk.specs.Shows.{Shows};
ghost use Rattle.disk_format.specs.declared.numbers.TheConstants.{MOST_SEGMENT as LONGEST};
ghost use Rattle.store_state.specs.Comparing.{IsAllRefusal};
ghost use Rattle.store_state.specs.Refused.{blames};
ghost use Rattle.store_state.specs.Settled.{Steps};
ghost use Rattle.store_state.specs.Tables.{Runs};
ghost use Rattle.ingest_steps.specs.Offering.{AreCompared, FitIn, HasSlots, IsFirstUnlikeIn, WereCompared, in_free};
ghost use Rattle.ingest_steps.specs.Sealing.{IsSealRefusal, KeepsMap};
ghost use Rattle.ingest_steps.specs.SealingAll.{HasPlacesOfAll, HaveSealed, SealsPlaced};

use crate::comparing_seal::seal_compared;
use crate::sealing_all::seal_indexed_all;
use actor_parts::SegBuf;
use container_meta::{OpenContainer, Place};
use dd_disk::Disk;
use refusals::Refusal;
use segment_index::Index;
use std::alloc::Global;
use store_state::{Tables, compare_all};

/// Refuses containers where a copy of a segment's key is held that isn't the same, and gives the place of each copy, where there is
/// one: container by container, and entry by entry.
pub fn compare_each<D: Disk, X: Index>(
    alloc: Global,
    disk: &mut D,
    index: &mut X,
    filled: &[OpenContainer],
    buf: &mut [u8],
) -> Result<Vec<Vec<Option<Place>>>, Refusal>
    requires serves { X.serves index.old (D.view disk.old).size }
    requires room { LONGEST ≤ length buf.old }
    ensures fit { IfOk result (λ befores. FitIn (D.view disk.old).size (X.places index.old (D.view disk.old).content)
        (Shows (D.view disk.old) (D.view disk.new)) filled.now befores.items) }
    ensures many { IfOk result (λ befores. length befores.items ≡ length filled.now) }
    ensures map { X.places index.new (D.view disk.new).content ≡ X.places index.old (D.view disk.old).content }
    ensures reads { Reads (ending blames result) (D.view disk.old) (D.view disk.new) }
    ensures refused { IfErr result (IsAllRefusal (X.places index.old (D.view disk.old).content)
        (IsFirstUnlikeIn (D.view disk.old).size (X.places index.old (D.view disk.old).content) (Shows (D.view disk.old) (D.view disk.new))
        filled.now)) }
    ensures served { X.serves index.new (D.view disk.new).size }
{
    let mut befores = Vec::new(alloc);
    for i in 0..filled.len() {
        let before = compare_all(alloc, disk, index, &filled[i], buf)?;
        befores.push(before)?;
    }
    Ok(befores)
}

/// Compares containers with what is held, all of them, and then indexes them and writes them, to the slots that `slots_for`
/// answered: one of any kind, or several of data, these by two syncs. Answered is the greatest of their ids.
///
/// Refusals, container by container and entry by entry: `DiskRead`, `Corrupt`, `Clash`; then those of `seal_indexed_all`. `Damaged`
/// comes only where the index's map isn't known.
pub fn seal_some<D: Disk, X: Index>(
    alloc: Global,
    disk: &mut D,
    tables: &mut Tables,
    index: &mut X,
    slots: &[u32],
    filled: &[OpenContainer],
    buf: &mut SegBuf,
) -> Result<u64, Refusal>
    requires serves { X.serves index.old (D.view disk.old).size }
    requires state { Runs (D.view disk.old).size None tables.old }
    requires slots { (offered : _) × HasSlots tables.old offered slots.now }
    requires many { length filled.now ≡ length slots.now }
    requires there { HaveSegments filled.now }
    requires leaves { 2 ≤ length filled.now → AllByRecursion (λ c. c.kind ≡ Leaf) filled.now }
    ensures ok { IfOk result (λ id. (id ≡ tables.old.held.last_id + length filled.now)
        × HaveSealed tables.old (D.view disk.old).size (X.places index.old (D.view disk.old).content) filled.now tables.new
        × WereCompared (D.view disk.old).size (X.places index.old (D.view disk.old).content)
        (Shows (D.view disk.old) (D.view disk.new)) filled.now) }
    ensures map { OnOk result (HasPlacesOfAll (placed slots.now (tables.old.held.last_id + 1) filled.now) (X.places index.old)
        (X.places index.new) (D.view disk.old).content (D.view disk.new).content) }
    ensures refused { IfErr result (IsSealRefusal (X.places index.old (D.view disk.old).content)
        (AreCompared (D.view disk.old).size (X.places index.old (D.view disk.old).content) (Shows (D.view disk.old) (D.view disk.new))
        filled.now)) }
    ensures unchanged { OnErr result (tables.new ≡ tables.old) }
    ensures kept { IfErr result (KeepsMap (X.places index.old (D.view disk.old).content) (X.places index.new (D.view disk.new).content)) }
    ensures disk { Steps tables.old.slots (ending blames result) (D.view disk.old) (D.view disk.new) }
    ensures moves { SealsPlaced tables.old (X.places index.old (D.view disk.old).content)
        (in_free (tables.old.held.last_id + 1) filled.now) (ending blames result) (D.view disk.old) (D.view disk.new) }
    ensures served { X.serves index.new (D.view disk.new).size }
{
    if filled.len() == 1 {
        return seal_compared(alloc, disk, tables, index, slots[0], &filled[0], buf);
    }
    let befores = compare_each(alloc, disk, index, filled, buf.bytes_mut())?;
    seal_indexed_all(alloc, disk, tables, index, slots, filled, &befores)
}
