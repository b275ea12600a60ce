//! A container that is compared with what is held, and then sealed.
ghost use Rattle.std.specs.Prelude.{◌≡◌, ◌+◌, ◌≤◌, length, OnOk, OnErr, IfOk, IfErr};
ghost use Rattle.dd_disk.specs.Ending.{ending};
ghost use Rattle.dd_disk.specs.Shows.{Shows};
ghost use Rattle.store_state.specs.Refused.{blames};
ghost use Rattle.store_state.specs.Settled.{Steps};
ghost use Rattle.store_state.specs.Tables.{Runs};
ghost use Rattle.ingest_steps.specs.Sealing.{HasSlot, HasSealed, HasPlacesOf, WasCompared, IsCompared, SealsCompared, IsSealRefusal, KeepsMap};

use crate::sealing::seal_indexed;
use actor_parts::SegBuf;
use container_meta::OpenContainer;
use dd_disk::Disk;
use disk_format::SLOT_BYTES;
use refusals::Refusal;
use segment_index::Index;
use std::alloc::Global;
use store_state::{Tables, compare_all};

/// Compares each segment of a container with the copy of its key that is held, and then indexes and writes the container,
/// to a slot that `slot_for` answered.
///
/// Refusals, entry by entry: `DiskRead`, `Corrupt`, `Clash`; then those of `seal_indexed`. `Damaged` comes only where the
/// index's map isn't known.
pub fn seal_compared<D: Disk, X: Index>(
    alloc: Global,
    disk: &mut D,
    tables: &mut Tables,
    index: &mut X,
    slot: u32,
    filled: &OpenContainer,
    buf: &mut SegBuf,
) -> Result<u64, Refusal>
    requires serves { X.serves index.old (D.view disk.old).size }
    requires state { Runs (D.view disk.old).size None tables.old }
    requires slot { HasSlot tables.old slot }
    requires there { 1 ≤ length filled.now.segments }
    ensures ok { IfOk result (λ id. HasSealed tables.old (D.view disk.old).size (X.places index.old
        (D.view disk.old).content) slot filled.now tables.new id
        × WasCompared (D.view disk.old).size (X.places index.old (D.view disk.old).content)
        (Shows (D.view disk.old) (D.view disk.new)) filled.now) }
    ensures map { OnOk result (HasPlacesOf filled.now slot (X.places index.old) (X.places index.new)
        (D.view disk.old).content (D.view disk.new).content) }
    ensures refused { IfErr result (IsSealRefusal (X.places index.old (D.view disk.old).content)
        (IsCompared (D.view disk.old).size (X.places index.old (D.view disk.old).content) (Shows (D.view disk.old) (D.view disk.new))
        filled.now)) }
    ensures unchanged { OnErr result (tables.new ≡ tables.old) }
    ensures kept { IfErr result (KeepsMap (X.places index.old (D.view disk.old).content) (X.places index.new (D.view disk.new).content)) }
    ensures disk { Steps tables.old.slots (ending blames result) (D.view disk.old) (D.view disk.new) }
    ensures moves { SealsCompared tables.old (X.places index.old (D.view disk.old).content) (tables.old.held.last_id + 1) filled.now
        (ending blames result) (D.view disk.old) (D.view disk.new) }
    ensures served { X.serves index.new (D.view disk.new).size }
{
    let before = compare_all(alloc, disk, index, filled, buf.bytes_mut())?;
    let mut image = vec![in alloc; 0u8; SLOT_BYTES as usize]?;
    seal_indexed(
        disk,
        tables,
        index,
        slot,
        filled,
        &before,
        image.as_mut_slice(),
    )
}
