//! Which entries of a container are live, and the copies that the index has.
ghost use Rattle.std.specs.Prelude.{◌≡◌, ◌↔◌, ◌+◌, ◌<◌, ◌≤◌, ◌^◌, [], ◌∷◌, ◌++◌, ℕ, List, None, Some, Ok, Err, true, false, length, IsTrue, IfOk, IfErr, OnOk};
ghost use Rattle.container_meta.specs.Spelling.{bytes_of};
ghost use Rattle.dd_disk.specs.Ending.{ending, Reads};
ghost use Rattle.disk_format.specs.Layout.{size_of, slot_at};
ghost use Rattle.segment_index.specs.Changes.{Changes};
ghost use Rattle.segment_index.specs.Places.{KnownMap, IsPlace};
ghost use Rattle.store_model.specs.Slots.{place_of};
ghost use Rattle.store_state.specs.Indexing.{Stays};
ghost use Rattle.store_state.specs.Refused.{blames};
ghost use Rattle.copy_forward.specs.Entries.{is_place, is_copy as is_copy_in, without_keys, IsLiveCopy, SumsLive};
ghost use Rattle.copy_forward.specs.Entries.{IsLookUpRefusal, IsRemoveRefusal};

use container_meta::{Entry, Key, Kind, Place, key_of};
use dd_disk::Disk;
use gc_enumerate::Live;
use refusals::Refusal;
use segment_index::Index;
use store_state::{find, remove_key};

/// Whether two places are one.
pub fn same_place(a: &Place, b: &Place) -> bool
    ensures { result ≡ is_place a.now b.now }
{
    a.slot == b.slot && a.offset == b.offset && a.length == b.length && a.level == b.level
}

/// Where an entry's segment lies.
pub(crate) fn place_in(slot: u32, entry: &Entry) -> Place
    ensures { result ≡ place_of slot entry.now }
{
    Place {
        slot,
        offset: entry.offset,
        length: entry.length,
        level: entry.level,
    }
}

/// Whether the index has an entry's segment as the copy of its key.
pub(crate) fn is_copy<D: Disk, X: Index>(
    disk: &mut D,
    index: &mut X,
    slot: u32,
    kind: Kind,
    entry: &Entry,
) -> Result<bool, Refusal>
    requires { X.serves index.old (D.view disk.old).size }
    ensures copy { IfOk result (λ yes. KnownMap (X.places index.old (D.view disk.old).content)
        (λ m. yes ≡ is_copy_in m kind slot entry.now)) }
    ensures place { result ≡ Ok true → IsPlace (D.view disk.old).size (place_of slot entry.now) }
    ensures map { X.places index.new (D.view disk.new).content ≡ X.places index.old (D.view disk.old).content }
    ensures refused { IfErr result (IsLookUpRefusal (X.places index.old (D.view disk.old).content)) }
    ensures reads { Reads (ending blames result) (D.view disk.old) (D.view disk.new) }
    ensures served { X.serves index.new (D.view disk.new).size }
{
    match find(disk, index, &key_of(kind, &entry.digest))? {
        Some(found) => Ok(same_place(&found, &place_in(slot, entry))),
        None => Ok(false),
    }
}

// Whether it is live, too.
fn is_live_copy<D: Disk, X: Index>(
    disk: &mut D,
    index: &mut X,
    live: &Live,
    slot: u32,
    kind: Kind,
    entry: &Entry,
) -> Result<bool, Refusal>
    requires { X.serves index.old (D.view disk.old).size }
    ensures live { IfOk result (λ yes. KnownMap (X.places index.old (D.view disk.old).content)
        (λ m. IsTrue yes ↔ IsLiveCopy m live.now kind slot entry.now)) }
    ensures map { X.places index.new (D.view disk.new).content ≡ X.places index.old (D.view disk.old).content }
    ensures refused { IfErr result (IsLookUpRefusal (X.places index.old (D.view disk.old).content)) }
    ensures reads { Reads (ending blames result) (D.view disk.old) (D.view disk.new) }
    ensures served { X.serves index.new (D.view disk.new).size }
{
    let copy = is_copy(disk, index, slot, kind, entry)?;
    Ok(copy && live.is_live(&key_of(kind, &entry.digest), &place_in(slot, entry)))
}

/// How many bytes of a container are those of entries that are live, and the copies that the index has.
pub fn live_bytes<D: Disk, X: Index>(
    disk: &mut D,
    index: &mut X,
    live: &Live,
    slot: u32,
    kind: Kind,
    entries: &[Entry],
) -> Result<u32, Refusal>
    requires serves { X.serves index.old (D.view disk.old).size }
    requires bytes { bytes_of entries.now < 2 ^ 32 }
    ensures sum { IfOk result (λ sum. KnownMap (X.places index.old (D.view disk.old).content)
        (λ m. SumsLive m live.now kind slot entries.now sum)) }
    ensures most { IfOk result (λ sum. sum ≤ bytes_of entries.now) }
    ensures map { X.places index.new (D.view disk.new).content ≡ X.places index.old (D.view disk.old).content }
    ensures refused { IfErr result (IsLookUpRefusal (X.places index.old (D.view disk.old).content)) }
    ensures reads { Reads (ending blames result) (D.view disk.old) (D.view disk.new) }
    ensures served { X.serves index.new (D.view disk.new).size }
{
    let mut sum = 0;
    for entry in entries {
        if is_live_copy(disk, index, live, slot, kind, entry)? {
            sum += entry.length;
        }
    }
    Ok(sum)
}

/// Takes keys out of the index, the first of them first. It takes no memory. After `DiskWrite`, and after `Damaged`, some may
/// be out.
pub(crate) fn remove_keys<D: Disk, X: Index>(
    disk: &mut D,
    index: &mut X,
    keys: &[Key],
) -> Result<(), Refusal>
    requires serves { X.serves index.old (D.view disk.old).size }
    ensures ok { OnOk result (KnownMap (X.places index.old (D.view disk.old).content)
        (λ m. X.places index.new (D.view disk.new).content ≡ Some (without_keys keys.now m))) }
    ensures unknown { OnOk result (Stays (X.places index.old (D.view disk.old).content) (X.places index.new (D.view disk.new).content)) }
    ensures refused { IfErr result (IsRemoveRefusal (X.places index.old (D.view disk.old).content)) }
    ensures changes { (slots : ℕ) → (D.view disk.old).size ≡ size_of slots
        → Changes (slot_at slots) (ending blames result) (D.view disk.old) (D.view disk.new) }
    ensures served { X.serves index.new (D.view disk.new).size }
{
    for key in keys {
        remove_key(disk, index, key)?;
    }
    Ok(())
}
