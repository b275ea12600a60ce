//! Copies that are held, beside segments of their keys that are offered.
ghost use Rattle.std.specs.Prelude.{◌≡◌, ◌≢◌, ◌≤◌, ◌<◌, ℕ, length, take, get_or, Some, None, IsTrue, IsFalse, OnOk, IfOk, IfErr, IfSome};
ghost use Rattle.std.specs.FinMap as finite;
ghost use Rattle.std.specs.List.{AllByRecursion};
ghost use Rattle.container_meta.specs.Places.{PlaceMap};
ghost use Rattle.store_model.specs.Image.{Store};
ghost use Rattle.store_model.specs.Slots.{HasKey, IsPartialIndexOf};
ghost use Rattle.store_model.specs.Steps.{FitsHeld};
ghost use Rattle.sha2.specs.Sha256.{sha256};
ghost use Rattle.container_meta.specs.Segments.{segment_at};
ghost use Rattle.base_model.specs.Bytes.{key_of as key_in};
ghost use Rattle.container_meta.specs.Format.{kind_byte};
ghost use Rattle.dd_disk.specs.Ending.{ending, Reads};
ghost use Rattle.dd_disk.specs.Shows.{Shows};
ghost use Rattle.disk_format.specs.declared.numbers.TheConstants.{MOST_SEGMENT};
ghost use Rattle.container_meta.specs.declared.kind.Kind.TheVariants.{Tree};
ghost use Rattle.segment_index.specs.Places.{KnownMap, IsPlace};
ghost use Rattle.store_model.specs.Trees.{bytes_at};
ghost use Rattle.store_state.specs.Refused.{blames};
ghost use Rattle.store_state.specs.Comparing.{IsCopyRefusal, IsDifference, IsNodeRefusal, IsSameRefusal, IsClash, FitsBytes};
ghost use Rattle.store_state.specs.Comparing.{FitsHad, IsUnlike, IsOneRefusal, FitSoFar, IsFirstUnlike, IsAllRefusal};

use crate::indexing::find;
use container_log::{LogFault, Spot, read_segment};
use container_meta::{Kind, OpenContainer, Place, key_of};
use dd_disk::Disk;
use digests::{Afresh, TakesDigests};
use refusals::{Difference, Refusal};
use segment_index::Index;
use std::alloc::Global;

/// Reads the copy at a place into the first bytes of `buf`. Refused by `DiskRead`, or by `Corrupt` where the bytes that are read
/// have another digest.
pub fn read_copy<D: Disk, H: TakesDigests>(
    disk: &mut D,
    digests: &mut H,
    place: &Place,
    digest: &[u8; 32],
    buf: &mut [u8],
) -> Result<(), Refusal>
    requires place { IsPlace (D.view disk.old).size place.now }
    requires room { place.now.length ≤ length buf.old }
    ensures digest { OnOk result (sha256 (take place.now.length buf.new) ≡ digest.now) }
    ensures shown { OnOk result (Shows (D.view disk.old) (D.view disk.new)
        (λ image. bytes_at place.now image ≡ take place.now.length buf.new)) }
    ensures size { length buf.new ≡ length buf.old }
    ensures reads { Reads (ending blames result) (D.view disk.old) (D.view disk.new) }
    ensures refused { IfErr result (IsCopyRefusal (Shows (D.view disk.old) (D.view disk.new)) place.now digest.now) }
{
    let spot = Spot {
        slot: place.slot,
        offset: place.offset,
        length: place.length,
        digest: *digest,
    };
    match read_segment(disk, digests, &spot, buf) {
        Ok(()) => Ok(()),
        Err(
            LogFault::Corrupt {
                slot,
                offset,
                length,
                want,
                got,
            },
        ) => Err(Refusal::Corrupt {
            slot,
            offset,
            length,
            want,
            got,
        }),
        Err(_) => Err(Refusal::DiskRead),
    }
}

// The first byte at which two segments of one length differ.
fn first_difference(offered: &[u8], held: &[u8]) -> Option<usize>
    requires { length offered.now ≡ length held.now }
    ensures some { IfSome result (λ i. (i < length offered.now) × (take i offered.now ≡ take i held.now)
        × (get_or offered.now i 0 ≢ get_or held.now i 0)) }
    ensures none { result ≡ None → held.now ≡ offered.now }
{
    for i in 0..offered.len() {
        if offered[i] != held[i] {
            return Some(i);
        }
    }
    None
}

// Refuses a copy of other bytes.
fn same_bytes(kind: Kind, digest: &[u8; 32], offered: &[u8], held: &[u8]) -> Result<(), Refusal>
    requires { length offered.now ≡ length held.now }
    ensures same { OnOk result (held.now ≡ offered.now) }
    ensures refused { IfErr result (IsDifference kind digest.now offered.now held.now) }
{
    match first_difference(offered, held) {
        Some(i) => Err(Refusal::Clash {
            key: key_of(kind, digest),
            at: Difference::Byte {
                place: i as u64,
                offered: offered[i],
                held: held[i],
            },
        }),
        None => Ok(()),
    }
}

// Refuses a copy of another length.
fn same_length(kind: Kind, digest: &[u8; 32], offered: &[u8], place: &Place) -> Result<(), Refusal>
    ensures same { OnOk result (place.now.length ≡ length offered.now) }
    ensures refused { IfErr result (IsClash kind digest.now offered.now place.now) }
{
    let offered = offered.len() as u64;
    let held = u64::from(place.length);
    if offered != held {
        return Err(Refusal::Clash {
            key: key_of(kind, digest),
            at: Difference::Length { offered, held },
        });
    }
    Ok(())
}

// Refuses a node's copy that isn't these bytes, as many as it has.
fn same_node<D: Disk>(
    disk: &mut D,
    place: &Place,
    digest: &[u8; 32],
    offered: &[u8],
    buf: &mut [u8],
) -> Result<(), Refusal>
    requires place { IsPlace (D.view disk.old).size place.now }
    requires room { place.now.length ≤ length buf.old }
    requires length { place.now.length ≡ length offered.now }
    ensures same { OnOk result (Shows (D.view disk.old) (D.view disk.new) (λ image. bytes_at place.now image ≡ offered.now)) }
    ensures size { length buf.new ≡ length buf.old }
    ensures reads { Reads (ending blames result) (D.view disk.old) (D.view disk.new) }
    ensures refused { IfErr result (IsNodeRefusal (Shows (D.view disk.old) (D.view disk.new)) Tree digest.now offered.now place.now) }
{
    read_copy(disk, &mut Afresh, place, digest, buf)?;
    same_bytes(Kind::Tree, digest, offered, &buf[..place.length as usize])
}

/// Refuses a segment that is offered where the copy of its key at this place isn't the same: another length is `Clash`;
/// a node's copy is read, which may be `DiskRead` or `Corrupt`, and where a byte differs `Clash`. Of data nothing is read.
///
/// It takes no memory. `buf` has room for a segment, and may hold anything then.
pub fn read_same<D: Disk>(
    disk: &mut D,
    place: &Place,
    kind: Kind,
    digest: &[u8; 32],
    offered: &[u8],
    buf: &mut [u8],
) -> Result<(), Refusal>
    requires place { IsPlace (D.view disk.old).size place.now }
    requires room { MOST_SEGMENT ≤ length buf.old }
    ensures length { OnOk result (place.now.length ≡ length offered.now) }
    ensures same { OnOk result (Shows (D.view disk.old) (D.view disk.new) (FitsBytes kind offered.now place.now)) }
    ensures size { length buf.new ≡ length buf.old }
    ensures reads { Reads (ending blames result) (D.view disk.old) (D.view disk.new) }
    ensures refused { IfErr result (IsSameRefusal (Shows (D.view disk.old) (D.view disk.new)) kind digest.now offered.now place.now) }
{
    same_length(kind, digest, offered, place)?;
    match kind {
        Kind::Leaf => Ok(()),
        Kind::Tree => same_node(disk, place, digest, offered, buf),
    }
}

/// The place of the copy of a segment that is offered, if there is one, which has to be the same.
pub fn compare_one<D: Disk, X: Index>(
    disk: &mut D,
    index: &mut X,
    kind: Kind,
    digest: &[u8; 32],
    offered: &[u8],
    buf: &mut [u8],
) -> Result<Option<Place>, Refusal>
    requires serves { X.serves index.old (D.view disk.old).size }
    requires room { MOST_SEGMENT ≤ length buf.old }
    ensures had { IfOk result (λ had. IfSome had (IsPlace (D.view disk.old).size)
        × KnownMap (X.places index.old (D.view disk.old).content) (λ m. had ≡ finite.get m (key_in (kind_byte kind) digest.now))) }
    ensures fit { IfOk result (λ had. Shows (D.view disk.old) (D.view disk.new) (FitsHad kind offered.now had)) }
    ensures length { IfOk result (λ had. IfSome had (λ place. place.length ≡ length offered.now)) }
    ensures map { X.places index.new (D.view disk.new).content ≡ X.places index.old (D.view disk.old).content }
    ensures size { length buf.new ≡ length buf.old }
    ensures reads { Reads (ending blames result) (D.view disk.old) (D.view disk.new) }
    ensures refused { IfErr result (IsOneRefusal
        (λ at why. (X.places index.old (D.view disk.old).content ≡ None)
        × Shows (D.view disk.old) (D.view disk.new) (X.breaks index.old at why))
        (IsUnlike (D.view disk.old).size (X.places index.old (D.view disk.old).content) (Shows (D.view disk.old) (D.view disk.new))
        kind digest.now offered.now)) }
    ensures served { X.serves index.new (D.view disk.new).size }
{
    match find(disk, index, &key_of(kind, digest))? {
        Some(place) => {
            read_same(disk, &place, kind, digest, offered, buf)?;
            Ok(Some(place))
        }
        None => Ok(None),
    }
}

// The digest of a segment of a container.
fn digest_at(filled: &OpenContainer, i: usize) -> [u8; 32]
    requires { i < length filled.now.segments }
    ensures { result ≡ sha256 (segment_at filled.now.segments i).bytes }
{
    let entries = filled.entries();
    let entry = entries[i];
    entry.digest
}

/// Refuses a container where a copy of a segment's key is held that isn't the same, and gives the place of each copy, where
/// there is one: the segments are compared one after the other, each looked up first.
pub fn compare_all<D: Disk, X: Index>(
    alloc: Global,
    disk: &mut D,
    index: &mut X,
    filled: &OpenContainer,
    buf: &mut [u8],
) -> Result<Vec<Option<Place>>, Refusal>
    requires serves { X.serves index.old (D.view disk.old).size }
    requires room { MOST_SEGMENT ≤ length buf.old }
    ensures fit { IfOk result (λ before. FitSoFar (D.view disk.old).size (X.places index.old (D.view disk.old).content)
        (Shows (D.view disk.old) (D.view disk.new)) filled.now.kind filled.now.segments before.items) }
    ensures map { X.places index.new (D.view disk.new).content ≡ X.places index.old (D.view disk.old).content }
    ensures size { length buf.new ≡ length buf.old }
    ensures reads { Reads (ending blames result) (D.view disk.old) (D.view disk.new) }
    ensures refused { IfErr result (IsAllRefusal (X.places index.old (D.view disk.old).content)
        (IsFirstUnlike (D.view disk.old).size (X.places index.old (D.view disk.old).content) (Shows (D.view disk.old) (D.view disk.new))
        filled.now.kind filled.now.segments)) }
    // So of those of these keys that the index has, each store for which it is right holds nothing that differs.
    ensures held { OnOk result (Shows (D.view disk.old) (D.view disk.new) (λ image. (store : Store) (m : PlaceMap)
        → X.places index.old (D.view disk.old).content ≡ Some m → IsPartialIndexOf store.held m
        → AllByRecursion (FitsHeld (HasKey m) filled.now.kind store image) filled.now.segments)) }
    ensures served { X.serves index.new (D.view disk.new).size }
{
    let mut before = Vec::new(alloc);
    let kind = filled.kind();
    for i in 0..filled.len() {
        let digest = digest_at(filled, i);
        let had = compare_one(disk, index, kind, &digest, filled.bytes_of(i), buf)?;
        before.push(had)?;
    }
    Ok(before)
}
