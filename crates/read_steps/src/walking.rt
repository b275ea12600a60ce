//! The next segment on a walk down a tree.
ghost use Rattle.std.specs.Prelude.{◌≡◌, ◌↔◌, ℕ, ◌+◌, ◌<◌, ◌≤◌, List, [], ◌∷◌, length, take, Option, None, Ok, IfOk, IfErr, OnErr, OnOk};
ghost use Rattle.sha2.specs.Sha256.{sha256};
ghost use Rattle.base_model.specs.Bytes.{key_of as key_in};
ghost use Rattle.dd_disk.specs.Ending.{ending, Reads};
ghost use Rattle.disk_format.specs.declared.numbers.TheConstants.{MOST_SEGMENT as LONGEST};
ghost use Rattle.disk_format.specs.declared.why.Why.{Why as Reason};
ghost use Rattle.disk_format.specs.declared.why.Why.TheVariants.{Field};
ghost use Rattle.disk_format.specs.Layout.{data_at as place_of_data};
ghost use Rattle.refusals.specs.declared.refusal.Refusal.TheVariants.{Damaged};
ghost use Rattle.container_meta.specs.Format.{kind_byte};
ghost use Rattle.container_meta.specs.Spelling.{HeaderValue};
ghost use Rattle.segment_index.specs.Places.{IsPlace};
ghost use Rattle.store_model.specs.Collisions.{ByteSet};
ghost use Rattle.store_state.specs.Refused.{blames};
ghost use Rattle.read_steps.specs.Walking.{IsPlaceOf, IsCopyAt, WasRead, IsLookupRefusal, IsCopyRefusal, IsNextRefusal, IsWalkRefusal};
ghost use Rattle.read_steps.specs.Walking.{IsNodeNamed, IsLeafRead, Walked, leaf_top, level_ahead};
ghost use Rattle.read_steps.specs.Visiting.{VisitsPlaced};
ghost use Rattle.read_steps.specs.Walking.{AsksIndex, IsAnswer, IsHeldAnswer, IsIndexed, SegmentsAhead};

use container_meta::{Key, Kind, Place, key_of};
use dd_disk::Disk;
use digests::{Afresh, TakesDigests};
use disk_format::{Why, data_at};
use merkle_file::{Cursor, Hash, Want};
use refusals::Refusal;
use segment_index::{Index, IndexFault};
use store_state::read_copy;

// Where the index has a key.
pub(crate) fn find_place<D: Disk, X: Index>(
    disk: &mut D,
    index: &mut X,
    key: &Key,
) -> Result<Place, Refusal>
    requires { X.serves index.old (D.view disk.old).size }
    ensures found { IfOk result (IsPlaceOf (X.places index.old (D.view disk.old).content) key.now) }
    ensures place { IfOk result (IsPlace (D.view disk.old).size) }
    ensures refused { IfErr result (IsLookupRefusal (X.places index.old (D.view disk.old).content) (X.breaks index.old)
        (D.view disk.old) (D.view disk.new) key.now) }
    ensures map { X.places index.new (D.view disk.new).content ≡ X.places index.old (D.view disk.old).content }
    ensures form { (at : ℕ) (why : Reason) (bytes : List ℕ) → X.breaks index.new at why bytes → X.breaks index.old at why bytes }
    ensures served { X.serves index.new (D.view disk.new).size }
    ensures reads { Reads (ending blames result) (D.view disk.old) (D.view disk.new) }
{
    match index.get(disk, key) {
        Ok(Some(place)) => Ok(place),
        Ok(None) => Err(Refusal::Missing { key: *key }),
        Err(IndexFault::DiskRead) => Err(Refusal::DiskRead),
        Err(IndexFault::Damaged { at, why }) => Err(Refusal::Damaged { at, why }),
        // A look-up takes no memory, and writes nothing.
        Err(_) => unreachable!(),
    }
}

// The bytes of a key, read into the front of a buffer, and their place.
fn read_newest<D: Disk, X: Index, H: TakesDigests>(
    disk: &mut D,
    index: &mut X,
    digests: &mut H,
    kind: Kind,
    digest: &Hash,
    buf: &mut [u8],
) -> Result<Place, Refusal>
    requires serves { X.serves index.old (D.view disk.old).size }
    requires room { LONGEST ≤ length buf.old }
    ensures copy { IfOk result (λ place. IsCopyAt (X.places index.old (D.view disk.old).content) (D.view disk.old) (D.view disk.new)
        (key_in (kind_byte kind) digest.now) place (take place.length buf.new)) }
    ensures digest { IfOk result (λ place. sha256 (take place.length buf.new) ≡ digest.now) }
    ensures refused { IfErr result (IsCopyRefusal (X.places index.old (D.view disk.old).content) (X.breaks index.old)
        (D.view disk.old) (D.view disk.new) (key_in (kind_byte kind) digest.now) digest.now) }
    ensures map { X.places index.new (D.view disk.new).content ≡ X.places index.old (D.view disk.old).content }
    ensures form { (at : ℕ) (why : Reason) (bytes : List ℕ) → X.breaks index.new at why bytes → X.breaks index.old at why bytes }
    ensures served { X.serves index.new (D.view disk.new).size }
    ensures reads { Reads (ending blames result) (D.view disk.old) (D.view disk.new) }
{
    let place = find_place(disk, index, &key_of(kind, digest))?;
    read_copy(disk, digests, &place, digest, buf)?;
    Ok(place)
}

// The refusal of bytes that lie at a place and have a wrong field.
fn damaged(place: &Place, offset: u32, got: u64) -> Refusal
    ensures { result ≡ Damaged (place_of_data place.now.slot + place.now.offset) (Field offset got) }
{
    Refusal::Damaged {
        at: data_at(place.slot) + u64::from(place.offset),
        why: Why::Field { offset, got },
    }
}

// Opens the node that comes first, and answers its place. Where it is refused, what is to come stays.
pub(crate) fn open_node<D: Disk, X: Index>(
    disk: &mut D,
    index: &mut X,
    cursor: &mut Cursor,
    digest: &Hash,
    buf: &mut [u8],
) -> Result<Place, Refusal>
    requires serves { X.serves index.old (D.view disk.old).size }
    requires room { LONGEST ≤ length buf.old }
    requires node { IsNodeNamed cursor.old digest.now }
    ensures visits { IfOk result (VisitsPlaced (X.places index.old (D.view disk.old).content) (D.view disk.old) (D.view disk.new)
        cursor.old cursor.new) }
    ensures walked { OnOk result (Walked (WasRead (X.places index.old (D.view disk.old).content) (D.view disk.old) (D.view disk.new))
        cursor.old cursor.new) }
    ensures falls { OnOk result (level_ahead cursor.new < level_ahead cursor.old) }
    ensures kept { OnErr result (cursor.new ≡ cursor.old) }
    ensures cause { IfErr result (IsNextRefusal (X.places index.old (D.view disk.old).content) (X.breaks index.old)
        (D.view disk.old) (D.view disk.new) cursor.old) }
    ensures refused { IfErr result (IsWalkRefusal (X.places index.old (D.view disk.old).content) (X.breaks index.old)
        (D.view disk.old) (D.view disk.new) cursor.old cursor.new) }
    ensures asks { AsksIndex (X.places index.old (D.view disk.old).content) (X.places index.new (D.view disk.new).content)
        (X.breaks index.old) (X.breaks index.new) (ending blames result) (D.view disk.old) (D.view disk.new) }
    ensures served { X.serves index.new (D.view disk.new).size }
{
    let place = read_newest(disk, index, &mut Afresh, Kind::Tree, digest, buf)?;
    match cursor.feed(&buf[..place.length as usize]) {
        Ok(()) => Ok(place),
        Err(fault) => Err(damaged(&place, fault.offset, fault.got)),
    }
}

// Opens nodes until a segment comes first, or nothing.
fn open_nodes<D: Disk, X: Index>(
    disk: &mut D,
    index: &mut X,
    cursor: &mut Cursor,
    buf: &mut [u8],
) -> Result<(), Refusal>
    requires serves { X.serves index.old (D.view disk.old).size }
    requires room { LONGEST ≤ length buf.old }
    ensures walked { OnOk result (Walked (WasRead (X.places index.old (D.view disk.old).content) (D.view disk.old) (D.view disk.new))
        cursor.old cursor.new) }
    ensures leaf { OnOk result (level_ahead cursor.new ≡ 0) }
    ensures refused { IfErr result (IsWalkRefusal (X.places index.old (D.view disk.old).content) (X.breaks index.old)
        (D.view disk.old) (D.view disk.new) cursor.old cursor.new) }
    ensures map { X.places index.new (D.view disk.new).content ≡ X.places index.old (D.view disk.old).content }
    ensures form { (at : ℕ) (why : Reason) (bytes : List ℕ) → X.breaks index.new at why bytes → X.breaks index.old at why bytes }
    ensures served { X.serves index.new (D.view disk.new).size }
    ensures reads { Reads (ending blames result) (D.view disk.old) (D.view disk.new) }
{
    while let Want::Node { digest, .. } = cursor.want() {
        open_node(disk, index, cursor, &digest, buf)?;
    }
    Ok(())
}

// Reads the segment of a digest, which has to have a length.
fn read_leaf<D: Disk, X: Index, H: TakesDigests>(
    disk: &mut D,
    index: &mut X,
    digests: &mut H,
    digest: &Hash,
    named: u64,
    buf: &mut [u8],
) -> Result<u32, Refusal>
    requires serves { X.serves index.old (D.view disk.old).size }
    requires room { LONGEST ≤ length buf.old }
    ensures bytes { IfOk result (λ count. IsLeafRead
        (WasRead (X.places index.old (D.view disk.old).content) (D.view disk.old) (D.view disk.new))
        (leaf_top named digest.now) count (take count buf.new)) }
    ensures refused { IfErr result (IsNextRefusal (X.places index.old (D.view disk.old).content) (X.breaks index.old)
        (D.view disk.old) (D.view disk.new) (leaf_top named digest.now ∷ [])) }
    ensures map { X.places index.new (D.view disk.new).content ≡ X.places index.old (D.view disk.old).content }
    ensures form { (at : ℕ) (why : Reason) (bytes : List ℕ) → X.breaks index.new at why bytes → X.breaks index.old at why bytes }
    ensures served { X.serves index.new (D.view disk.new).size }
    ensures reads { Reads (ending blames result) (D.view disk.old) (D.view disk.new) }
{
    let place = read_newest(disk, index, digests, Kind::Leaf, digest, buf)?;
    let got = u64::from(place.length);
    if got != named {
        return Err(damaged(&place, 0, got));
    }
    Ok(place.length)
}

/// Reads the next segment of a walk into the front of a buffer, and answers its length, at least 1; or nothing, at the
/// end. It takes no memory.
///
/// Refusals, in the order in which they come at each node on the way and at the segment: `DiskRead`; `Damaged` for bytes of
/// the index that break its form; `Missing` where the index has no such key; `Corrupt` where the bytes that are read have
/// another digest; `Damaged` where they have it and aren't what was named: a node by its first wrong field, a segment by its
/// length. After each the walk goes on where it was.
pub fn next_segment<D: Disk, X: Index, H: TakesDigests>(
    disk: &mut D,
    index: &mut X,
    digests: &mut H,
    cursor: &mut Cursor,
    buf: &mut [u8],
) -> Result<Option<u32>, Refusal>
    requires serves { X.serves index.old (D.view disk.old).size }
    requires room { LONGEST ≤ length buf.old }
    ensures end { (result ≡ Ok None) ↔ (cursor.old ≡ []) }
    // On any disk, whatever it gives.
    ensures bytes { IfOk result (IsAnswer (WasRead (X.places index.old (D.view disk.old).content) (D.view disk.old) (D.view disk.new))
        cursor.old cursor.new buf.new) }
    // Where the disk tells its content, and trees that it holds are to come, whose keys the index has.
    ensures held { (counts : ByteSet) (held : List (Option HeaderValue)) (image : List ℕ) (segments : List (List ℕ))
        → IsIndexed counts held (X.places index.old (D.view disk.old).content) (D.view disk.old).content image
        → SegmentsAhead counts held image cursor.old segments → IsHeldAnswer counts held image cursor.new segments buf.new result }
    ensures refused { IfErr result (IsWalkRefusal (X.places index.old (D.view disk.old).content) (X.breaks index.old)
        (D.view disk.old) (D.view disk.new) cursor.old cursor.new) }
    ensures map { X.places index.new (D.view disk.new).content ≡ X.places index.old (D.view disk.old).content }
    ensures form { (at : ℕ) (why : Reason) (bytes : List ℕ) → X.breaks index.new at why bytes → X.breaks index.old at why bytes }
    ensures served { X.serves index.new (D.view disk.new).size }
    ensures reads { Reads (ending blames result) (D.view disk.old) (D.view disk.new) }
{
    open_nodes(disk, index, cursor, buf)?;
    match cursor.want() {
        Want::Leaf { digest, length, .. } => {
            let count = read_leaf(disk, index, digests, &digest, length, buf)?;
            cursor.pass();
            Ok(Some(count))
        }
        Want::End => Ok(None),
        // All nodes in front are opened.
        Want::Node { .. } => unreachable!(),
    }
}
