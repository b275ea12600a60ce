//! A walk over the trees of names that notes each key.
ghost use Rattle.std.specs.Prelude.{◌≡◌, ◌⊎◌, ◌<◌, ◌≤◌, [], Some, Ok, true, false, length, map, IsTrue, IfErr, MatchResult, OnOk};
ghost use Rattle.container_meta.specs.declared.place.Place.{Place as PlaceValue};
ghost use Rattle.dd_disk.specs.Ending.{ending, Reads};
ghost use Rattle.disk_format.specs.declared.numbers.TheConstants.{MOST_SEGMENT as LONGEST};
ghost use Rattle.merkle_file.specs.Walk.{start_of};
ghost use Rattle.namespace.specs.Listing.{listed_value};
ghost use Rattle.segment_index.specs.Places.{HasPlaces, IsPlace};
ghost use Rattle.refusals.specs.declared.refusal.Refusal.TheVariants.{Memory};
ghost use Rattle.store_state.specs.Refused.{blames, fails};
ghost use Rattle.read_steps.specs.Opening.{top_of as top_of_root};
ghost use Rattle.read_steps.specs.Passed.{WasNoted};
ghost use Rattle.read_steps.specs.Trees.{AllHeld, IsHeld, IsStepsRefusal, IsTreesRefusal, NotesTrees, TakesStep, Walks, WalksOnce, WhereHeld, key_ahead, walk_state};
ghost use Rattle.read_steps.specs.Visiting.{IsVisitRefusal, steps_ahead};

use crate::noting::NotesKeys;
use crate::opening::top_of;
use crate::passed::Passed;
use crate::visiting::visit;
use container_meta::{Key, Kind, key_of};
use dd_disk::Disk;
use merkle_file::{Cursor, Want};
use namespace::{ListedName, Root};
use refusals::Refusal;
use segment_index::StoreIndex;
use std::alloc::Global;

// The key of the first node or segment that is still to come.
fn next_key(cursor: &Cursor) -> Option<Key>
    ensures { result ≡ key_ahead cursor.now }
{
    match cursor.want() {
        Want::Node { digest, .. } => Some(key_of(Kind::Tree, &digest)),
        Want::Leaf { digest, .. } => Some(key_of(Kind::Leaf, &digest)),
        Want::End => None,
    }
}

// One step of a walk: a node that it came to before is passed, with all that is below it; another is read and opened, and its key is
// noted; a segment is passed unread, and its key is noted. Whether there was one.
fn walk_next<D: Disk, N: NotesKeys>(
    disk: &mut D,
    index: &mut StoreIndex,
    cursor: &mut Cursor,
    passed: &mut Passed,
    notes: &mut N,
    buf: &mut [u8],
) -> Result<bool, Refusal>
    requires serves { HasPlaces (D.view disk.old).size index.old }
    requires room { LONGEST ≤ length buf.old }
    requires takes { (p : PlaceValue) → IsPlace (D.view disk.old).size p → N.takes notes.old p }
    ensures step { result ≡ Ok true → TakesStep N N.notes index.old (D.view disk.old) (D.view disk.new)
        (walk_state N cursor.old passed.old notes.old) (walk_state N cursor.new passed.new notes.new) }
    ensures end { result ≡ Ok false → (cursor.old ≡ []) × (passed.new ≡ passed.old) × (notes.new ≡ notes.old) }
    // Of a node that is passed nothing is read.
    ensures unread { result ≡ Ok true → WasNoted passed.old cursor.old → (D.view disk.new).clock ≡ (D.view disk.old).clock }
    ensures falls { result ≡ Ok true → steps_ahead cursor.new < steps_ahead cursor.old }
    ensures refused { IfErr result (λ refusal. (refusal ≡ Memory)
        ⊎ IsVisitRefusal (Some index.old) (λ _ _ _. ⊥) (D.view disk.old) (D.view disk.new) cursor.old refusal) }
    // Where the disk tells its content, and trees that it holds are to come.
    ensures held { WhereHeld index.old (D.view disk.old).content (λ counts held image. IsHeld counts held image cursor.old)
        (λ counts held image. MatchResult result (λ _. IsHeld counts held image cursor.new) (λ refusal. IsTrue (fails refusal))) }
    ensures rest { (index.new ≡ index.old) × (length buf.new ≡ length buf.old)
        × ((p : PlaceValue) → N.takes notes.old p → N.takes notes.new p) }
    ensures reads { Reads (ending blames result) (D.view disk.old) (D.view disk.new) }
{
    if passed.note(cursor)? {
        cursor.skip();
        return Ok(true);
    }
    let Some(key) = next_key(cursor) else {
        return Ok(false);
    };
    match visit(disk, index, cursor, buf)? {
        Some(place) => {
            notes.note(&key, &place)?;
            Ok(true)
        }
        // One is to come.
        None => unreachable!(),
    }
}

// Walks what is to come of a tree, and notes each key.
fn walk_rest<D: Disk, N: NotesKeys>(
    disk: &mut D,
    index: &mut StoreIndex,
    cursor: &mut Cursor,
    passed: &mut Passed,
    notes: &mut N,
    buf: &mut [u8],
) -> Result<(), Refusal>
    requires serves { HasPlaces (D.view disk.old).size index.old }
    requires room { LONGEST ≤ length buf.old }
    requires takes { (p : PlaceValue) → IsPlace (D.view disk.old).size p → N.takes notes.old p }
    ensures walks { OnOk result (Walks N N.notes index.old (D.view disk.old) (D.view disk.new)
        (walk_state N cursor.old passed.old notes.old) (walk_state N [] passed.new notes.new)) }
    ensures refused { IfErr result (IsStepsRefusal N N.notes index.old (D.view disk.old) (D.view disk.new)
        (walk_state N cursor.old passed.old notes.old)) }
    // Where the disk tells its content, and trees that it holds are to come.
    ensures failed { IfErr result (λ refusal. WhereHeld index.old (D.view disk.old).content
        (λ counts held image. IsHeld counts held image cursor.old) (λ _ _ _. IsTrue (fails refusal))) }
    ensures index { index.new ≡ index.old }
    ensures size { length buf.new ≡ length buf.old }
    ensures stays { (p : PlaceValue) → N.takes notes.old p → N.takes notes.new p }
    ensures reads { Reads (ending blames result) (D.view disk.old) (D.view disk.new) }
{
    let mut more = true;
    while more {
        more = walk_next(disk, index, cursor, passed, notes, buf)?;
    }
    Ok(())
}

// Walks a tree whole, and notes each key.
fn walk_tree<D: Disk, N: NotesKeys>(
    alloc: Global,
    disk: &mut D,
    index: &mut StoreIndex,
    root: &Root,
    passed: &mut Passed,
    notes: &mut N,
    buf: &mut [u8],
) -> Result<(), Refusal>
    requires serves { HasPlaces (D.view disk.old).size index.old }
    requires room { LONGEST ≤ length buf.old }
    requires takes { (p : PlaceValue) → IsPlace (D.view disk.old).size p → N.takes notes.old p }
    ensures walks { OnOk result (Walks N N.notes index.old (D.view disk.old) (D.view disk.new)
        (walk_state N (start_of (top_of_root root.now)) passed.old notes.old) (walk_state N [] passed.new notes.new)) }
    ensures refused { IfErr result (IsStepsRefusal N N.notes index.old (D.view disk.old) (D.view disk.new)
        (walk_state N (start_of (top_of_root root.now)) passed.old notes.old)) }
    ensures failed { IfErr result (λ refusal. WhereHeld index.old (D.view disk.old).content
        (λ counts held image. IsHeld counts held image (start_of (top_of_root root.now))) (λ _ _ _. IsTrue (fails refusal))) }
    ensures index { index.new ≡ index.old }
    ensures size { length buf.new ≡ length buf.old }
    ensures stays { (p : PlaceValue) → N.takes notes.old p → N.takes notes.new p }
    ensures reads { Reads (ending blames result) (D.view disk.old) (D.view disk.new) }
{
    let mut cursor = Cursor::new(alloc, &top_of(root))?;
    walk_rest(disk, index, &mut cursor, passed, notes, buf)
}

/// Walks the trees of all of these names, the first of them first, and notes each key with the place that the index has for it. A
/// node that is named once more at the same level and length is passed, with all that is below it. A key may be noted more than
/// once, as that of a segment which two nodes have.
///
/// Refusals: `Memory`, and those of `visit`.
pub fn walk_trees<D: Disk, N: NotesKeys>(
    alloc: Global,
    disk: &mut D,
    index: &mut StoreIndex,
    files: &[ListedName],
    notes: &mut N,
    buf: &mut [u8],
) -> Result<(), Refusal>
    requires serves { HasPlaces (D.view disk.old).size index.old }
    requires room { LONGEST ≤ length buf.old }
    requires takes { (p : PlaceValue) → IsPlace (D.view disk.old).size p → N.takes notes.old p }
    ensures notes { OnOk result (NotesTrees N N.notes index.old (D.view disk.old) (D.view disk.new) (map listed_value files.now)
        notes.old notes.new) }
    ensures once { OnOk result (WalksOnce N N.notes index.old (D.view disk.old) (D.view disk.new) (map listed_value files.now)
        notes.old notes.new) }
    ensures refused { IfErr result (IsTreesRefusal index.old (D.view disk.old) (D.view disk.new) (map listed_value files.now)) }
    // Where the disk tells its content, and holds all of these trees.
    ensures failed { IfErr result (λ refusal. WhereHeld index.old (D.view disk.old).content
        (λ counts held image. AllHeld counts held image (map listed_value files.now)) (λ _ _ _. IsTrue (fails refusal))) }
    ensures index { index.new ≡ index.old }
    ensures stays { (p : PlaceValue) → N.takes notes.old p → N.takes notes.new p }
    ensures reads { Reads (ending blames result) (D.view disk.old) (D.view disk.new) }
{
    let mut passed = Passed::new(alloc);
    for file in files {
        walk_tree(alloc, disk, index, &file.root, &mut passed, notes, buf)?;
    }
    Ok(())
}
