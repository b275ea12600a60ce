//! What a step keeps becomes live, where a collection runs.
ghost use Rattle.std.specs.Prelude.{◌≡◌, ◌++◌, List, ℕ, true, false, Contains, Option, IfErr, IfOk, OnErr, OnOk};
ghost use Rattle.container_meta.specs.Segments.{keys_of as segment_keys};
ghost use Rattle.refusals.specs.declared.refusal.Refusal.TheVariants.{Memory};
ghost use Rattle.gc_steps.specs.declared.collection.Collection.{Collection as CollectionValue};
ghost use Rattle.store_core.specs.Collecting.{MarksIn, Restores, keys_in};

use container_meta::{Key, OpenContainer, key_of};
use gc_steps::{Collection, mark_fresh, unmark};
use refusals::Refusal;
use std::alloc::{AllocError, Global};

/// Makes a key live, and gives it if it was not. The one refusal is `Memory`, and leaves each key as live as it was.
pub(crate) fn mark_key(
    alloc: Global,
    collection: &mut Option<Collection>,
    key: &Key,
) -> Result<Vec<Key>, Refusal>
    ensures marks { OnOk result (MarksIn (λ k. k ≡ key.now) collection.old collection.new) }
    ensures fresh { IfOk result (λ fresh. Restores collection.old collection.new fresh.items) }
    ensures refused { IfErr result (λ refusal. refusal ≡ Memory) }
    ensures kept { OnErr result (MarksIn (λ k. ⊥) collection.old collection.new) }
{
    match collection {
        Some(running) => mark_fresh(alloc, running, &[*key]),
        None => Ok(Vec::new(alloc)),
    }
}

// Adds the keys of the segments of a container.
fn add_keys(keys: &mut Vec<Key>, filled: &OpenContainer) -> Result<(), AllocError>
    ensures { OnOk result (keys.new.items ≡ keys.old.items ++ segment_keys filled.now) }
{
    for entry in filled.entries() {
        keys.push(key_of(filled.kind(), &entry.digest))?;
    }
    Ok(())
}

// The keys of the segments of containers, one after the other.
fn keys_of(alloc: Global, filled: &[OpenContainer]) -> Result<Vec<Key>, AllocError>
    ensures { IfOk result (λ keys. keys.items ≡ keys_in filled.now) }
{
    let mut keys = Vec::new(alloc);
    for i in 0..filled.len() {
        add_keys(&mut keys, &filled[i])?;
    }
    Ok(keys)
}

/// Makes the keys of the segments of containers live, and gives those that were not. The one refusal is `Memory`, and leaves each
/// key as live as it was.
pub(crate) fn mark_containers(
    alloc: Global,
    collection: &mut Option<Collection>,
    filled: &[OpenContainer],
) -> Result<Vec<Key>, Refusal>
    ensures marks { OnOk result (MarksIn (Contains (keys_in filled.now)) collection.old collection.new) }
    ensures fresh { IfOk result (λ fresh. Restores collection.old collection.new fresh.items) }
    ensures refused { IfErr result (λ refusal. refusal ≡ Memory) }
    ensures kept { OnErr result (MarksIn (λ k. ⊥) collection.old collection.new) }
{
    match collection {
        Some(running) => {
            let keys = keys_of(alloc, filled)?;
            mark_fresh(alloc, running, &keys)
        }
        None => Ok(Vec::new(alloc)),
    }
}

// Takes marks away. Those that `mark_key` or `mark_containers` gave leave each key as live as it was before.
fn unmark_keys(collection: &mut Option<Collection>, keys: &[Key])
    ensures { (before : Option CollectionValue) → Restores before collection.old keys.now → MarksIn (λ k. ⊥) before collection.new }
{
    if let Some(running) = collection {
        unmark(running, keys);
    }
}

/// Takes marks away, unless what was marked is kept.
pub(crate) fn unmark_unless(collection: &mut Option<Collection>, keys: &[Key], kept: bool)
    ensures kept { kept ≡ true → collection.new ≡ collection.old }
    ensures undone { kept ≡ false → (before : Option CollectionValue) → Restores before collection.old keys.now
        → MarksIn (λ k. ⊥) before collection.new }
{
    if !kept {
        unmark_keys(collection, keys);
    }
}
