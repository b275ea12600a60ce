//! What a collection begins with: the roots of names and readers, and the pins.
ghost use Rattle.std.specs.Prelude.{◌≡◌, ◌++◌, ◌<◌, map, slice_index_or, IfOk, OnOk};
ghost use Rattle.std.specs.List.{flat_map};
ghost use Rattle.namespace.specs.Listing.{listed_value};
ghost use Rattle.store_model.specs.Refusals.{root_key as key_of_root};
ghost use Rattle.gc_steps.specs.Roots.{keys_of_listed, keys_of_number, keys_of_part, keys_of_pin, keys_of_root, roots_of};

use actor_parts::{ACTORS, Actor, Part, Parts, Pins};
use container_meta::{Key, Kind, key_of};
use namespace::{ListedName, Names, Root};
use std::alloc::{AllocError, Global};

/// The key of a segment that is kept, and the level that is said of it where it is named.
#[derive(Clone, Copy)]
pub(crate) struct RootKey {
    pub key: Key,
    /// Its height above the data.
    pub level: u8,
}

// The key of the segment of a root.
fn root_key(root: &Root) -> Key
    ensures { result ≡ key_of_root root.now }
{
    let kind = if root.level == 0 {
        Kind::Leaf
    } else {
        Kind::Tree
    };
    key_of(kind, &root.digest)
}

// Adds the key of a root, if it has one.
fn add_root(roots: &mut Vec<RootKey>, root: &Root) -> Result<(), AllocError>
    ensures { OnOk result (roots.new.items ≡ roots.old.items ++ keys_of_root root.now) }
{
    if root.length == 0 {
        return Ok(());
    }
    roots.push(RootKey {
        key: root_key(root),
        level: root.level,
    })?;
    Ok(())
}

// Adds those of these files.
fn add_listed(roots: &mut Vec<RootKey>, files: &[ListedName]) -> Result<(), AllocError>
    ensures { OnOk result (roots.new.items ≡ roots.old.items ++ flat_map keys_of_listed (map listed_value files.now)) }
{
    for file in files {
        add_root(roots, &file.root)?;
    }
    Ok(())
}

// Adds a segment that is pinned, by its key.
fn add_pin(roots: &mut Vec<RootKey>, pins: &Pins, key: &Key) -> Result<(), AllocError>
    ensures { OnOk result (roots.new.items ≡ roots.old.items ++ keys_of_pin pins.now key.now) }
{
    if let Some(pin) = pins.get(key) {
        roots.push(RootKey {
            key: *key,
            level: pin.level,
        })?;
    }
    Ok(())
}

// Adds those of these keys that are pinned.
fn add_pins(roots: &mut Vec<RootKey>, pins: &Pins, keys: &[Key]) -> Result<(), AllocError>
    ensures { OnOk result (roots.new.items ≡ roots.old.items ++ flat_map (keys_of_pin pins.now) keys.now) }
{
    for key in keys {
        add_pin(roots, pins, key)?;
    }
    Ok(())
}

// Adds what an actor holds.
fn add_part(alloc: Global, roots: &mut Vec<RootKey>, part: &Part) -> Result<(), AllocError>
    ensures { OnOk result (roots.new.items ≡ roots.old.items ++ keys_of_part part.now) }
{
    match part {
        Part::Idle => Ok(()),
        Part::Writing(pins) => {
            let keys = pins.keys(alloc)?;
            add_pins(roots, pins, &keys)
        }
        Part::Reading(reader) => add_root(roots, &reader.root),
    }
}

// Adds what the actor of a number holds, if there is such an actor.
fn add_actor(
    alloc: Global,
    roots: &mut Vec<RootKey>,
    parts: &Parts,
    number: u64,
) -> Result<(), AllocError>
    ensures { OnOk result (roots.new.items ≡ roots.old.items ++ keys_of_number parts.now number) }
{
    match Actor::new(number) {
        Some(actor) => add_part(alloc, roots, parts.part(actor)),
        None => Ok(()),
    }
}

/// The roots of names and readers and all pins, in the order in which they are looked up: names by their bytes, then actors by
/// number, and the pins of an actor by key. It fails for want of memory alone.
pub(crate) fn all_roots(
    alloc: Global,
    names: &Names,
    parts: &Parts,
) -> Result<Vec<RootKey>, AllocError>
    ensures { IfOk result (λ roots. roots.items ≡ roots_of names.now parts.now) }
{
    let mut roots = Vec::new(alloc);
    let files = names.files(alloc)?;
    add_listed(&mut roots, files.names())?;
    for number in 0..ACTORS {
        add_actor(alloc, &mut roots, parts, number)?;
    }
    Ok(roots)
}
