//! A collection begins.
ghost use Rattle.std.specs.Prelude.{◌≡◌, ◌↔◌, ◌+◌, ◌*◌, ◌≤◌, ℕ, List, [], None, Contains, map, IfOk, IfErr, OnOk, OnErr};
ghost use Rattle.dd_disk.specs.Ending.{ending, Reads};
ghost use Rattle.disk_format.specs.declared.numbers.TheConstants.{RESERVE};
ghost use Rattle.container_meta.specs.declared.place.Place.{Place as PlaceValue};
ghost use Rattle.gc_enumerate.specs.Live.{IsLiveAt};
ghost use Rattle.gc_steps.specs.Roots.{IsRoot, Marks, key_at, roots_of};
ghost use Rattle.gc_steps.specs.Starting.{AreFound, IsBegun, IsFound, IsStartRefusal, IsUnfound};
ghost use Rattle.gc_steps.specs.StepsToCome.{old_from, steps_to_come, trees_from};
ghost use Rattle.gc_steps.specs.UnderWay.{IsUnderWay};
ghost use Rattle.gc_sweep.specs.UnderWay.{free_in};
ghost use Rattle.store_state.specs.Refused.{blames};
ghost use Rattle.store_state.specs.Tables.{Runs};

use crate::collection::Collection;
use crate::roots::{RootKey, all_roots};
use crate::slots::mark_level;
use actor_parts::{Parts, Percent};
use container_meta::{Key, Place};
use dd_disk::Disk;
use disk_format::{MOST_LEVEL, Why, data_at};
use gc_enumerate::Live;
use gc_select::Liveness;
use gc_sweep::begin;
use refusals::Refusal;
use segment_index::Index;
use std::alloc::{AllocError, Global};
use store_state::{Tables, find};

/// A place. As long as keys are marked, and not places, it is the same which one is said.
pub(crate) fn any_place() -> Place {
    Place {
        slot: 0,
        offset: 0,
        length: 1,
        level: 0,
    }
}

/// Makes a key live. Where memory runs out nothing changes.
pub(crate) fn mark_key(live: &mut Live, key: &Key) -> Result<(), AllocError>
    ensures ok { OnOk result (Marks (λ k. k ≡ key.now) live.old live.new) }
    ensures err { OnErr result (live.new ≡ live.old) }
{
    live.mark(key, &any_place())
}

// Makes the keys of these roots live.
fn mark_roots(live: &mut Live, roots: &[RootKey]) -> Result<(), AllocError>
    ensures ok { OnOk result (Marks (Contains (map key_at roots.now)) live.old live.new) }
{
    for root in roots {
        mark_key(live, &root.key)?;
    }
    Ok(())
}

// What is live as a collection begins.
fn first_live(alloc: Global, roots: &[RootKey]) -> Result<Live, AllocError>
    ensures live { IfOk result (λ live. (key : List ℕ) (place : PlaceValue) → IsLiveAt live key place
        ↔ Contains (map key_at roots.now) key) }
{
    let mut live = Live::new(alloc);
    mark_roots(&mut live, roots)?;
    Ok(live)
}

// Looks a root up: the index has to have its key, where a segment of its level lies.
fn look_up<D: Disk, X: Index>(disk: &mut D, index: &mut X, root: &RootKey) -> Result<(), Refusal>
    requires { X.serves index.old (D.view disk.old).size }
    ensures found { OnOk result (IsFound (X.places index.old (D.view disk.old).content) root.now) }
    ensures refused { IfErr result (IsUnfound (X.places index.old None) (X.places index.old (D.view disk.old).content) root.now) }
    ensures map { X.places index.new (D.view disk.new).content ≡ X.places index.old (D.view disk.old).content }
    ensures alone { X.places index.new None ≡ X.places index.old None }
    ensures reads { Reads (ending blames result) (D.view disk.old) (D.view disk.new) }
    ensures served { X.serves index.new (D.view disk.new).size }
{
    match find(disk, index, &root.key)? {
        Some(place) if place.level == root.level => Ok(()),
        Some(place) => Err(Refusal::Damaged {
            at: data_at(place.slot) + u64::from(place.offset),
            why: Why::Field {
                offset: 0,
                got: u64::from(place.level),
            },
        }),
        None => Err(Refusal::Missing { key: root.key }),
    }
}

// Looks these roots up, one after the other.
fn look_up_all<D: Disk, X: Index>(
    disk: &mut D,
    index: &mut X,
    roots: &[RootKey],
) -> Result<(), Refusal>
    requires { X.serves index.old (D.view disk.old).size }
    ensures found { OnOk result (AreFound (X.places index.old (D.view disk.old).content) roots.now) }
    ensures refused { IfErr result (IsStartRefusal (X.places index.old None) (X.places index.old (D.view disk.old).content) roots.now) }
    ensures map { X.places index.new (D.view disk.new).content ≡ X.places index.old (D.view disk.old).content }
    ensures alone { X.places index.new None ≡ X.places index.old None }
    ensures reads { Reads (ending blames result) (D.view disk.old) (D.view disk.new) }
    ensures served { X.serves index.new (D.view disk.new).size }
{
    for root in roots {
        look_up(disk, index, root)?;
    }
    Ok(())
}

/// Begins a collection: its snapshot is the next container id, and the roots of names and readers and all pins are live. Each of
/// them is looked up before: names by their bytes, then actors by number, and the pins of an actor by key.
///
/// Refusals: `Memory`; then root by root `DiskRead` or `Damaged` by the index, `Missing` where it lacks the key, and `Damaged`,
/// field 0, where what it has is of another level than is said where the key is named.
pub fn start<D: Disk, X: Index>(
    alloc: Global,
    disk: &mut D,
    tables: &Tables,
    index: &mut X,
    parts: &Parts,
    percent: Percent,
) -> Result<Collection, Refusal>
    requires serves { X.serves index.old (D.view disk.old).size }
    requires runs { (size : _) × (known : _) × Runs size known tables.now }
    // The slots of the reserve are closed.
    requires room { RESERVE ≤ free_in tables.now.held }
    ensures begun { IfOk result (IsBegun tables.now parts.now percent) }
    ensures under_way { IfOk result (λ c. IsUnderWay tables.now.held c) }
    // So many steps come at most: for each level the tree containers, a record of each container, the choice, and four for each source.
    ensures steps { IfOk result (λ c. (chosen : ℕ) → steps_to_come chosen tables.now.held c
        ≤ 6 * trees_from c.snapshot tables.now.held 0 + old_from c.snapshot tables.now.held 0 + 1 + 4 * chosen) }
    ensures found { OnOk result (AreFound (X.places index.old (D.view disk.old).content) (roots_of tables.now.names parts.now)) }
    ensures refused { IfErr result (IsStartRefusal (X.places index.old None) (X.places index.old (D.view disk.old).content)
        (roots_of tables.now.names parts.now)) }
    ensures map { X.places index.new (D.view disk.new).content ≡ X.places index.old (D.view disk.old).content }
    ensures reads { Reads (ending blames result) (D.view disk.old) (D.view disk.new) }
    ensures served { X.serves index.new (D.view disk.new).size }
{
    let snapshot = tables.held.last_id.saturating_add(1);
    let roots = all_roots(alloc, &tables.names, parts)?;
    look_up_all(disk, index, &roots)?;
    let live = first_live(alloc, &roots)?;
    let sweep = begin(alloc, &tables.held, Vec::new(alloc))?;
    Ok(Collection {
        snapshot,
        percent: percent.number() as u8,
        live,
        liveness: Liveness::new(alloc),
        stage: mark_level(&tables.held, snapshot, MOST_LEVEL),
        sweep,
    })
}
