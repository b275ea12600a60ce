//! The containers that a collection goes over, in the order of their slots, and what comes after one.
ghost use Rattle.std.specs.Prelude.{◌≡◌, ◌<◌, ◌≤◌, length, get_or, slice_get, Some};
ghost use Rattle.disk_format.specs.declared.numbers.TheConstants.{MOST_SLOTS as MANY};
ghost use Rattle.container_meta.specs.Format.{kind_byte};
ghost use Rattle.gc_steps.specs.Stages.{first_slot, is_old_slot, is_tree, is_tree_slot};
ghost use Rattle.gc_steps.specs.Stages.{filter_from as filter_stage, mark_from as mark_stage, mark_level as level_stage};

use crate::collection::Stage;
use container_meta::Kind;
use store_state::SlotTable;

// Whether a slot has a container that was there when the collection began.
fn is_old(held: &SlotTable, snapshot: u64, slot: u32) -> bool
    requires { slot < length held.now.ids.items }
    ensures { result ≡ is_old_slot snapshot held.now slot }
{
    let id = held.ids[slot as usize];
    id != 0 && id < snapshot
}

// Whether the segments of a slot's container are those of trees.
fn holds_trees(held: &SlotTable, slot: u32) -> bool
    requires { slot < length held.now.counts.items }
    ensures { result ≡ is_tree (slice_get held.now.counts.items slot) }
{
    matches!(held.counts[slot as usize].kind, Kind::Tree)
}

// Whether it is one of a tree.
fn is_old_tree(held: &SlotTable, snapshot: u64, slot: u32) -> bool
    requires ids { slot < length held.now.ids.items }
    requires counts { slot < length held.now.counts.items }
    ensures { result ≡ is_tree_slot snapshot held.now slot }
{
    is_old(held, snapshot, slot) && holds_trees(held, slot)
}

// The first slot, from one on, with a container that was there when the collection began.
fn next_old(held: &SlotTable, snapshot: u64, from: u32) -> Option<u32>
    requires { length held.now.ids.items ≤ MANY }
    ensures { result ≡ first_slot held.now (is_old_slot snapshot held.now) from }
{
    for slot in from..held.ids.len() as u32 {
        if is_old(held, snapshot, slot) {
            return Some(slot);
        }
    }
    None
}

// The first slot, from one on, with a tree container that was there.
fn next_tree(held: &SlotTable, snapshot: u64, from: u32) -> Option<u32>
    requires ids { length held.now.ids.items ≤ MANY }
    requires counts { length held.now.counts.items ≡ length held.now.ids.items }
    ensures { result ≡ first_slot held.now (is_tree_slot snapshot held.now) from }
{
    for slot in from..held.ids.len() as u32 {
        if is_old_tree(held, snapshot, slot) {
            return Some(slot);
        }
    }
    None
}

/// What comes next where the containers from a slot on are to be filtered.
pub(crate) fn filter_from(held: &SlotTable, snapshot: u64, from: u32) -> Stage
    requires { length held.now.ids.items ≤ MANY }
    ensures { result ≡ filter_stage snapshot held.now from }
{
    match next_old(held, snapshot, from) {
        Some(slot) => Stage::Filter { slot },
        None => Stage::Select,
    }
}

/// What comes next where a level is to be marked, and those below it.
pub(crate) fn mark_level(held: &SlotTable, snapshot: u64, level: u8) -> Stage
    requires ids { length held.now.ids.items ≤ MANY }
    requires counts { length held.now.counts.items ≡ length held.now.ids.items }
    ensures { result ≡ level_stage snapshot held.now level }
{
    if level == 0 {
        return filter_from(held, snapshot, 0);
    }
    match next_tree(held, snapshot, 0) {
        Some(slot) => Stage::Mark { level, slot },
        None => filter_from(held, snapshot, 0),
    }
}

/// What comes next where a level is to be marked in the tree containers from a slot on, and the levels below it in all.
pub(crate) fn mark_from(held: &SlotTable, snapshot: u64, level: u8, from: u32) -> Stage
    requires ids { length held.now.ids.items ≤ MANY }
    requires counts { length held.now.counts.items ≡ length held.now.ids.items }
    requires level { 1 ≤ level }
    ensures { result ≡ mark_stage snapshot held.now level from }
{
    match next_tree(held, snapshot, from) {
        Some(slot) => Stage::Mark { level, slot },
        None => mark_level(held, snapshot, level - 1),
    }
}
