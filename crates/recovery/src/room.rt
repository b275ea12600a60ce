//! Room made where too few slots are closed: containers that no name needs are given back.
ghost use Rattle.std.specs.Prelude.{◌≡◌, ◌≤◌, length, IfOk, IfErr, IsTrue, OnOk};
ghost use Rattle.dd_disk.specs.Ending.{ending, Reads};
ghost use Rattle.dd_disk.specs.View.{IsDurable};
ghost use Rattle.disk_format.specs.Layout.{size_of};
ghost use Rattle.namespace.specs.Listing.{listing_of};
ghost use Rattle.segment_index.specs.Places.{HasPlaces};
ghost use Rattle.store_model.specs.Image.{Store, IsValidFor};
ghost use Rattle.store_model.specs.Slots.{free_slots};
ghost use Rattle.store_state.specs.Refused.{blames, fails};
ghost use Rattle.store_state.specs.State.{Represents};
ghost use Rattle.read_steps.specs.Trees.{AllHeld, IsTreesRefusal, WhereHeld};
ghost use Rattle.recovery.specs.Marking.{MarksFor};
ghost use Rattle.recovery.specs.Making.{IsRead, MakesRoom, MakesNoRoom};

use crate::freeing::give_back;
use crate::marks::Marks;
use dd_disk::Disk;
use disk_format::MOST_SEGMENT;
use namespace::Names;
use read_steps::walk_trees;
use refusals::Refusal;
use segment_index::StoreIndex;
use std::alloc::Global;
use store_state::OpenStore;

// Which slots hold what a name's file needs.
fn mark_needed<D: Disk>(
    alloc: Global,
    disk: &mut D,
    index: &mut StoreIndex,
    names: &Names,
    slots: u32,
) -> Result<Vec<bool>, Refusal>
    requires serves { HasPlaces (D.view disk.old).size index.old }
    requires slots { (D.view disk.old).size ≡ size_of slots }
    ensures marks { IfOk result (λ used. MarksFor index.old (D.view disk.old) (D.view disk.new) (listing_of names.now) used.items) }
    ensures size { IfOk result (λ used. length used.items ≡ slots) }
    ensures refused { IfErr result (IsTreesRefusal index.old (D.view disk.old) (D.view disk.new) (listing_of names.now)) }
    ensures failed { IfErr result (λ refusal. WhereHeld index.old (D.view disk.old).content
        (λ counts held image. AllHeld counts held image (listing_of names.now)) (λ _ _ _. IsTrue (fails refusal))) }
    ensures reads { Reads (ending blames result) (D.view disk.old) (D.view disk.new) }
{
    let files = names.files(alloc)?;
    let mut marks = Marks::new(alloc, slots)?;
    let mut buf = vec![in alloc; 0u8; MOST_SEGMENT as usize]?;
    walk_trees(
        alloc,
        disk,
        index,
        files.names(),
        &mut marks,
        buf.as_mut_slice(),
    )?;
    Ok(marks.into_slots())
}

/// Gives back containers that no name needs, the one of the least id first, until two slots are closed or no such is left:
/// the trees of all names are walked before. `closed` slots of the store are closed. All memory is taken before a container
/// is given back.
///
/// Refusals: `Memory`, those of `read_steps::visit`, and `DiskWrite`.
pub(crate) fn make_room<D: Disk>(
    alloc: Global,
    disk: &mut D,
    opened: OpenStore,
    closed: u32,
) -> Result<(), Refusal>
    requires read { IsRead (D.view disk.old).size opened }
    requires durable { IsDurable (D.view disk.old) }
    ensures made { OnOk result ((store : Store) → Represents store opened → IsValidFor (D.view disk.old).size store
        → closed ≡ free_slots store.held → MakesRoom store opened.containers.index (D.view disk.old) (D.view disk.new)) }
    ensures unmade { IfErr result (λ refusal. (store : Store) → Represents store opened → IsValidFor (D.view disk.old).size store
        → closed ≡ free_slots store.held → MakesNoRoom store opened.containers.index refusal (D.view disk.old) (D.view disk.new)) }
{
    let containers = opened.containers;
    let mut index = containers.index;
    let mut ids = containers.ids;
    let used = mark_needed(alloc, disk, &mut index, &opened.names, opened.slots)?;
    give_back(disk, ids.as_mut_slice(), &used, closed)
}
