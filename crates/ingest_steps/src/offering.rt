//! Containers that are offered together: how many of them are sealed, and in which slots.
ghost use Rattle.std.specs.Prelude.{◌≡◌, ◌-◌, ◌<◌, ◌≤◌, ℕ, min, IfOk, IfErr};
ghost use Rattle.actor_parts.specs.declared.step.TheConstants.{MOST_TOGETHER as MOST};
ghost use Rattle.actor_parts.specs.Offers.{sealed_of};
ghost use Rattle.store_model.specs.Slots.{free_slots};
ghost use Rattle.store_state.specs.Tables.{OfEach, Runs};
ghost use Rattle.ingest_steps.specs.Offering.{HasSlots, IsRoomFor, IsSlotsRefusal};
ghost use Rattle.ingest_steps.specs.Sealing.{HasSlot};

use crate::sealing::slot_for;
use disk_format::{LAST_ID, RESERVE};
use refusals::Refusal;
use std::alloc::Global;
use store_state::Tables;

/// Containers that were sealed together.
#[derive(Clone, Copy)]
pub struct SealedTogether {
    /// The greatest of their ids: they are the next ones, in order.
    pub id: u64,
    /// How many they are: the first of those that were offered.
    pub count: usize,
}

/// How many of so many are sealed: as many as leave the slots of the reserve, and as there are ids for.
pub fn room_for(tables: &Tables, offered: usize) -> usize
    requires { (size : _) × (known : _) × Runs size known tables.now }
    ensures { IsRoomFor tables.now offered result }
{
    let slots = u64::from(tables.held.free().saturating_sub(RESERVE));
    let ids = LAST_ID.saturating_sub(tables.held.last_id);
    (offered as u64).min(slots).min(ids) as usize
}

/// The slots for containers that are offered, so many of them, in order: for as many as leave the reserve, and as there are ids for.
///
/// Refusals: `Memory`; `Full` where two slots or fewer are free, then `Numbers` where the last id was given out.
pub fn slots_for(alloc: Global, tables: &Tables, offered: usize) -> Result<Vec<u32>, Refusal>
    requires runs { (size : _) × (known : _) × Runs size known tables.now }
    requires some { 1 ≤ offered }
    requires few { offered ≤ MOST }
    ensures slots { IfOk result (λ slots. HasSlots tables.now offered slots.items) }
    ensures refused { IfErr result (λ refusal. (size : ℕ) → IsSlotsRefusal tables.now size refusal) }
{
    slot_for(tables)?;
    Ok(tables.held.first_closed(alloc, room_for(tables, offered))?)
}
