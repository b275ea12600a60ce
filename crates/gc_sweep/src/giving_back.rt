//! Containers are given back: their slots are closed.
ghost use Rattle.std.specs.Prelude.{◌≡◌, ◌≢◌, ◌<◌, ◌≤◌, ℕ, length, get_or, nat_eq, OnOk, OnErr, IfErr};
ghost use Rattle.std.specs.List.{AllByRecursion, IsDistinct};
ghost use Rattle.container_log.specs.Many.{AreApart, FreesAll, AreFreed};
ghost use Rattle.dd_disk.specs.Ending.{ending};
ghost use Rattle.dd_disk.specs.Moves.{Acts};
ghost use Rattle.dd_disk.specs.View.{IsDurable};
ghost use Rattle.dd_disk.specs.Writes.{Writes};
ghost use Rattle.refusals.specs.declared.refusal.Refusal.TheVariants.{DiskWrite};
ghost use Rattle.store_state.specs.Refused.{blames};
ghost use Rattle.store_state.specs.Tables.{Runs};
ghost use Rattle.gc_sweep.specs.Releasing.{HasFreed, GivesBack, ChangesGatesAlone};

use container_log::{free_all, freed_one_by_one};
use dd_disk::Disk;
use refusals::Refusal;
use store_state::Tables;

// Closes slots, by one sync.
fn close_all<D: Disk>(disk: &mut D, slots: &[u32]) -> Result<(), Refusal>
    requires { AreApart (D.view disk.old).size slots.now }
    ensures writes { Writes (λ _. FreesAll slots.now) (AreFreed slots.now) (ending blames result) (D.view disk.old) (D.view disk.new) }
    ensures refused { IfErr result (λ refusal. refusal ≡ DiskWrite) }
{
    match free_all(disk, slots) {
        Ok(()) => Ok(()),
        // Slots are closed by writes alone.
        Err(_) => Err(Refusal::DiskWrite),
    }
}

// Notes in the tables that slots were closed.
fn take_closed(tables: &mut Tables, slots: &[u32])
    requires runs { (size : _) × (known : _) × Runs size known tables.old }
    requires within { AllByRecursion (λ slot. slot < length tables.old.held.ids.items) slots.now }
    ensures { HasFreed tables.old slots.now tables.new }
{
    for index in 0..slots.len() {
        tables.held.give_back(slots[index]);
    }
}

/// Gives back the containers in these slots, in which the index has no entry: a 0 over each gate, in their order, and one sync. The one
/// refusal is `DiskWrite`, which leaves the tables as they were.
pub(crate) fn give_back_all<D: Disk>(
    disk: &mut D,
    tables: &mut Tables,
    slots: &[u32],
) -> Result<(), Refusal>
    requires runs { (known : _) × Runs (D.view disk.old).size known tables.old }
    requires within { AllByRecursion (λ slot. slot < length tables.old.held.ids.items) slots.now }
    requires there { AllByRecursion (λ slot. get_or tables.old.held.ids.items slot 0 ≢ 0) slots.now }
    requires once { IsDistinct nat_eq slots.now }
    ensures ok { OnOk result (HasFreed tables.old slots.now tables.new) }
    ensures unchanged { OnErr result (tables.new ≡ tables.old) }
    ensures refused { IfErr result (λ refusal. refusal ≡ DiskWrite) }
    ensures durable { OnOk result (IsDurable (D.view disk.new)) }
    ensures disk { Acts (ending blames result) (D.view disk.old) (D.view disk.new) }
    ensures moves { GivesBack tables.old slots.now (ending blames result) (D.view disk.old) (D.view disk.new) }
    ensures frame { ChangesGatesAlone slots.now (ending blames result) (D.view disk.old) (D.view disk.new) }
{
    freed_one_by_one();
    close_all(disk, slots)?;
    take_closed(tables, slots);
    Ok(())
}
