//! A step that gives back all sources that are ready.
ghost use Rattle.std.specs.Prelude.{◌≡◌, ◌+◌, ◌^◌, ◌<◌, ◌≤◌, ℕ, length, get_or, Contains, OnOk, OnErr, IfErr};
ghost use Rattle.dd_disk.specs.Ending.{ending};
ghost use Rattle.dd_disk.specs.Moves.{Acts};
ghost use Rattle.disk_format.specs.declared.numbers.TheConstants.{MOST_SLOTS as MANY};
ghost use Rattle.refusals.specs.declared.refusal.Refusal.TheVariants.{DiskWrite};
ghost use Rattle.store_state.specs.Refused.{blames};
ghost use Rattle.store_state.specs.Tables.{Runs};
ghost use Rattle.gc_sweep.specs.Releasing.{GivesBack, ChangesGatesAlone};
ghost use Rattle.gc_sweep.specs.Ready.{HasReleased, ReleasesReady};
ghost use Rattle.gc_sweep.specs.UnderWay.{IsSweeping};
ghost use Rattle.gc_sweep.specs.declared.sweep.Next.TheVariants.{Release as ReleaseNext};

use crate::giving_back::give_back_all;
use crate::next::next_step;
use crate::sweep::Sweep;
use dd_disk::Disk;
use refusals::Refusal;
use store_state::{SlotTable, Tables};

// Notes in a sweep that all sources that are ready were given back.
fn take_released(held: &SlotTable, sweep: &mut Sweep, source: usize, entry: usize)
    requires few_freed { sweep.old.freed + length sweep.old.ready.items < 2 ^ 64 }
    requires there { source < length sweep.old.sources.items → Contains held.now.ids.items (get_or sweep.old.sources.items source 0) }
    requires few { length held.now.ids.items ≤ MANY }
    requires counts { length held.now.counts.items ≡ length held.now.ids.items }
    ensures { HasReleased held.now source entry sweep.old sweep.new }
{
    sweep.freed += sweep.ready.len();
    sweep.ready.clear();
    sweep.next = next_step(held, &sweep.sources, &sweep.buffer, source, entry);
}

/// Gives back all sources that are ready, in whose slots the index has no entry; `source` and `entry` are those of what came next.
/// The one refusal is `DiskWrite`, which leaves tables and sweep as they were.
pub fn release_ready<D: Disk>(
    disk: &mut D,
    tables: &mut Tables,
    sweep: &mut Sweep,
    source: usize,
    entry: usize,
) -> Result<(), Refusal>
    requires runs { (known : _) × Runs (D.view disk.old).size known tables.old }
    requires under_way { (snapshot : ℕ) × IsSweeping tables.old.held snapshot sweep.old }
    requires next { sweep.old.next ≡ ReleaseNext source entry }
    ensures ok { OnOk result (ReleasesReady tables.old tables.new source entry sweep.old sweep.new (D.view disk.new)) }
    ensures under_way { (snapshot : ℕ)
        → IsSweeping tables.old.held snapshot sweep.old → IsSweeping tables.new.held snapshot sweep.new }
    ensures tables_kept { OnErr result (tables.new ≡ tables.old) }
    ensures kept { OnErr result (sweep.new ≡ sweep.old) }
    ensures refused { IfErr result (λ refusal. refusal ≡ DiskWrite) }
    ensures disk { Acts (ending blames result) (D.view disk.old) (D.view disk.new) }
    ensures moves { GivesBack tables.old sweep.old.ready.items (ending blames result) (D.view disk.old) (D.view disk.new) }
    ensures frame { ChangesGatesAlone sweep.old.ready.items (ending blames result) (D.view disk.old) (D.view disk.new) }
{
    give_back_all(disk, tables, &sweep.ready)?;
    take_released(&tables.held, sweep, source, entry);
    Ok(())
}
