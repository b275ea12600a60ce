//! The next step of a collection.
ghost use Rattle.std.specs.Prelude.{◌≡◌, ◌≤◌, ℕ, length};
ghost use Rattle.dd_disk.specs.Ending.{ending};
ghost use Rattle.disk_format.specs.declared.numbers.TheConstants.{MOST_SEGMENT};
ghost use Rattle.store_state.specs.Refused.{blames};
ghost use Rattle.store_state.specs.Tables.{Runs};
ghost use Rattle.gc_sweep.specs.declared.sweep.Next.TheVariants.{Release as ReleaseNext};
ghost use Rattle.gc_steps.specs.Stepping.{Ends, GoesBy, moment};
ghost use Rattle.gc_steps.specs.UnderWay.{IsUnderWay};
ghost use Rattle.gc_steps.specs.declared.collection.Stage.TheVariants.{Sweep as SweepStage};

use crate::collection::{Collection, Stage};
use crate::filtering::{choose_sources, record_container};
use crate::marking::mark_container;
use crate::phase::StepDone;
use crate::sweeping::sweep_on;
use dd_disk::Disk;
use refusals::{Phase, Refusal};
use segment_index::Index;
use std::alloc::Global;
use store_state::Tables;

/// Does the next step of a collection, and says which it was; at the end it does nothing, and answers how many sources were given
/// back and how many segments were copied. `buf` has room for a segment, and may hold anything then. Each kind of step has its
/// refusals; they leave the tables as they were, and the collection too, but that after `Memory` in a mark step some children may be
/// live.
pub fn step<D: Disk, X: Index>(
    alloc: Global,
    disk: &mut D,
    tables: &mut Tables,
    index: &mut X,
    collection: &mut Collection,
    buf: &mut [u8],
) -> Result<StepDone, Refusal>
    requires serves { X.serves index.old (D.view disk.old).size }
    requires runs { (known : _) × Runs (D.view disk.old).size known tables.old }
    requires under_way { IsUnderWay tables.old.held collection.old }
    requires room { MOST_SEGMENT ≤ length buf.old }
    ensures step { Ends result (moment tables.old (X.places index.old (D.view disk.old).content) (D.view disk.old) collection.old)
        (moment tables.new (X.places index.new (D.view disk.new).content) (D.view disk.new) collection.new) }
    ensures disk { GoesBy collection.old tables.old (ending blames result) (D.view disk.old) (D.view disk.new) }
    ensures under_way { IsUnderWay tables.new.held collection.new }
    // The index isn't asked where containers are given back.
    ensures index { (source entry : ℕ) → collection.old.stage ≡ SweepStage → collection.old.sweep.next ≡ ReleaseNext source entry
        → index.new ≡ index.old }
    ensures served { X.serves index.new (D.view disk.new).size }
    ensures size { length buf.new ≡ length buf.old }
{
    match collection.stage {
        Stage::Mark { level, slot } => {
            mark_container(alloc, disk, tables, index, collection, level, slot, buf)?;
            Ok(StepDone::Did(Phase::Mark))
        }
        Stage::Filter { slot } => {
            record_container(alloc, disk, tables, index, collection, slot)?;
            Ok(StepDone::Did(Phase::Filter))
        }
        Stage::Select => {
            choose_sources(alloc, tables, collection)?;
            Ok(StepDone::Did(Phase::Select))
        }
        Stage::Sweep => sweep_on(alloc, disk, tables, index, collection, buf),
    }
}
