//! A sweep begins.
ghost use Rattle.std.specs.Prelude.{◌≡◌, ◌<◌, ◌≤◌, ℕ, length, get_or, Contains, IfOk, nat_eq};
ghost use Rattle.std.specs.List.{IsDistinct};
ghost use Rattle.disk_format.specs.declared.numbers.TheConstants.{MOST_SLOTS as MANY, RESERVE};
ghost use Rattle.gc_sweep.specs.Beginning.{Begins};
ghost use Rattle.gc_sweep.specs.UnderWay.{AreLeft, IsSweeping, free_in};

use crate::next::next_step;
use crate::sweep::Sweep;
use container_meta::{Kind, OpenContainer};
use std::alloc::{AllocError, Global};
use store_state::SlotTable;

/// A sweep of containers that begins: of their ids, in this order.
pub fn begin(alloc: Global, held: &SlotTable, sources: Vec<u64>) -> Result<Sweep, AllocError>
    requires there { 0 < length sources.items → Contains held.now.ids.items (get_or sources.items 0 0) }
    requires few { length held.now.ids.items ≤ MANY }
    requires counts { length held.now.counts.items ≡ length held.now.ids.items }
    ensures begun { IfOk result (Begins held.now sources.items) }
    ensures under_way { IfOk result (λ sweep. (snapshot : ℕ) → IsDistinct nat_eq sources.items → length sources.items ≤ MANY
        → AreLeft held.now snapshot sources.items 0 → RESERVE ≤ free_in held.now → IsSweeping held.now snapshot sweep) }
{
    // An empty container may be filled with either kind.
    let buffer = OpenContainer::new(alloc, Kind::Leaf)?;
    let next = next_step(held, &sources, &buffer, 0, 0);
    Ok(Sweep {
        sources,
        buffer,
        waiting: Vec::new(alloc),
        ready: Vec::new(alloc),
        next,
        freed: 0,
        copied: 0,
    })
}
