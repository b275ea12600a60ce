//! What comes next in a sweep.
ghost use Rattle.std.specs.Prelude.{◌≡◌, ◌↔◌, ◌<◌, ◌≤◌, IsTrue, length, get_or, Some, Contains};
ghost use Rattle.disk_format.specs.declared.numbers.TheConstants.{MOST_SLOTS as MANY};
ghost use Rattle.gc_sweep.specs.Next.{IsNext, kind_in};

use crate::sweep::Next;
use container_meta::{Kind, OpenContainer};
use copy_forward::same_kind;
use store_state::SlotTable;

/// The slot of the container of an id.
pub(crate) fn slot_of(held: &SlotTable, id: u64) -> u32
    requires there { Contains held.now.ids.items id }
    requires few { length held.now.ids.items ≤ MANY }
    ensures within { result < length held.now.ids.items }
    ensures id { get_or held.now.ids.items result 0 ≡ id }
{
    match held.ids.iter().position(|other| *other == id) {
        Some(slot) => slot as u32,
        // It is there.
        None => unreachable!(),
    }
}

/// The kind of the segments of a slot's container.
pub(crate) fn kind_of_slot(held: &SlotTable, slot: u32) -> Kind
    requires { slot < length held.now.counts.items }
    ensures { Some result ≡ kind_in held.now slot }
{
    held.counts[slot as usize].kind
}

/// What comes next where no source is ready, and the source of a number is to go on from the entry of a number.
pub(crate) fn next_step(
    held: &SlotTable,
    sources: &[u64],
    buffer: &OpenContainer,
    source: usize,
    entry: usize,
) -> Next
    requires there { source < length sources.now → Contains held.now.ids.items (get_or sources.now source 0) }
    requires few { length held.now.ids.items ≤ MANY }
    requires counts { length held.now.counts.items ≡ length held.now.ids.items }
    ensures { IsNext held.now sources.now buffer.now source entry result }
{
    if source >= sources.len() {
        return if buffer.is_empty() {
            Next::End
        } else {
            Next::Flush { source, entry }
        };
    }
    let slot = slot_of(held, sources[source]);
    if buffer.is_empty() || same_kind(kind_of_slot(held, slot), buffer.kind()) {
        Next::Copy { source, entry }
    } else {
        Next::Flush { source, entry }
    }
}
