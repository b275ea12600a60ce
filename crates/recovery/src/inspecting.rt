//! Inspecting a disk: docs/FORMAT.md, 'Check'.
ghost use Rattle.std.specs.Prelude.{◌≡◌, OnOk, IfOk, IfErr};
ghost use Rattle.dd_disk.specs.Ending.{ending, Reads};
ghost use Rattle.disk_format.specs.Layout.{IsSlotCount, size_of as size_for};
ghost use Rattle.inspection.specs.Found.{nothing};
ghost use Rattle.inspection.specs.Handing.{blames, Finds, StopsAmong};
ghost use Rattle.recovery.specs.Inspecting.{image_found, nothing_counted as none_counted, IsInspected, IsUninspected, ended_by as ending_of_halt, blamed};

use crate::opening::read_format;
use container_log::inspect_slots;
use dd_disk::Disk;
use dd_io::Sink;
use inspection::{Halt, SpellsDamage, Tally, add_cell};
use journal_cells::inspect_journal;
use refusals::Refusal;
use std::alloc::Global;
use std::thread::Threads;

/// Why a disk was not inspected to the end.
#[derive(Clone, Copy)]
pub enum Uninspected {
    /// The format cell was refused, memory ran out, or a call of the disk failed.
    Refused(Refusal),
    /// A damage was not taken.
    Untaken,
}

// How a halt is answered.
fn ended_by(halt: Halt) -> Uninspected
    ensures { result ≡ ending_of_halt halt }
{
    match halt {
        Halt::Memory => Uninspected::Refused(Refusal::Memory),
        Halt::DiskRead => Uninspected::Refused(Refusal::DiskRead),
        Halt::Untaken => Uninspected::Untaken,
    }
}

fn nothing_counted() -> Tally
    ensures { result ≡ none_counted }
{
    Tally {
        cells: 0,
        copies: 0,
        bad: 0,
    }
}

// The format cell, which is right, is counted; then come the journal and the slots.
fn inspect_parts<D: Disk, K: Sink, S: SpellsDamage, R: Threads + Sync>(
    rt: &R,
    alloc: Global,
    disk: &mut D,
    sink: &mut K,
    tally: &mut Tally,
    slots: u32,
) -> Result<(), Halt>
    requires count { IsSlotCount slots }
    requires size { (D.view disk.old).size ≡ size_for slots }
    ensures found { OnOk result (Finds S.line (image_found slots) (λ image. nothing)
        (D.view disk.old) (D.view disk.new) (K.view sink.old, tally.old) (K.view sink.new, tally.new)) }
    ensures stopped { IfErr result (StopsAmong S.line (image_found slots)
        (D.view disk.old) (D.view disk.new) (K.view sink.old) (K.view sink.new)) }
    ensures reads { Reads (ending blames result) (D.view disk.old) (D.view disk.new) }
{
    add_cell::<K, S>(sink, tally, &None)?;
    inspect_journal::<D, K, S>(alloc, disk, sink, tally)?;
    inspect_slots::<D, K, S, R>(rt, alloc, disk, sink, tally, slots)
}

/// Looks at all of a disk that has a format, and hands on what breaks it, as it is found; it answers how many open cells and headers and
/// how many entries it saw, and how many of the damages there are.
///
/// The format cell comes first, with the refusals of an opening; then both selectors where they are open, the records of each half
/// whose selector is open, and the container slots, the digests of whose copies are taken by several threads. It writes nothing. It takes
/// memory for the names of one half of the journal, for one slot with its entries, for the copies of some slots, and for an id for each
/// slot.
pub fn inspect<D: Disk, K: Sink, S: SpellsDamage, R: Threads + Sync>(
    rt: &R,
    alloc: Global,
    disk: &mut D,
    sink: &mut K,
) -> Result<Tally, Uninspected>
    ensures done { IfOk result (IsInspected S.line (D.view disk.old) (D.view disk.new) (K.view sink.old) (K.view sink.new)) }
    ensures stopped { IfErr result (IsUninspected S.line (D.view disk.old) (D.view disk.new) (K.view sink.old) (K.view sink.new)) }
    ensures reads { Reads (ending blamed result) (D.view disk.old) (D.view disk.new) }
{
    let slots = match read_format(disk) {
        Ok(slots) => slots,
        Err(refusal) => return Err(Uninspected::Refused(refusal)),
    };
    let mut tally = nothing_counted();
    match inspect_parts::<D, K, S, R>(rt, alloc, disk, sink, &mut tally, slots) {
        Ok(()) => Ok(tally),
        Err(halt) => Err(ended_by(halt)),
    }
}
