//! Inspecting the disk: docs/FORMAT.md, 'Check'.
ghost use Rattle.dd_disk.specs.Ending.{Reads};
ghost use Rattle.reply_text.specs.Text.{damage_line};
ghost use Rattle.backup_engine.specs.AnyDisk.{disk_ending};
ghost use Rattle.backup_engine.specs.Checking.{Checks, cause_in};

use dd_disk::Disk;
use dd_io::{Sink, SinkFault};
use inspection::{Damage, SpellsDamage};
use recovery::{Uninspected, inspect};
use reply_text::{Ending, write_checked, write_damage};
use std::alloc::Global;
use std::thread::Threads;

/// Each damage has a line.
struct DamageLines;

impl SpellsDamage for DamageLines {
    ghost line = { damage_line };

    fn write<K: Sink>(sink: &mut K, damage: &Damage) -> Result<(), SinkFault> {
        write_damage(sink, damage)
    }
}

/// Inspects all of the disk, and writes a line for each damage as it is found, and then how much was seen. It answers the exit status: 0,
/// or 7 where anything breaks the format.
pub(crate) fn check<D: Disk, K: Sink, R: Threads + Sync>(
    rt: &R,
    alloc: Global,
    disk: &mut D,
    sink: &mut K,
) -> Result<u8, Ending>
    ensures checks { Checks result (D.view disk.old) (D.view disk.new) (K.view sink.old) (K.view sink.new) }
    ensures reads { Reads (disk_ending (cause_in result)) (D.view disk.old) (D.view disk.new) }
{
    let tally = match inspect::<D, K, DamageLines, R>(rt, alloc, disk, sink) {
        Ok(tally) => tally,
        Err(Uninspected::Refused(refusal)) => return Err(Ending::Refused(refusal)),
        Err(Uninspected::Untaken) => return Err(Ending::Sink),
    };
    match write_checked(sink, tally.cells, tally.copies, tally.bad) {
        Ok(()) if tally.bad == 0 => Ok(0),
        Ok(()) => Ok(7),
        Err(SinkFault) => Err(Ending::Sink),
    }
}
