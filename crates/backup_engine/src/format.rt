//! Making an empty store.
ghost use Rattle.std.specs.Prelude.{◌≡◌, []};
ghost use Rattle.dd_io.specs.Flow.{SourceView};
ghost use Rattle.dd_disk.specs.View.{IsLater};
ghost use Rattle.disk_format.specs.Layout.{IsSlotCount};
ghost use Rattle.backup_engine.specs.Line.{Format};
ghost use Rattle.backup_engine.specs.TopCall.{Keeps, ending_in};
ghost use Rattle.backup_engine.specs.Seen.{devices};

use crate::reply::send;
use dd_disk::Disk;
use dd_io::Sink;
use reply_text::{Ending, formatted_line};
use std::alloc::Global;

/// Makes an empty store of so many slots, on a disk of their size that has none, and writes the reply.
pub(crate) fn format<D: Disk, K: Sink>(
    alloc: Global,
    disk: &mut D,
    sink: &mut K,
    slots: u32,
) -> Result<(), Ending>
    requires { IsSlotCount slots }
    ensures keeps { (source : SourceView) → Keeps (Format slots) [] (ending_in result)
        (devices (D.view disk.old) (D.view disk.new) source source (K.view sink.old) (K.view sink.new)) }
    ensures later { IsLater (D.view disk.old) (D.view disk.new) }
{
    // Its memory is taken before the first write.
    let reply = formatted_line(alloc, slots)?;
    match recovery::format(alloc, disk, slots) {
        Ok(()) => send(sink, &reply),
        Err(refusal) => Err(Ending::Refused(refusal)),
    }
}
