//! Giving a file back.
ghost use Rattle.std.specs.Prelude.{◌≡◌, List, []};
ghost use Rattle.dd_io.specs.Flow.{SourceView};
ghost use Rattle.dd_disk.specs.View.{IsLater};
ghost use Rattle.backup_engine.specs.Line.{Restore};
ghost use Rattle.store_machine.specs.Commands.{Replied};
ghost use Rattle.backup_engine.specs.TopCall.{DoesCommand, ending_in};
ghost use Rattle.backup_engine.specs.Seen.{devices};

use crate::by_files::calls_run_by_files;
use crate::giving::give_out;
use crate::lent::handed_back;
use actor_parts::SegBuf;
use core_machine::an_opening_finds_its_files;
use dd_disk::Disk;
use dd_io::Sink;
use refusals::Refusal;
use reply_text::Ending;
use std::alloc::Global;
use std::thread::Threads;
use store_core::Core;
use summary_vector::NoSummary;

/// Gives the file of a name to a sink.
pub(crate) fn restore<D: Disk, K: Sink, R: Threads + Sync>(
    rt: &R,
    alloc: Global,
    disk: &mut D,
    sink: &mut K,
    name: &str,
) -> Result<(), Ending>
    ensures does { (source : SourceView) → (rs : List Replied) × DoesCommand D D.view (Restore name.now) [] rs (ending_in result)
        (devices (D.view disk.old) (D.view disk.new) source source (K.view sink.old) (K.view sink.new)) }
    ensures later { IsLater (D.view disk.old) (D.view disk.new) }
{
    calls_run_by_files::<&mut D, Core<&mut D, NoSummary>>();
    an_opening_finds_its_files::<D, Core<&mut D, NoSummary>>();
    let Ok(mut buf) = SegBuf::new(alloc) else {
        return Err(Ending::Refused(Refusal::Memory));
    };
    let mut core = match Core::open(alloc, disk, NoSummary) {
        Ok(core) => core,
        Err(refused) => {
            let refusal = refused.1;
            let _disk = handed_back(refused);
            return Err(Ending::Refused(refusal));
        }
    };
    let given = give_out(rt, alloc, &mut core, name, &mut buf, sink);
    let _disk = core.close();
    given
}
