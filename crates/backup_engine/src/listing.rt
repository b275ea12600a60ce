//! Listing the names.
ghost use Rattle.std.specs.Prelude.{◌≡◌, List, []};
ghost use Rattle.dd_io.specs.Flow.{SourceView};
ghost use Rattle.dd_disk.specs.View.{IsLater};
ghost use Rattle.store_machine.specs.Commands.{Replied};
ghost use Rattle.store_core.specs.State.{IsRunning};
ghost use Rattle.backup_engine.specs.Line as table;
ghost use Rattle.backup_engine.specs.Naming.{ListRun};
ghost use Rattle.backup_engine.specs.Running.{IsFresh};
ghost use Rattle.backup_engine.specs.TopCall.{DoesCommand, ending_in};
ghost use Rattle.backup_engine.specs.Seen.{devices};

use crate::by_files::calls_run_by_files;
use crate::lent::handed_back;
use crate::putting::first;
use crate::reply::send;
use actor_parts::{Answer, SegBuf, Step};
use core_machine::an_opening_finds_its_files;
use dd_disk::Disk;
use dd_io::Sink;
use reply_text::{Ending, listing_text};
use std::alloc::Global;
use store_core::{Core, HasState};
use summary_vector::NoSummary;

/// Lists the names, and writes a line for each, and how many they are.
pub(crate) fn list_names<C: HasState, K: Sink>(
    alloc: Global,
    core: &mut C,
    buf: &mut SegBuf,
    sink: &mut K,
) -> Result<(), Ending>
    requires fresh { IsFresh (C.state core.old) }
    ensures ran { ListRun C C.state result core.old core.new (K.view sink.old) (K.view sink.new) }
    ensures running { IsRunning (C.state core.new) }
{
    let Answer::Listed { files } = core.make_step(first(), Step::List, buf)? else {
        unreachable!()
    };
    let text = listing_text(alloc, &files)?;
    send(sink, &text)
}

/// Writes a line for each name, and how many they are.
pub(crate) fn list<D: Disk, K: Sink>(
    alloc: Global,
    disk: &mut D,
    sink: &mut K,
) -> Result<(), Ending>
    ensures does { (source : SourceView) → (rs : List Replied) × DoesCommand D D.view table.List [] rs (ending_in result)
        (devices (D.view disk.old) (D.view disk.new) source source (K.view sink.old) (K.view sink.new)) }
    ensures later { IsLater (D.view disk.old) (D.view disk.new) }
{
    calls_run_by_files::<&mut D, Core<&mut D, NoSummary>>();
    an_opening_finds_its_files::<D, Core<&mut D, NoSummary>>();
    let mut buf = SegBuf::new(alloc)?;
    let mut core = match Core::open(alloc, disk, NoSummary) {
        Ok(core) => core,
        Err(refused) => {
            let refusal = refused.1;
            let _disk = handed_back(refused);
            return Err(Ending::Refused(refusal));
        }
    };
    let listed = list_names(alloc, &mut core, &mut buf, sink);
    let _disk = core.close();
    listed
}
