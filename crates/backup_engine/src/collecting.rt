//! A whole collection.
ghost use Rattle.std.specs.Prelude.{◌≡◌, List, []};
ghost use Rattle.dd_io.specs.Flow.{SourceView};
ghost use Rattle.dd_disk.specs.View.{IsLater};
ghost use Rattle.store_machine.specs.Commands.{Replied};
ghost use Rattle.store_core.specs.State.{IsRunning};
ghost use Rattle.backup_engine.specs.Collecting.{CollectRun};
ghost use Rattle.backup_engine.specs.Line.{Collect};
ghost use Rattle.backup_engine.specs.Running.{IsFresh};
ghost use Rattle.backup_engine.specs.TopCall.{DoesCommand, ending_in};
ghost use Rattle.backup_engine.specs.Seen.{devices};

use crate::by_files::calls_run_by_files;
use crate::lent::handed_back;
use crate::reply::send;
use actor_parts::{Percent, SegBuf};
use core_machine::an_opening_finds_its_files;
use dd_disk::Disk;
use dd_io::Sink;
use reply_text::Ending;
use script_lines::print_reply;
use script_runner::{begin_collection, sweep};
use std::alloc::Global;
use store_core::{Core, HasState};
use summary_vector::NoSummary;

/// Begins a collection, makes all of its steps, and writes how many containers were given back and how many segments copied.
pub(crate) fn collect_all<C: HasState, K: Sink>(
    alloc: Global,
    core: &mut C,
    percent: Percent,
    buf: &mut SegBuf,
    sink: &mut K,
) -> Result<(), Ending>
    requires fresh { IsFresh (C.state core.old) }
    ensures ran { CollectRun C C.state percent result core.old core.new (K.view sink.old) (K.view sink.new) }
    ensures running { IsRunning (C.state core.new) }
{
    begin_collection(core, percent, buf)?;
    let swept = sweep(core, buf);
    match &swept {
        Ok(reply) => {
            let text = print_reply(alloc, reply)?;
            send(sink, &text)
        }
        Err(refusal) => Err(Ending::Refused(*refusal)),
    }
}

/// Makes a whole collection, and writes the reply.
pub(crate) fn collect<D: Disk, K: Sink>(
    alloc: Global,
    disk: &mut D,
    sink: &mut K,
    percent: Percent,
) -> Result<(), Ending>
    ensures does { (source : SourceView) → (rs : List Replied) × DoesCommand D D.view (Collect percent) [] rs (ending_in result)
        (devices (D.view disk.old) (D.view disk.new) source source (K.view sink.old) (K.view sink.new)) }
    ensures later { IsLater (D.view disk.old) (D.view disk.new) }
{
    calls_run_by_files::<&mut D, Core<&mut D, NoSummary>>();
    an_opening_finds_its_files::<D, Core<&mut D, NoSummary>>();
    let mut buf = SegBuf::new(alloc)?;
    let mut core = match Core::open(alloc, disk, NoSummary) {
        Ok(core) => core,
        Err(refused) => {
            let refusal = refused.1;
            let _disk = handed_back(refused);
            return Err(Ending::Refused(refusal));
        }
    };
    let collected = collect_all(alloc, &mut core, percent, &mut buf, sink);
    let _disk = core.close();
    collected
}
