//! Deleting a name.
ghost use Rattle.std.specs.Prelude.{◌≡◌, List, []};
ghost use Rattle.dd_io.specs.Flow.{SourceView};
ghost use Rattle.dd_disk.specs.View.{IsLater};
ghost use Rattle.store_machine.specs.Commands.{Replied};
ghost use Rattle.store_core.specs.State.{IsRunning};
ghost use Rattle.backup_engine.specs.Line.{Delete};
ghost use Rattle.backup_engine.specs.Naming.{DeleteRun};
ghost use Rattle.backup_engine.specs.Running.{IsFresh};
ghost use Rattle.backup_engine.specs.TopCall.{DoesCommand, ending_in};
ghost use Rattle.backup_engine.specs.Seen.{devices};
ghost use Rattle.backup_engine.specs.Storing.{Replies};

use crate::by_files::calls_run_by_files;
use crate::lent::handed_back;
use crate::putting::first;
use crate::reply::send;
use actor_parts::{SegBuf, Step};
use core_machine::an_opening_finds_its_files;
use dd_disk::Disk;
use dd_io::Sink;
use reply_text::{Ending, deleted_line};
use std::alloc::Global;
use store_core::{Core, HasState};
use summary_vector::NoSummary;

/// Deletes a name, and writes the reply, which was made before.
pub(crate) fn delete_name<C: HasState, K: Sink>(
    core: &mut C,
    name: &str,
    reply: &[u8],
    buf: &mut SegBuf,
    sink: &mut K,
) -> Result<(), Ending>
    requires fresh { IsFresh (C.state core.old) }
    ensures ran { DeleteRun C C.state name.now
        (λ deleted. Replies reply.now deleted result (K.view sink.old) (K.view sink.new)) core.old core.new }
    ensures running { IsRunning (C.state core.new) }
{
    let step = Step::Delete {
        name: name.as_bytes(),
    };
    core.make_step(first(), step, buf)?;
    send(sink, reply)
}

/// Deletes a name, and writes the reply.
pub(crate) fn delete<D: Disk, K: Sink>(
    alloc: Global,
    disk: &mut D,
    sink: &mut K,
    name: &str,
) -> Result<(), Ending>
    ensures does { (source : SourceView) → (rs : List Replied) × DoesCommand D D.view (Delete name.now) [] rs (ending_in result)
        (devices (D.view disk.old) (D.view disk.new) source source (K.view sink.old) (K.view sink.new)) }
    ensures later { IsLater (D.view disk.old) (D.view disk.new) }
{
    calls_run_by_files::<&mut D, Core<&mut D, NoSummary>>();
    an_opening_finds_its_files::<D, Core<&mut D, NoSummary>>();
    // All memory is taken before the store is opened, so that a name that is deleted is replied to.
    let reply = deleted_line(alloc, name.as_bytes())?;
    let mut buf = SegBuf::new(alloc)?;
    let mut core = match Core::open(alloc, disk, NoSummary) {
        Ok(core) => core,
        Err(refused) => {
            let refusal = refused.1;
            let _disk = handed_back(refused);
            return Err(Ending::Refused(refusal));
        }
    };
    let deleted = delete_name(&mut core, name, &reply, &mut buf, sink);
    let _disk = core.close();
    deleted
}
