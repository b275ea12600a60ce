//! Taking a file in.
ghost use Rattle.std.specs.Prelude.{◌≡◌, List, ℕ};
ghost use Rattle.dd_disk.specs.View.{IsLater};
ghost use Rattle.backup_engine.specs.Line.{Ingest};
ghost use Rattle.store_machine.specs.Commands.{Replied};
ghost use Rattle.backup_engine.specs.TopCall.{DoesCommand, ending_in};
ghost use Rattle.backup_engine.specs.Seen.{devices};

use crate::by_files::calls_run_by_files;
use crate::lent::handed_back;
use crate::storing::store_source;
use core_machine::an_opening_finds_its_files;
use dd_disk::Disk;
use dd_io::{Sink, Source};
use reply_text::Ending;
use std::alloc::Global;
use std::thread::Threads;
use store_core::Core;
use summary_vector::NoSummary;

/// Stores all that the source has left under a name, and writes the reply.
pub(crate) fn ingest<D: Disk, S: Source, K: Sink, R: Threads + Sync>(
    rt: &R,
    alloc: Global,
    disk: &mut D,
    source: &mut S,
    sink: &mut K,
    name: &str,
) -> Result<(), Ending>
    ensures does { (given : List ℕ) × ((rs : List Replied) × DoesCommand D D.view (Ingest name.now) given rs (ending_in result)
        (devices (D.view disk.old) (D.view disk.new) (S.view source.old) (S.view source.new) (K.view sink.old) (K.view sink.new))) }
    ensures later { IsLater (D.view disk.old) (D.view disk.new) }
{
    calls_run_by_files::<&mut D, Core<&mut D, NoSummary>>();
    an_opening_finds_its_files::<D, Core<&mut D, NoSummary>>();
    let mut core = match Core::open(alloc, disk, NoSummary) {
        Ok(core) => core,
        Err(refused) => {
            let refusal = refused.1;
            let _disk = handed_back(refused);
            return Err(Ending::Refused(refusal));
        }
    };
    let stored = store_source(rt, alloc, &mut core, source, sink, name);
    let _disk = core.close();
    stored
}
