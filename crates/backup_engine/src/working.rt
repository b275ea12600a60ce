//! Workers that store generated files.
ghost use Rattle.std.specs.Prelude.{◌≡◌, IfOk, Option};
ghost use Rattle.dd_io.specs.Flow.{SourceView};
ghost use Rattle.dd_disk.specs.View.{IsLater};
ghost use Rattle.backup_engine.specs.LineValue.{IsRightLoad, load_value};
ghost use Rattle.backup_engine.specs.Seen.{devices};
ghost use Rattle.backup_engine.specs.TopCall.{RunsWork, ending_in};
ghost use Rattle.backup_engine.specs.Working.{Prints, Ran, plan_of, told_by};

use crate::by_files::calls_run_by_files;
use crate::lent::handed_back;
use crate::load_words::Load;
use crate::reply::send;
use actor_parts::SegBuf;
use core_machine::{an_opening_finds_its_files, an_opening_is_the_machines};
use dd_disk::Disk;
use dd_io::Sink;
use ingest_workers::{Gate, Job};
use refusals::Refusal;
use reply_text::{Ending, summary_text};
use shared_work::{
    Finished, Summary, a_work_is_a_run, a_work_is_complete, a_work_leaves_its_files, work_through,
};
use std::alloc::{AllocError, Global};
use std::sync::Wait;
use std::thread::Threads;
use store_core::Core;
use summary_vector::NoSummary;

// A job for each file.
fn jobs_for(alloc: Global, load: &Load) -> Result<Vec<Job>, AllocError>
    requires right { IsRightLoad load.now }
    ensures { IfOk result (λ jobs. jobs.items ≡ (plan_of (load_value load.now)).jobs) }
{
    let mut jobs = Vec::with_capacity(alloc, load.files as usize)?;
    for number in 0..load.files {
        jobs.push_reserved(Job {
            number,
            seed: load.seed,
            length: load.bytes,
        });
    }
    Ok(jobs)
}

// What is told of it, of a store that was stopped by this, if it was.
fn told_by(came: Result<Summary, Refusal>, stopped: Option<Refusal>) -> Result<Summary, Refusal>
    ensures { result ≡ told_by came stopped }
{
    match (came, stopped) {
        (Err(Refusal::Stopped { .. }), Some(refusal)) => Err(refusal),
        (came, _) => came,
    }
}

// Prints the summary, if there is one.
fn print<K: Sink>(
    alloc: Global,
    told: &Result<Summary, Refusal>,
    sink: &mut K,
) -> Result<(), Ending>
    ensures { Prints told.now (ending_in result) (K.view sink.old) (K.view sink.new) }
{
    match told {
        Ok(summary) => {
            let text = summary_text(alloc, &summary.files, summary.segments, summary.bytes)?;
            send(sink, &text)
        }
        Err(refusal) => Err(Ending::Refused(*refusal)),
    }
}

/// Has workers store generated files beside one another, in a store that has no names, and prints what it has then. It promises what it
/// promises if it returns.
pub(crate) fn work<D: Disk + Send, K: Sink, G: Gate + Sync, R: Threads + Wait + Sync>(
    rt: &R,
    alloc: Global,
    disk: &mut D,
    sink: &mut K,
    load: &Load,
    gate: &G,
) -> Result<(), Ending>
    requires right { IsRightLoad load.now }
    ensures does { (source : SourceView) → (ran : Option Ran) × RunsWork D D.view (plan_of (load_value load.now)) ran (ending_in result)
        (devices (D.view disk.old) (D.view disk.new) source source (K.view sink.old) (K.view sink.new)) }
    ensures later { IsLater (D.view disk.old) (D.view disk.new) }
{
    calls_run_by_files::<&mut D, Core<&mut D, NoSummary>>();
    an_opening_finds_its_files::<D, Core<&mut D, NoSummary>>();
    an_opening_finds_its_files::<&mut D, Core<&mut D, NoSummary>>();
    an_opening_is_the_machines::<&mut D, Core<&mut D, NoSummary>>();
    a_work_is_a_run::<Core<&mut D, NoSummary>>();
    a_work_leaves_its_files::<Core<&mut D, NoSummary>>();
    a_work_is_complete::<Core<&mut D, NoSummary>>();
    let mut buf = SegBuf::new(alloc)?;
    let jobs = jobs_for(alloc, load)?;
    let core = match Core::open(alloc, disk, NoSummary) {
        Ok(core) => core,
        Err(refused) => {
            let refusal = refused.1;
            let _disk = handed_back(refused);
            return Err(Ending::Refused(refusal));
        }
    };
    let Finished { core, came } = work_through(
        rt,
        alloc,
        core,
        load.workers,
        load.percent,
        &jobs,
        gate,
        &mut buf,
    );
    let stopped = core.stopped_by();
    let _disk = core.close();
    print(alloc, &told_by(came, stopped), sink)
}
