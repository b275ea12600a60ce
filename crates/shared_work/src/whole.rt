//! A whole generated load: workers in a store without names, and then what it has.
ghost use Rattle.std.specs.Prelude.{◌≡◌, ◌<◌, ◌≤◌, option_map};
ghost use Rattle.actor_parts.specs.declared.actor.TheConstants.{ACTORS};
ghost use Rattle.store_core.specs.State.{IsRunning};
ghost use Rattle.ingest_workers.specs.Jobs.{AskedFrom};
ghost use Rattle.shared_work.specs.Freed.{IsOpening};
ghost use Rattle.shared_work.specs.Whole.{Concludes, CountsAll, FillsEmpty, Lists, WorksThrough, first_refused, refused_in};

use crate::collecting::collect_once;
use crate::working::{Worked, work_together};
use actor_parts::{Actor, Answer, Percent, SegBuf, Step, StoreCalls};
use core_machine::a_core_is_the_machine;
use ingest_workers::{Gate, Job, JobEnd};
use namespace::Listing;
use refusals::Refusal;
use std::alloc::Global;
use std::sync::Wait;
use std::thread::Threads;
use store_core::{HasState, Solo};

/// What a store has: each name with the root of its file; and how many segments and nodes their trees have, each counted once, of how many
/// bytes.
#[derive(Drop)]
pub struct Summary {
    pub files: Listing,
    pub segments: u64,
    pub bytes: u64,
}

/// The core, and what came of it: a summary, or the refusal by which it ended. That is the one of the first job that was refused, by their
/// place; else the one of the collections beside them, or of the steps behind them.
pub struct Finished<C> {
    pub core: C,
    pub came: Result<Summary, Refusal>,
}

// Which names there are.
fn list<S: StoreCalls>(caller: &mut S, buf: &mut SegBuf) -> Result<Listing, Refusal>
    ensures { AskedFrom S.asks caller.old (Lists result) caller.new }
{
    let Answer::Listed { files } = caller.ask(Step::List, buf)? else {
        unreachable!()
    };
    Ok(files)
}

struct Sum {
    segments: u64,
    bytes: u64,
}

// What the trees of all names have.
fn count<S: StoreCalls>(caller: &mut S, buf: &mut SegBuf) -> Result<Sum, Refusal>
    ensures { AskedFrom S.asks caller.old (CountsAll result) caller.new }
{
    let Answer::Unique { segments, bytes } = caller.ask(Step::Unique, buf)? else {
        unreachable!()
    };
    Ok(Sum { segments, bytes })
}

// One more collection, and the summary.
fn conclude<S: StoreCalls, R: Wait>(
    rt: &R,
    caller: &mut S,
    percent: Percent,
    buf: &mut SegBuf,
) -> Result<Summary, Refusal>
    ensures { AskedFrom S.asks caller.old (Concludes percent result) caller.new }
{
    collect_once(rt, caller, percent, buf)?;
    let files = list(caller, buf)?;
    let Sum { segments, bytes } = count(caller, buf)?;
    Ok(Summary {
        files,
        segments,
        bytes,
    })
}

fn first_refused(ends: &[JobEnd]) -> Option<Refusal>
    ensures { result ≡ first_refused ends.now }
{
    for end in ends {
        if let JobEnd::Refused(refusal) = end {
            return Some(*refusal);
        }
    }
    None
}

// Why no more is to be done, if that is so.
fn refused_in(ends: &Option<Vec<JobEnd>>, collected: &Result<(), Refusal>) -> Option<Refusal>
    ensures { result ≡ refused_in (option_map (λ v. v.items) ends.now) collected.now }
{
    let Some(ends) = ends else {
        return Some(Refusal::Memory);
    };
    if let Some(refusal) = first_refused(ends) {
        return Some(refusal);
    }
    match collected {
        Ok(()) => None,
        Err(refusal) => Some(*refusal),
    }
}

fn first_actor() -> Actor
    ensures { result ≡ 0 }
{
    let Some(actor) = Actor::new(0) else {
        unreachable!()
    };
    actor
}

// All of it, once the store was found to be without names.
fn fill<C: HasState + Drop + Send, G: Gate + Sync, R: Threads + Wait + Sync>(
    rt: &R,
    alloc: Global,
    core: C,
    workers: usize,
    percent: Percent,
    jobs: &[Job],
    gate: &G,
    buf: &mut SegBuf,
) -> Finished<C>
    requires workers { (1 ≤ workers) × (workers < ACTORS) }
    requires opening { IsOpening C.state core }
    ensures fills { FillsEmpty C.state (record { workers = workers; percent = percent; jobs = jobs.now }) result.came core result.core }
    ensures running { IsRunning (C.state result.core) }
{
    let Worked {
        core,
        ends,
        collected,
    } = work_together(rt, alloc, core, workers, jobs, percent, gate);
    match refused_in(&ends, &collected) {
        Some(refusal) => Finished {
            core,
            came: Err(refusal),
        },
        None => {
            let mut caller = Solo::new(core, first_actor());
            let came = conclude(rt, &mut caller, percent, buf);
            Finished {
                core: caller.into_core(),
                came,
            }
        }
    }
}

/// Fills a store that has no names: so many workers, 1 to 63, store the files of all jobs, each under its second name in the end, and
/// read them once, as whole collections are made beside them; then one more is made, and what the store has then is told. One that has
/// names is refused by `NotEmpty`. A job that is refused ends there, and the others go on; then nothing more is done. It promises what
/// it promises if it returns, as workers do (`ingest_workers::run_jobs`).
pub fn work_through<C: HasState + Drop + Send, G: Gate + Sync, R: Threads + Wait + Sync>(
    rt: &R,
    alloc: Global,
    core: C,
    workers: usize,
    percent: Percent,
    jobs: &[Job],
    gate: &G,
    buf: &mut SegBuf,
) -> Finished<C>
    requires workers { (1 ≤ workers) × (workers < ACTORS) }
    requires opening { IsOpening C.state core }
    ensures works { WorksThrough C.state (record { workers = workers; percent = percent; jobs = jobs.now }) result.came core result.core }
    ensures running { IsRunning (C.state result.core) }
{
    a_core_is_the_machine::<C>();
    let mut caller = Solo::new(core, first_actor());
    let listed = list(&mut caller, buf);
    let core = caller.into_core();
    let files = match listed {
        Ok(names) => names.names().len() as u64,
        Err(refusal) => {
            return Finished {
                core,
                came: Err(refusal),
            };
        }
    };
    if files > 0 {
        return Finished {
            core,
            came: Err(Refusal::NotEmpty { files }),
        };
    }
    fill(rt, alloc, core, workers, percent, jobs, gate, buf)
}
