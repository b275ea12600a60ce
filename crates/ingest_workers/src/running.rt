//! Jobs that are shared out.
ghost use Rattle.std.specs.Prelude.{◌≡◌, ◌<◌, ◌≤◌, [], All, IfErr, IfOk, length, map, reverse, vec_capacity};
ghost use Rattle.ingest_workers.specs.Jobs.{AllEnded};
ghost use Rattle.ingest_workers.specs.Working.{AreGathered, HasDone, IsReady};

use crate::gate::Gate;
use crate::job::{Job, JobEnd};
use crate::workers::{Desk, Worker};
use actor_parts::StoreCalls;
use session_turns::ByCaller;
use std::alloc::{AllocError, Global};
use std::sync::Wait;
use std::thread::{Threads, for_each_mut};

// So many desks, each with room for so many ends. It fails for want of memory alone.
fn desks_for(alloc: Global, count: usize, jobs: usize) -> Result<Vec<Desk>, AllocError>
    ensures many { IfOk result (λ desks. length desks.items ≡ count) }
    ensures ready { IfOk result (λ desks. All (IsReady jobs) desks.items) }
{
    let mut desks = Vec::with_capacity(alloc, count)?;
    for _ in 0..count {
        desks.push_reserved(Desk::new(alloc, jobs)?);
    }
    Ok(desks)
}

// Gives each caller a desk, the last one first.
fn seat<S: StoreCalls>(
    callers: &mut Vec<S>,
    desks: &mut Vec<Desk>,
    workers: &mut Vec<Worker<S>>,
    jobs: usize,
)
    requires many { length desks.old.items ≡ length callers.old.items }
    requires ready { All (IsReady jobs) desks.old.items }
    requires none { workers.old.items ≡ [] }
    requires room { length callers.old.items ≤ vec_capacity workers.old }
    ensures callers { map (λ w. w.caller) workers.new.items ≡ reverse callers.old.items }
    ensures ready { All (λ w. IsReady jobs w.desk) workers.new.items }
    ensures none { callers.new.items ≡ [] }
    ensures room { vec_capacity callers.new ≡ vec_capacity callers.old }
{
    while let Some(caller) = callers.pop() {
        let Some(desk) = desks.pop() else {
            unreachable!()
        };
        workers.push_reserved(Worker {
            caller: ByCaller::new(caller),
            desk,
        });
    }
}

// How the jobs ended, each as its worker has it.
fn gather<S: StoreCalls>(workers: &[Worker<S>], jobs: &[Job], ends: &mut Vec<JobEnd>)
    requires some { 0 < length workers.now }
    requires many { All (λ w. length w.desk.ends.items ≡ length jobs.now) workers.now }
    requires none { ends.old.items ≡ [] }
    requires room { length jobs.now ≤ vec_capacity ends.old }
    ensures { AreGathered workers.now jobs.now ends.new.items }
{
    for i in 0..jobs.len() {
        let end = workers[jobs[i].worker_of(workers.len())].desk.ends[i];
        ends.push_reserved(end);
    }
}

// The callers alone, the last one first.
fn unseat<S: StoreCalls>(workers: &mut Vec<Worker<S>>, callers: &mut Vec<S>)
    requires none { callers.old.items ≡ [] }
    requires room { length workers.old.items ≤ vec_capacity callers.old }
    ensures { callers.new.items ≡ reverse (map (λ w. w.caller) workers.old.items) }
{
    while let Some(worker) = workers.pop() {
        let Worker {
            caller,
            desk: _desk,
        } = worker;
        callers.push_reserved(caller.into_caller());
    }
}

// All memory that workers need: their desks, and room for the workers, and for the ends of their jobs.
struct Rooms<S: StoreCalls> {
    desks: Vec<Desk>,
    workers: Vec<Worker<S>>,
    ends: Vec<JobEnd>,
}

// It fails for want of memory alone.
fn rooms_for<S: StoreCalls + Drop>(
    alloc: Global,
    count: usize,
    jobs: usize,
) -> Result<Rooms<S>, AllocError>
    ensures many { IfOk result (λ rooms. length rooms.desks.items ≡ count) }
    ensures ready { IfOk result (λ rooms. All (IsReady jobs) rooms.desks.items) }
    ensures workers { IfOk result (λ rooms. (rooms.workers.items ≡ []) × (count ≤ vec_capacity rooms.workers)) }
    ensures ends { IfOk result (λ rooms. (rooms.ends.items ≡ []) × (jobs ≤ vec_capacity rooms.ends)) }
{
    let desks = desks_for(alloc, count, jobs)?;
    let workers = Vec::with_capacity(alloc, count)?;
    let ends = Vec::with_capacity(alloc, jobs)?;
    Ok(Rooms {
        desks,
        workers,
        ends,
    })
}

/// Does all jobs, each once: each caller does those whose number leaves its own place when divided by how many callers there are, in
/// order, in a thread of its own where one can be had. There is one caller at least. Callers come back in their order, and how each
/// job ended stands at the place of the job; one that is refused ends there, and its caller goes on. It fails for want of memory
/// alone, before any job begins, and hands the callers back then. A file is read until its end is answered, so it promises what it
/// promises if it returns.
pub fn run_jobs<S: StoreCalls + Send + Drop, G: Gate + Sync, R: Threads + Wait + Sync>(
    rt: &R,
    alloc: Global,
    callers: Vec<S>,
    jobs: &[Job],
    gate: &G,
) -> Result<(Vec<S>, Vec<JobEnd>), (Vec<S>, AllocError)>
    requires some { 0 < length callers.items }
    ensures ended { IfOk result (λ r. AllEnded S.asks jobs.now r.1.items callers.items r.0.items) }
    ensures refused { IfErr result (λ r. r.0 ≡ callers) }
{
    let count = callers.len();
    let Rooms {
        mut desks,
        mut workers,
        mut ends,
    } = match rooms_for(alloc, count, jobs.len()) {
        Ok(rooms) => rooms,
        Err(error) => return Err((callers, error)),
    };
    let mut callers = callers;
    callers.reverse();
    seat(&mut callers, &mut desks, &mut workers, jobs.len());
    for_each_mut(
        rt,
        &mut workers,
        count,
        &|number: usize, worker: &mut Worker<S>|
            requires { (0 < count) × IsReady (length jobs.now) worker.now.desk }
            ensures { HasDone S.asks jobs.entry.now count number worker.old worker.new }
        { worker.run(rt, alloc, gate, jobs, count, number) },
    );
    gather(&workers, jobs, &mut ends);
    workers.reverse();
    unseat(&mut workers, &mut callers);
    Ok((callers, ends))
}
