//! Workers that do jobs by one store, as another caller collects.
ghost use Rattle.std.specs.Prelude.{◌≡◌, ◌<◌, ◌≤◌, ℕ, suc, [], All, IfOk, IfSome, length, map, option_map, slice_index_or, vec_capacity};
ghost use Rattle.actor_parts.specs.declared.actor.TheConstants.{ACTORS};
ghost use Rattle.store_core.specs.State.{IsRunning};
ghost use Rattle.turn_lock.specs.Lock.{Ends};
ghost use Rattle.shared_store.specs.Calls.{JoinsPass, SplitsPass};
ghost use Rattle.shared_store.specs.Made.{MadeBy};
ghost use Rattle.shared_store.specs.Passes.{IsBusy, actor_of};
ghost use Rattle.ingest_workers.specs.Jobs.{AskedFrom};
ghost use Rattle.shared_work.specs.Freed.{IsOpening};
ghost use Rattle.shared_work.specs.Working.{AreWorked, CollectsBeside, HasWorked, IsNew, JoinsAll, WorksBeside};

use crate::collecting::collect_often;
use crate::laws::a_workers_pass_comes_free;
use actor_parts::{Percent, SegBuf, StoreCalls};
use ingest_workers::{Gate, Job, JobEnd, run_jobs};
use refusals::Refusal;
use shared_store::{Caller, Pass, SharedStore, StillShared, a_history_is_what_was_asked};
use std::alloc::{AllocError, Global};
use std::snapshot::Snapshot;
use std::sync::Wait;
use std::sync::atomic::{AtomicU64, Ordering};
use std::thread::{Threads, join, yield_now};
use store_core::HasState;

/// What came of it: the core; how each job ended, or None where there was no memory to begin any; and whether a collection was refused.
pub struct Worked<C> {
    pub core: C,
    pub ends: Option<Vec<JobEnd>>,
    pub collected: Result<(), Refusal>,
}

// Waits forever.
fn never<T, R: Wait>(rt: &R) -> T
    ensures { ⊥ }
{
    for _ in rt.forever() {
        yield_now();
    }
    unreachable!()
}

// ---- passes

// Another pass, of this number. No other would come, as nobody else splits passes of this store, and there are fewer than actors; but no
// contract says so, and it would wait forever.
fn split_as<C: HasState, R: Wait>(
    rt: &R,
    store: &SharedStore<C>,
    pass: &mut Pass<C>,
    number: u64,
) -> Pass<C>
    requires pass { pass.old.store ≡ store.now }
    ensures split { SplitsPass C.state pass.old pass.new result }
    ensures number { actor_of result ≡ number }
{
    match store.split(rt, pass) {
        Ok(other) if other.actor().number() == number => other,
        _ => never(rt),
    }
}

// A caller for each worker, of the numbers from 1 on.
fn split_all<'a, C: HasState, R: Wait>(
    rt: &'a R,
    store: &'a SharedStore<C>,
    core: &Snapshot<C>,
    pass: &mut Pass<C>,
    count: usize,
    callers: &mut Vec<Caller<'a, C, R>>,
)
    requires pass { IsNew C.state core.now.value store.now 0 pass.old }
    requires none { callers.old.items ≡ [] }
    requires room { count ≤ vec_capacity callers.old }
    requires few { count < ACTORS }
    ensures pass { IsNew C.state core.now.value store.now 0 pass.new }
    ensures many { length callers.new.items ≡ count }
    ensures each { (worker : ℕ) (d : _) → worker < count
        → IsNew C.state core.now.value store.now (suc worker) (slice_index_or callers.new.items worker d).0 }
{
    a_workers_pass_comes_free::<C>();
    for worker in 0..count {
        let other = split_as(rt, store, pass, worker as u64 + 1);
        callers.push_reserved(Caller::new(store, other, rt));
    }
}

// Takes in a pass that is not busy.
fn take_in<C: HasState>(store: &SharedStore<C>, pass: &mut Pass<C>, other: Pass<C>)
    requires pass { pass.old.store ≡ store.now }
    requires other { other.store ≡ store.now }
    requires free { IsBusy other → ⊥ }
    ensures { JoinsPass C.state pass.old other pass.new }
{
    let Ok(()) = store.join(pass, other) else {
        unreachable!()
    };
}

// Takes in the passes of callers that are not busy.
fn take_in_all<C: HasState, R: Wait>(
    store: &SharedStore<C>,
    pass: &mut Pass<C>,
    callers: Vec<Caller<'_, C, R>>,
)
    requires pass { pass.old.store ≡ store.now }
    requires stores { All (λ c. c.0.store ≡ store.now) callers.items }
    requires free { All (λ c. IsBusy c.0 → ⊥) callers.items }
    ensures { JoinsAll C.state pass.old (map (λ c. c.0) callers.entry.items) pass.new }
{
    let mut callers = callers;
    callers.reverse();
    while let Some(caller) = callers.pop() {
        take_in(store, pass, caller.into_pass());
    }
}

// The core, by a pass that has taken in all others: else it would wait forever.
fn core_of<C: HasState + Drop, R: Wait>(rt: &R, store: SharedStore<C>, pass: Pass<C>) -> C
    requires pass { pass.store ≡ store }
    ensures ended { Ends (MadeBy C.state) pass.view result }
    ensures running { IsRunning (C.state result) }
{
    match store.into_core(rt, pass) {
        Ok(core) => core,
        Err(
            StillShared {
                store: _store,
                pass: _pass,
                others: _others,
            },
        ) => never(rt),
    }
}

// ---- callers beside one another

// It counts how many jobs are left.
#[derive(Drop)]
struct Counting<'a, G: Gate> {
    gate: &'a G,
    left: &'a AtomicU64,
}

impl<G: Gate> Gate for Counting<'_, G> {
    fn before<R: Wait>(&self, rt: &R, job: u64) {
        self.gate.before(rt, job);
    }

    fn after<R: Wait>(&self, rt: &R, job: u64) {
        self.gate.after(rt, job);
        self.left.fetch_sub(1, Ordering::SeqCst);
    }
}

// What is to be done, by so many workers.
#[derive(Drop)]
struct Task<'a, G: Gate> {
    count: usize,
    jobs: &'a [Job],
    percent: Percent,
    gate: &'a G,
}

// Callers that have worked, and how their jobs ended.
struct Done<S: StoreCalls> {
    callers: Vec<S>,
    ends: Option<Vec<JobEnd>>,
}

// Does all jobs; then none are left, also where there was no memory to begin any, and it wakes who waits for that.
fn do_jobs<S: StoreCalls + Send + Drop, G: Gate + Sync, R: Threads + Wait + Sync>(
    rt: &R,
    alloc: Global,
    callers: Vec<S>,
    task: &Task<'_, G>,
    left: &AtomicU64,
) -> Done<S>
    requires some { 0 < length callers.items }
    ensures { AreWorked S.asks task.now.jobs.now (option_map (λ v. v.items) result.ends) callers.items result.callers.items }
{
    let gate = Counting {
        gate: task.gate,
        left,
    };
    let done = match run_jobs(rt, alloc, callers, task.jobs, &gate) {
        Ok((callers, ends)) => Done {
            callers,
            ends: Some(ends),
        },
        Err((callers, _memory)) => Done {
            callers,
            ends: None,
        },
    };
    left.store(0, Ordering::SeqCst);
    left.wake_one();
    done
}

// A caller that has collected.
struct Collected<S: StoreCalls> {
    caller: S,
    result: Result<(), Refusal>,
}

fn collect<S: StoreCalls, R: Wait>(
    rt: &R,
    caller: S,
    percent: Percent,
    left: &AtomicU64,
    buf: SegBuf,
) -> Collected<S>
    ensures { AskedFrom S.asks caller (CollectsBeside percent result.result) result.caller }
{
    let mut caller = caller;
    let mut buf = buf;
    let result = collect_often(rt, &mut caller, percent, left, &mut buf);
    Collected { caller, result }
}

// The callers do the jobs, and the collector collects as long as any are left: in a thread of its own or, where none can be had, once none
// are.
fn do_beside<S: StoreCalls + Send + Drop, G: Gate + Sync, R: Threads + Wait + Sync>(
    rt: &R,
    alloc: Global,
    callers: Vec<S>,
    collector: S,
    buf: SegBuf,
    task: &Task<'_, G>,
) -> (Collected<S>, Done<S>)
    requires some { 0 < length callers.items }
    ensures collected { AskedFrom S.asks collector (CollectsBeside task.now.percent result.0.result) result.0.caller }
    ensures jobs { AreWorked S.asks task.now.jobs.now (option_map (λ v. v.items) result.1.ends) callers.items result.1.callers.items }
{
    let left = AtomicU64::new(task.jobs.len() as u64);
    let left = &left;
    join(
        rt,
        move || -> Collected<S>
            ensures { AskedFrom S.asks collector (CollectsBeside task.entry.now.percent result.result) result.caller }
        { collect(rt, collector, task.percent, left, buf) },
        move || -> Done<S>
            requires { 0 < length callers.items }
            ensures { AreWorked S.asks task.entry.now.jobs.now (option_map (λ v. v.items) result.ends) callers.items result.callers.items }
        { do_jobs(rt, alloc, callers, task, left) },
    )
}

// ---- the whole of it

// All memory that is taken first.
#[derive(Drop)]
struct Room<'a, C: HasState, R: Wait> {
    callers: Vec<Caller<'a, C, R>>,
    buf: SegBuf,
}

// It fails for want of memory alone.
fn room_for<'a, C: HasState, R: Wait>(
    alloc: Global,
    count: usize,
) -> Result<Room<'a, C, R>, AllocError>
    ensures none { IfOk result (λ room. room.callers.items ≡ []) }
    ensures room { IfOk result (λ room. count ≤ vec_capacity room.callers) }
{
    let callers = Vec::with_capacity(alloc, count)?;
    let buf = SegBuf::new(alloc)?;
    Ok(Room { callers, buf })
}

// A pass that has taken in all others, and what came of the work.
struct Ended<C: HasState> {
    pass: Pass<C>,
    ends: Option<Vec<JobEnd>>,
    collected: Result<(), Refusal>,
}

// Splits a pass for each worker, has them work, and takes their passes in again.
fn work_over<'a, C: HasState + Drop + Send, G: Gate + Sync, R: Threads + Wait + Sync>(
    rt: &'a R,
    alloc: Global,
    store: &'a SharedStore<C>,
    core: &Snapshot<C>,
    pass: Pass<C>,
    room: Room<'a, C, R>,
    task: &Task<'_, G>,
) -> Ended<C>
    requires opening { IsOpening C.state core.now.value }
    requires pass { IsNew C.state core.now.value store.now 0 pass }
    requires none { room.callers.items ≡ [] }
    requires room { task.now.count ≤ vec_capacity room.callers }
    requires count { (1 ≤ task.now.count) × (task.now.count < ACTORS) }
    ensures worked { HasWorked C.state core.now.value task.now.count task.now.percent task.now.jobs.now
        (option_map (λ v. v.items) result.ends) result.collected result.pass }
    ensures many { IfSome result.ends (λ ends. length ends.items ≡ length task.now.jobs.now) }
    ensures store { result.pass.store ≡ store.now }
{
    a_workers_pass_comes_free::<C>();
    a_history_is_what_was_asked::<C>();
    let Room { mut callers, buf } = room;
    let mut pass = pass;
    split_all(rt, store, core, &mut pass, task.count, &mut callers);
    let collector = Caller::new(store, pass, rt);
    let (collected, done) = do_beside(rt, alloc, callers, collector, buf, task);
    let Done { callers, ends } = done;
    let Collected {
        caller: collector,
        result: collected,
    } = collected;
    let mut pass = collector.into_pass();
    take_in_all(store, &mut pass, callers);
    Ended {
        pass,
        ends,
        collected,
    }
}

// Nothing was done, as there was no memory.
fn undone<C>(core: C) -> Worked<C>
    ensures core { result.core ≡ core }
    ensures ends { result.ends ≡ None }
    ensures collected { result.collected ≡ Ok tt }
{
    Worked {
        core,
        ends: None,
        collected: Ok(()),
    }
}

/// Has so many workers, 1 to 63, do jobs by one store over a core that runs and is idle, each by a thread of its own where one can be
/// had: the worker w, from 0 on, does those whose number leaves w when divided by how many workers there are, as the actor w + 1. As
/// the actor 0 one more caller makes whole collections with this percentage while jobs are left, 1,024 at most and up to the first that
/// is refused. When all have returned the core comes back. Where there is no memory for the jobs none begins; else a job or a collection
/// that is refused ends there, and the others go on. It waits for turns and reads files to their ends, so it promises what it promises
/// if it returns.
pub fn work_together<C: HasState + Drop + Send, G: Gate + Sync, R: Threads + Wait + Sync>(
    rt: &R,
    alloc: Global,
    core: C,
    count: usize,
    jobs: &[Job],
    percent: Percent,
    gate: &G,
) -> Worked<C>
    requires count { (1 ≤ count) × (count < ACTORS) }
    requires opening { IsOpening C.state core }
    ensures works { WorksBeside C.state count percent jobs.now (option_map (λ v. v.items) result.ends) result.collected core result.core }
    ensures running { IsRunning (C.state result.core) }
    ensures many { IfSome result.ends (λ ends. length ends.items ≡ length jobs.now) }
{
    a_workers_pass_comes_free::<C>();
    a_history_is_what_was_asked::<C>();
    let Ok(room) = room_for(alloc, count) else {
        return undone(core);
    };
    let about = Snapshot::of(&core);
    let (store, pass) = match SharedStore::new(alloc, core) {
        Ok(made) => made,
        Err(core) => return undone(core),
    };
    let task = Task {
        count,
        jobs,
        percent,
        gate,
    };
    let ended = work_over(rt, alloc, &store, &about, pass, room, &task);
    let Ended {
        pass,
        ends,
        collected,
    } = ended;
    Worked {
        core: core_of(rt, store, pass),
        ends,
        collected,
    }
}
