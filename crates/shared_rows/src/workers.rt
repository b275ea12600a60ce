//! Two workers over one store, whose first jobs wait for one another.
ghost use Rattle.std.specs.Prelude.{◌≡◌};

use crate::shared::Kernel;
use crate::stage::formatted;
use actor_parts::{Answer, SegBuf, Step, StoreCalls};
use ingest_workers::{Gate, Job, JobEnd, run_jobs};
use reply_text::listing_text;
use shared_store::{Caller, Pass, SharedStore};
use std::alloc::Global;
use std::sync::Wait;
use std::sync::atomic::{AtomicU64, Ordering};
use std::thread::{Threads, yield_now};
use transcripts::Fault;

/// How many jobs there are.
const JOBS: u64 = 4;

/// How often a job looks for another that has come, before it goes on alone.
const LOOKS: u64 = 100_000_000;

/// Before a job it counts, and looks until two were counted.
#[derive(Drop)]
struct Meeting {
    came: AtomicU64,
    met: AtomicU64,
    left: AtomicU64,
}

impl Gate for Meeting {
    fn before<R: Wait>(&self, _rt: &R, _job: u64) {
        self.came.fetch_add(1, Ordering::SeqCst);
        for _ in 0..LOOKS {
            if self.came.load(Ordering::SeqCst) >= 2 {
                self.met.fetch_add(1, Ordering::SeqCst);
                return;
            }
            yield_now();
        }
    }

    fn after<R: Wait>(&self, _rt: &R, _job: u64) {
        self.left.fetch_add(1, Ordering::SeqCst);
    }
}

/// Two workers do four jobs of eight bytes each. Says how many jobs met another or came after two had met, how many were left again and
/// stored, and what the names are then.
pub(crate) fn two_workers<R: Threads + Wait + Sync>(
    rt: &R,
    alloc: Global,
) -> Result<String, Fault> {
    let Ok((store, pass)) = SharedStore::open(alloc, formatted(alloc, 64)?) else {
        return Err(Fault::Store);
    };
    work(rt, alloc, &store, pass)
}

fn work<R: Threads + Wait + Sync>(
    rt: &R,
    alloc: Global,
    store: &SharedStore<Kernel>,
    pass: Pass<Kernel>,
) -> Result<String, Fault>
    requires { pass.store ≡ store.now }
{
    let mut pass = pass;
    let Ok(other) = store.split(rt, &mut pass) else {
        return Err(Fault::Store);
    };
    let mut callers = Vec::new(alloc);
    callers.push(Caller::new(store, pass, rt))?;
    callers.push(Caller::new(store, other, rt))?;
    let gate = Meeting {
        came: AtomicU64::new(0),
        met: AtomicU64::new(0),
        left: AtomicU64::new(0),
    };
    let jobs = jobs(alloc, JOBS, 8)?;
    let Ok((mut callers, ends)) = run_jobs(rt, alloc, callers, &jobs, &gate) else {
        return Err(Fault::Store);
    };
    let met = gate.met.load(Ordering::SeqCst);
    let left = gate.left.load(Ordering::SeqCst);
    let stored = count_stored(&ends);
    let Some(mut caller) = callers.pop() else {
        return Err(Fault::Store);
    };
    let names = names_of(alloc, &mut caller)?;
    Ok(format!(in alloc;
        "two workers: {met} jobs met, {left} were left, {stored} are stored\n{names}"
    )?)
}

// The jobs, each with a seed of its own: so short files of one seed are all the same.
pub(crate) fn jobs(alloc: Global, count: u64, length: u64) -> Result<Vec<Job>, Fault> {
    let mut jobs = Vec::new(alloc);
    for number in 0..count {
        jobs.push(Job {
            number,
            seed: number,
            length,
        })?;
    }
    Ok(jobs)
}

pub(crate) fn count_stored(ends: &[JobEnd]) -> u64 {
    let mut stored = 0u64;
    for end in ends {
        if let JobEnd::Stored(_) = end {
            stored = stored.saturating_add(1);
        }
    }
    stored
}

// A line for each name.
pub(crate) fn names_of<S: StoreCalls>(alloc: Global, caller: &mut S) -> Result<String, Fault> {
    let mut buf = SegBuf::new(alloc)?;
    let Ok(Answer::Listed { files }) = caller.ask(Step::List, &mut buf) else {
        return Err(Fault::Store);
    };
    let text = listing_text(alloc, &files)?;
    match String::from_utf8(text) {
        Ok(text) => Ok(text),
        Err(_) => Err(Fault::Store),
    }
}
