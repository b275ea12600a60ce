//! A worker.
ghost use Rattle.std.specs.Prelude.{◌≡◌, ◌<◌, IfOk, length};
ghost use Rattle.ingest_workers.specs.Jobs.{AskedFrom};
ghost use Rattle.ingest_workers.specs.Working.{HasDone, IsReady, OwnJob};

use crate::gate::Gate;
use crate::job::{Job, JobEnd};
use crate::serving::do_job;
use actor_parts::{SegBuf, StoreCalls};
use refusals::Refusal;
use session_turns::ByCaller;
use std::alloc::{AllocError, Global};
use std::sync::Wait;

/// What a worker needs beside its caller: room for a segment, and for how the jobs ended. At the places of others' jobs anything stands.
#[derive(Drop)]
pub(crate) struct Desk {
    pub(crate) buf: SegBuf,
    pub(crate) ends: Vec<JobEnd>,
}

impl Desk {
    /// A desk with room for so many ends. It fails for want of memory alone.
    pub(crate) fn new(alloc: Global, jobs: usize) -> Result<Desk, AllocError>
        ensures { IfOk result (λ desk. IsReady jobs desk) }
    {
        Ok(Desk {
            buf: SegBuf::new(alloc)?,
            ends: Vec::with_capacity(alloc, jobs)?,
        })
    }
}

/// A caller at a desk.
#[derive(Drop)]
pub(crate) struct Worker<S: StoreCalls> {
    pub(crate) caller: ByCaller<S>,
    pub(crate) desk: Desk,
}

impl<S: StoreCalls> Worker<S> {
    /// Does each job whose number leaves this worker's when divided by how many workers there are, in order.
    pub(crate) fn run<R: Wait, G: Gate>(
        &mut self,
        rt: &R,
        alloc: Global,
        gate: &G,
        jobs: &[Job],
        count: usize,
        number: usize,
    )
        requires count { 0 < count }
        requires ready { IsReady (length jobs.now) self.old.desk }
        ensures { HasDone S.asks jobs.now count number self.old self.new }
    {
        for i in 0..jobs.len() {
            let job = jobs[i];
            let end = self.do_own(rt, alloc, gate, &job, job.worker_of(count) == number);
            self.desk.ends.push_reserved(end);
        }
    }

    // Does a job where it is the worker's.
    fn do_own<R: Wait, G: Gate>(
        &mut self,
        rt: &R,
        alloc: Global,
        gate: &G,
        job: &Job,
        mine: bool,
    ) -> JobEnd
        ensures own { AskedFrom S.asks self.old.caller (OwnJob mine job.now result) self.new.caller }
        ensures ends { self.new.desk.ends ≡ self.old.desk.ends }
    {
        if !mine {
            return JobEnd::Refused(Refusal::Memory);
        }
        gate.before(rt, job.number);
        let end = do_job(rt, alloc, &mut self.caller, job, &mut self.desk.buf);
        gate.after(rt, job.number);
        end
    }
}
