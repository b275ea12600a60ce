//! Two workers over one store, whose callers wait for one another at their first commits.
ghost use Rattle.std.specs.Prelude.{◌≡◌};

use crate::shared::Kernel;
use crate::stage::formatted;
use crate::workers::{count_stored, jobs, names_of};
use actor_parts::{Answer, SegBuf, Step, StoreCalls};
use ingest_workers::{OpenGate, run_jobs};
use refusals::Refusal;
use shared_store::{Caller, Pass, SharedStore};
use std::alloc::Global;
use std::sync::Wait;
use std::thread::Threads;
use transcripts::{Fault, Meeting};

/// A caller that meets another just before its first commit.
#[derive(Drop)]
struct Meets<'a, S: StoreCalls> {
    caller: S,
    meeting: &'a Meeting,
    number: u64,
    has_met: bool,
}

impl<'a, S: StoreCalls> Meets<'a, S> {
    fn new(caller: S, meeting: &'a Meeting, number: u64) -> Meets<'a, S> {
        Meets {
            caller,
            meeting,
            number,
            has_met: false,
        }
    }
}

impl<S: StoreCalls> StoreCalls for Meets<'_, S> {
    ghost refused = { λ c n. S.refused c.caller n };

    ghost ended = { λ c. S.ended c.caller };

    ghost asks = { λ old step answer buf new. S.asks old.caller step answer buf new.caller };

    fn ask(&mut self, step: Step<'_>, buf: &mut SegBuf) -> Result<Answer, Refusal> {
        if !self.has_met && matches!(step, Step::Commit { .. }) {
            self.has_met = true;
            self.meeting.meet(self.number);
        }
        self.caller.ask(step, buf)
    }
}

/// Two workers do a job of no bytes each. Says how many callers met, how many jobs are stored, and what the names are then.
pub(crate) fn two_callers<R: Threads + Wait + Sync>(
    rt: &R,
    alloc: Global,
) -> Result<String, Fault> {
    let Ok((store, pass)) = SharedStore::open(alloc, formatted(alloc, 64)?) else {
        return Err(Fault::Store);
    };
    work(rt, alloc, &store, pass)
}

fn work<R: Threads + Wait + Sync>(
    rt: &R,
    alloc: Global,
    store: &SharedStore<Kernel>,
    pass: Pass<Kernel>,
) -> Result<String, Fault>
    requires { pass.store ≡ store.now }
{
    let mut pass = pass;
    let Ok(other) = store.split(rt, &mut pass) else {
        return Err(Fault::Store);
    };
    let meeting = Meeting::new();
    let mut callers = Vec::new(alloc);
    callers.push(Meets::new(Caller::new(store, pass, rt), &meeting, 0))?;
    callers.push(Meets::new(Caller::new(store, other, rt), &meeting, 1))?;
    let jobs = jobs(alloc, 2, 0)?;
    let Ok((mut callers, ends)) = run_jobs(rt, alloc, callers, &jobs, &OpenGate) else {
        return Err(Fault::Store);
    };
    let met = meeting.met();
    let stored = count_stored(&ends);
    let Some(mut caller) = callers.pop() else {
        return Err(Fault::Store);
    };
    let names = names_of(alloc, &mut caller)?;
    Ok(format!(in alloc; "two callers: {met} met, {stored} jobs are stored\n{names}")?)
}
