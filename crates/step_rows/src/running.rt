//! A core that makes steps.
ghost use Rattle.actor_parts.specs.StepValue.{IsStep, step_value};
ghost use Rattle.store_core.specs.State.{IsRunning};

use crate::answers::{answer_text, kind_text};
use actor_parts::{Actor, SegBuf, Step};
use dd_disk::Disk;
use refusals::Refusal;
use std::alloc::{AllocError, Global};
use std::marker::Model;
use store_core::{Core, HasState};
use summary_vector::NoSummary;

/// A core that runs or was stopped, and the room for a segment that is read.
#[derive(Drop)]
pub(crate) struct Running<C: HasState> {
    core: C,
    buf: SegBuf,
}

impl<C: HasState> Model for Running<C> {
    ghost use Rattle.store_core.specs.State.{IsRunning};

    ghost Value = { C };

    ghost view = { λ r. r.core };

    ghost invariant = { λ r. IsRunning (C.state r.core) };
}

impl<C: HasState> Running<C> {
    fn new(core: C, buf: SegBuf) -> Running<C>
        requires { IsRunning (C.state core) }
    {
        Running { core, buf }
    }

    /// Makes a step of an actor, and gives the text of its answer.
    pub(crate) fn make(
        &mut self,
        alloc: Global,
        actor: Actor,
        step: Step<'_>,
    ) -> Result<String, AllocError>
        requires { IsStep (step_value step) }
    {
        let answer = self.core.make_step(actor, step, &mut self.buf);
        answer_text(alloc, &answer, self.buf.bytes())
    }
}

/// Opens the store on a disk. A refusal leaves nothing of the disk.
pub(crate) fn open<D: Disk + Drop>(
    alloc: Global,
    disk: D,
) -> Result<Running<Core<D, NoSummary>>, Refusal> {
    let buf = SegBuf::new(alloc)?;
    match Core::open(alloc, disk, NoSummary) {
        Ok(core) => Ok(Running::new(core, buf)),
        Err((_disk, refusal)) => Err(refusal),
    }
}

impl<D: Disk> Running<Core<D, NoSummary>> {
    pub(crate) fn kind(&self, alloc: Global, actor: Actor) -> Result<String, AllocError> {
        kind_text(self.core.part_kind(actor)).to_string(alloc)
    }

    pub(crate) fn moment(&self) -> u64 {
        self.core.moment()
    }

    pub(crate) fn close(self) -> D {
        self.core.close()
    }
}
