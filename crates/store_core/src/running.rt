//! The core of a running store: one step after the other.
ghost use Rattle.std.specs.Prelude.{◌≡◌, ◌↔◌, ◌-◌, ◌^◌, ℕ, List, None, Err, IfErr, IfSome, IsTrue, OnOk, min, option_map};
ghost use Rattle.dd_disk.specs.Ending.{Done, Reads};
ghost use Rattle.actor_parts.specs.Kinds.{kind_of};
ghost use Rattle.actor_parts.specs.Parts.{part_of};
ghost use Rattle.actor_parts.specs.StepValue as asked;
ghost use Rattle.actor_parts.specs.StepValue.{IsStep, step_value};
ghost use Rattle.actor_parts.specs.Segments.{IsStepSegment};
ghost use Rattle.refusals.specs.declared.refusal.Refusal.TheVariants.{Stopped};
ghost use Rattle.store_core.specs.Collecting.{Collects, IsHeldAnswer};
ghost use Rattle.store_core.specs.Core.{MadeBefore, CoreStep, StopsAfter, IsCount, counted};
ghost use Rattle.store_core.specs.State.{IsUp, IsRunning, IsSame, IsStopped};

use crate::marking::{mark_containers, mark_key, unmark_unless};
use crate::state::HasState;
use crate::stop::Stop;
use actor_parts::{Actor, Answer, Parts, Percent, SegBuf, Step};
use container_meta::{OpenContainer, Seg};
use dd_disk::Disk;
use digests::{Afresh, TakesDigests};
use gc_steps::{Collection, StepDone, phase_of, start, step};
use ingest_steps::{Claimed, abort, begin, claim, commit, delete, room_for, seal_together};
use namespace::Root;
use read_steps::{ReadAhead, end_read, list, open_read, read_next, stat, unique};
use refusals::{PartKind, Refusal};
use segment_index::{Index, StoreIndex};
use std::alloc::Global;
use store_state::Tables;
use summary_vector::Summary;

/// A running store, for one thread: its disk, its tables and its index, and what each actor is at.
#[derive(Drop)]
pub struct Core<D, M> {
    pub(crate) alloc: Global,
    pub(crate) disk: D,
    pub(crate) tables: Tables,
    pub(crate) index: StoreIndex,
    pub(crate) parts: Parts,
    pub(crate) summary: M,
    /// The collection that runs, if one does.
    pub(crate) collection: Option<Collection>,
    /// What stopped it.
    pub(crate) stop: Option<Stop>,
    /// How many puts and deletes were acknowledged since the opening; it stays at 2^64 - 1 once there.
    pub(crate) acknowledged: u64,
}

impl<D: Disk, M: Summary> HasState for Core<D, M> {
    ghost state = { λ c. record {
      disk = D.view c.disk;
      tables = c.tables;
      known = ⟦<StoreIndex as Index>⟧.places c.index (D.view c.disk).content;
      served = ⟦<StoreIndex as Index>⟧.serves c.index (D.view c.disk).size;
      breaks = ⟦<StoreIndex as Index>⟧.breaks c.index;
      parts = c.parts;
      collection = c.collection;
      stop = c.stop;
      acknowledged = c.acknowledged;
    } };

    ghost there = { λ c. M.there c.summary };

    ghost banks = { λ c. M.banks c.summary };

    fn make_step(
        &mut self,
        actor: Actor,
        step: Step<'_>,
        buf: &mut SegBuf,
    ) -> Result<Answer, Refusal> {
        self.step(actor, step, buf)
    }

    fn look_ahead(&self, ahead: &mut ReadAhead, actor: Actor, buf: &mut SegBuf) -> bool {
        self.look_ahead(ahead, actor, buf)
    }

    fn next_ahead(
        &mut self,
        ahead: &mut ReadAhead,
        actor: Actor,
        buf: &mut SegBuf,
    ) -> Result<Answer, Refusal> {
        self.next_ahead(ahead, actor, buf)
    }

    fn reopen(&mut self) -> Result<(), Refusal> {
        self.reopen()
    }

    fn running(&self) -> Result<(), Refusal> {
        self.running()
    }

    fn part_kind(&self, actor: Actor) -> PartKind {
        self.part_kind(actor)
    }

    fn last_sequence(&self) -> u64 {
        self.last_sequence()
    }

    fn acknowledged(&self) -> u64 {
        self.acknowledged()
    }

    fn moment(&self) -> u64 {
        self.moment()
    }
}

// What stops the core: a write or a sync that failed, and damage that a seal met in the index.
fn stop_after(step: &Step<'_>, answer: &Result<Answer, Refusal>, count: u64) -> Option<Stop>
    ensures { StopsAfter (step_value step.now) answer.now count result }
{
    match answer {
        Err(Refusal::DiskWrite) => Some(Stop {
            refusal: Refusal::DiskWrite,
            at: count,
        }),
        Err(Refusal::Damaged { at, why }) => match step {
            Step::Seal { .. } => Some(Stop {
                refusal: Refusal::Damaged { at: *at, why: *why },
                at: count,
            }),
            _ => None,
        },
        _ => None,
    }
}

// Whether a segment that was claimed is held.
fn is_held(answer: &Result<Answer, Refusal>) -> bool
    ensures { IsTrue result ↔ IsHeldAnswer answer.now }
{
    matches!(answer, Ok(Answer::Held))
}

// How many puts and deletes were acknowledged, with this answer.
fn count_after(answer: &Result<Answer, Refusal>, count: u64) -> u64
    ensures { result ≡ counted answer.now count }
{
    match answer {
        Ok(Answer::Committed { .. } | Answer::Deleted { .. }) => count.saturating_add(1),
        _ => count,
    }
}

impl<D: Disk, M: Summary> Core<D, M> {
    fn begin(&mut self, actor: Actor) -> Result<Answer, Refusal>
        ensures made { (buf : List ℕ) → MadeBefore asked.Begin actor result buf (⟦<Core<D, M> as HasState>⟧.state self.old)
            (⟦<Core<D, M> as HasState>⟧.state self.new) }
        ensures stop { self.new.stop ≡ self.old.stop }
        ensures count { self.new.acknowledged ≡ self.old.acknowledged }
        ensures collection { self.new.collection ≡ self.old.collection }
    {
        match begin(self.alloc, &mut self.parts, actor) {
            Ok(()) => Ok(Answer::Begun),
            Err(refusal) => Err(refusal),
        }
    }

    fn abort(&mut self, actor: Actor) -> Result<Answer, Refusal>
        ensures made { (buf : List ℕ) → MadeBefore asked.Abort actor result buf (⟦<Core<D, M> as HasState>⟧.state self.old)
            (⟦<Core<D, M> as HasState>⟧.state self.new) }
        ensures stop { self.new.stop ≡ self.old.stop }
        ensures count { self.new.acknowledged ≡ self.old.acknowledged }
        ensures collection { self.new.collection ≡ self.old.collection }
    {
        match abort(&mut self.parts, actor) {
            Ok(()) => Ok(Answer::Aborted),
            Err(refusal) => Err(refusal),
        }
    }

    // The claim alone: what is kept is live already, where a collection runs.
    fn claim_alone(&mut self, actor: Actor, seg: &Seg, buf: &mut SegBuf) -> Result<Answer, Refusal>
        requires segment { IsStepSegment seg.now }
        requires up { IsUp (⟦<Core<D, M> as HasState>⟧.state self.old) }
        ensures made { MadeBefore (asked.Claim seg.now) actor result buf.new (⟦<Core<D, M> as HasState>⟧.state self.old)
            (⟦<Core<D, M> as HasState>⟧.state self.new) }
        ensures stop { self.new.stop ≡ self.old.stop }
        ensures count { self.new.acknowledged ≡ self.old.acknowledged }
        ensures collection { self.new.collection ≡ self.old.collection }
    {
        match claim(
            &mut self.disk,
            &mut self.index,
            &mut self.parts,
            actor,
            seg,
            buf,
        ) {
            Ok(Claimed::Held) => Ok(Answer::Held),
            Ok(Claimed::Absent) => Ok(Answer::Absent),
            Err(refusal) => Err(refusal),
        }
    }

    fn commit(&mut self, actor: Actor, name: &[u8], root: &Root) -> Result<Answer, Refusal>
        requires up { IsUp (⟦<Core<D, M> as HasState>⟧.state self.old) }
        ensures made { (buf : List ℕ) → MadeBefore (asked.Commit name.now root.now) actor result buf
            (⟦<Core<D, M> as HasState>⟧.state self.old)
            (⟦<Core<D, M> as HasState>⟧.state self.new) }
        ensures stop { self.new.stop ≡ self.old.stop }
        ensures count { self.new.acknowledged ≡ self.old.acknowledged }
        ensures collection { self.new.collection ≡ self.old.collection }
    {
        match commit(
            self.alloc,
            &mut self.disk,
            &mut self.tables,
            &mut self.parts,
            actor,
            name,
            root,
        ) {
            Ok(sequence) => Ok(Answer::Committed { sequence }),
            Err(refusal) => Err(refusal),
        }
    }

    fn open_read(&mut self, actor: Actor, name: &[u8]) -> Result<Answer, Refusal>
        ensures made { (buf : List ℕ) → MadeBefore (asked.OpenRead name.now) actor result buf
            (⟦<Core<D, M> as HasState>⟧.state self.old)
            (⟦<Core<D, M> as HasState>⟧.state self.new) }
        ensures stop { self.new.stop ≡ self.old.stop }
        ensures count { self.new.acknowledged ≡ self.old.acknowledged }
        ensures collection { self.new.collection ≡ self.old.collection }
    {
        match open_read(self.alloc, &self.tables.names, &mut self.parts, actor, name) {
            Ok(length) => Ok(Answer::Opened { length }),
            Err(refusal) => Err(refusal),
        }
    }

    fn read_next<H: TakesDigests>(
        &mut self,
        digests: &mut H,
        actor: Actor,
        buf: &mut SegBuf,
    ) -> Result<Answer, Refusal>
        requires up { IsUp (⟦<Core<D, M> as HasState>⟧.state self.old) }
        ensures made { MadeBefore asked.ReadNext actor result buf.new (⟦<Core<D, M> as HasState>⟧.state self.old)
            (⟦<Core<D, M> as HasState>⟧.state self.new) }
        ensures stop { self.new.stop ≡ self.old.stop }
        ensures count { self.new.acknowledged ≡ self.old.acknowledged }
        ensures collection { self.new.collection ≡ self.old.collection }
    {
        match read_next(
            &mut self.disk,
            &mut self.index,
            digests,
            &mut self.parts,
            actor,
            buf,
        ) {
            Ok(given) => match given {
                Some(count) => Ok(Answer::Bytes { count }),
                None => Ok(Answer::End),
            },
            Err(refusal) => Err(refusal),
        }
    }

    fn end_read(&mut self, actor: Actor) -> Result<Answer, Refusal>
        ensures made { (buf : List ℕ) → MadeBefore asked.EndRead actor result buf (⟦<Core<D, M> as HasState>⟧.state self.old)
            (⟦<Core<D, M> as HasState>⟧.state self.new) }
        ensures stop { self.new.stop ≡ self.old.stop }
        ensures count { self.new.acknowledged ≡ self.old.acknowledged }
        ensures collection { self.new.collection ≡ self.old.collection }
    {
        match end_read(&mut self.parts, actor) {
            Ok(()) => Ok(Answer::Dropped),
            Err(refusal) => Err(refusal),
        }
    }

    fn delete(&mut self, actor: Actor, name: &[u8]) -> Result<Answer, Refusal>
        requires up { IsUp (⟦<Core<D, M> as HasState>⟧.state self.old) }
        ensures made { (buf : List ℕ) → MadeBefore (asked.Delete name.now) actor result buf
            (⟦<Core<D, M> as HasState>⟧.state self.old)
            (⟦<Core<D, M> as HasState>⟧.state self.new) }
        ensures stop { self.new.stop ≡ self.old.stop }
        ensures count { self.new.acknowledged ≡ self.old.acknowledged }
        ensures collection { self.new.collection ≡ self.old.collection }
    {
        match delete(self.alloc, &mut self.disk, &mut self.tables, name) {
            Ok(sequence) => Ok(Answer::Deleted { sequence }),
            Err(refusal) => Err(refusal),
        }
    }

    fn list(&mut self, actor: Actor) -> Result<Answer, Refusal>
        ensures made { (buf : List ℕ) → MadeBefore asked.ListNames actor result buf (⟦<Core<D, M> as HasState>⟧.state self.old)
            (⟦<Core<D, M> as HasState>⟧.state self.new) }
        ensures stop { self.new.stop ≡ self.old.stop }
        ensures count { self.new.acknowledged ≡ self.old.acknowledged }
        ensures collection { self.new.collection ≡ self.old.collection }
    {
        match list(self.alloc, &self.tables) {
            Ok(files) => Ok(Answer::Listed { files }),
            Err(refusal) => Err(refusal),
        }
    }

    // The seal alone: what is kept is live already, where a collection runs.
    fn seal_alone(
        &mut self,
        actor: Actor,
        filled: &[OpenContainer],
        buf: &mut SegBuf,
    ) -> Result<Answer, Refusal>
        requires asked { IsStep (asked.Seal filled.now) }
        requires up { IsUp (⟦<Core<D, M> as HasState>⟧.state self.old) }
        ensures made { (bytes : List ℕ) → MadeBefore (asked.Seal filled.now) actor result bytes
            (⟦<Core<D, M> as HasState>⟧.state self.old)
            (⟦<Core<D, M> as HasState>⟧.state self.new) }
        ensures stop { self.new.stop ≡ self.old.stop }
        ensures count { self.new.acknowledged ≡ self.old.acknowledged }
        ensures collection { self.new.collection ≡ self.old.collection }
    {
        match seal_together(
            self.alloc,
            &mut self.disk,
            &mut self.tables,
            &mut self.index,
            &mut self.parts,
            actor,
            filled,
            buf,
        ) {
            Ok(sealed) => Ok(Answer::Sealed {
                id: sealed.id,
                count: sealed.count,
            }),
            Err(refusal) => Err(refusal),
        }
    }

    // What is claimed becomes live before it is pinned, so that no pin is dead at any moment; it is live no more where it isn't held.
    fn claim(&mut self, actor: Actor, seg: &Seg, buf: &mut SegBuf) -> Result<Answer, Refusal>
        requires segment { IsStepSegment seg.now }
        requires up { IsUp (⟦<Core<D, M> as HasState>⟧.state self.old) }
        ensures made { MadeBefore (asked.Claim seg.now) actor result buf.new (⟦<Core<D, M> as HasState>⟧.state self.old)
            (⟦<Core<D, M> as HasState>⟧.state self.new) }
        ensures collects { Collects (asked.Claim seg.now) result (⟦<Core<D, M> as HasState>⟧.state self.old)
            (⟦<Core<D, M> as HasState>⟧.state self.new) }
        ensures stop { self.new.stop ≡ self.old.stop }
        ensures count { self.new.acknowledged ≡ self.old.acknowledged }
    {
        let fresh = mark_key(self.alloc, &mut self.collection, &seg.key())?;
        let answer = self.claim_alone(actor, seg, buf);
        unmark_unless(&mut self.collection, &fresh, is_held(&answer));
        answer
    }

    // So it is with the segments of the containers that are sealed: those for which there is room.
    fn seal(
        &mut self,
        actor: Actor,
        filled: &[OpenContainer],
        buf: &mut SegBuf,
    ) -> Result<Answer, Refusal>
        requires asked { IsStep (asked.Seal filled.now) }
        requires up { IsUp (⟦<Core<D, M> as HasState>⟧.state self.old) }
        ensures made { (bytes : List ℕ) → MadeBefore (asked.Seal filled.now) actor result bytes
            (⟦<Core<D, M> as HasState>⟧.state self.old)
            (⟦<Core<D, M> as HasState>⟧.state self.new) }
        ensures collects { Collects (asked.Seal filled.now) result (⟦<Core<D, M> as HasState>⟧.state self.old)
            (⟦<Core<D, M> as HasState>⟧.state self.new) }
        ensures stop { self.new.stop ≡ self.old.stop }
        ensures count { self.new.acknowledged ≡ self.old.acknowledged }
    {
        let room = room_for(&self.tables, filled.len());
        let fresh = mark_containers(self.alloc, &mut self.collection, &filled[..room])?;
        let answer = self.seal_alone(actor, filled, buf);
        unmark_unless(&mut self.collection, &fresh, answer.is_ok());
        answer
    }

    fn gc_start(&mut self, actor: Actor, percent: Percent) -> Result<Answer, Refusal>
        requires up { IsUp (⟦<Core<D, M> as HasState>⟧.state self.old) }
        ensures made { (buf : List ℕ) → MadeBefore (asked.GcStart percent) actor result buf
            (⟦<Core<D, M> as HasState>⟧.state self.old)
            (⟦<Core<D, M> as HasState>⟧.state self.new) }
        ensures stop { self.new.stop ≡ self.old.stop }
        ensures count { self.new.acknowledged ≡ self.old.acknowledged }
    {
        if let Some(running) = &self.collection {
            return Err(Refusal::Collecting {
                phase: phase_of(running),
            });
        }
        let begun = start(
            self.alloc,
            &mut self.disk,
            &self.tables,
            &mut self.index,
            &self.parts,
            percent,
        )?;
        let snapshot = begun.snapshot;
        self.collection = Some(begun);
        Ok(Answer::Started { snapshot })
    }

    fn gc_step(&mut self, actor: Actor, buf: &mut SegBuf) -> Result<Answer, Refusal>
        requires up { IsUp (⟦<Core<D, M> as HasState>⟧.state self.old) }
        ensures made { MadeBefore asked.GcStep actor result buf.new (⟦<Core<D, M> as HasState>⟧.state self.old)
            (⟦<Core<D, M> as HasState>⟧.state self.new) }
        ensures stop { self.new.stop ≡ self.old.stop }
        ensures count { self.new.acknowledged ≡ self.old.acknowledged }
    {
        let Some(running) = &mut self.collection else {
            return Err(Refusal::NotCollecting);
        };
        match step(
            self.alloc,
            &mut self.disk,
            &mut self.tables,
            &mut self.index,
            running,
            buf.bytes_mut(),
        )? {
            StepDone::Did(phase) => Ok(Answer::Did { phase }),
            StepDone::Done { freed, copied } => {
                self.collection = None;
                Ok(Answer::Done {
                    freed: freed as u64,
                    copied: copied as u64,
                })
            }
        }
    }

    fn stat(&self) -> Answer
        requires { IsUp (⟦<Core<D, M> as HasState>⟧.state self.now) }
        ensures { IsCount result (⟦<Core<D, M> as HasState>⟧.state self.now) }
    {
        stat(&self.tables)
    }

    fn unique(&mut self, actor: Actor, buf: &mut SegBuf) -> Result<Answer, Refusal>
        requires up { IsUp (⟦<Core<D, M> as HasState>⟧.state self.old) }
        ensures made { MadeBefore asked.Unique actor result buf.new (⟦<Core<D, M> as HasState>⟧.state self.old)
            (⟦<Core<D, M> as HasState>⟧.state self.new) }
        ensures stop { self.new.stop ≡ self.old.stop }
        ensures count { self.new.acknowledged ≡ self.old.acknowledged }
        ensures collection { self.new.collection ≡ self.old.collection }
    {
        unique(
            self.alloc,
            &mut self.disk,
            &mut self.index,
            &self.tables.names,
            buf.bytes_mut(),
        )
    }

    // Makes a step of a core that isn't stopped.
    fn make<H: TakesDigests>(
        &mut self,
        digests: &mut H,
        actor: Actor,
        step: Step<'_>,
        buf: &mut SegBuf,
    ) -> Result<Answer, Refusal>
        requires asked { IsStep (step_value step) }
        requires up { IsUp (⟦<Core<D, M> as HasState>⟧.state self.old) }
        ensures made { MadeBefore (step_value step.entry) actor result buf.new (⟦<Core<D, M> as HasState>⟧.state self.old)
            (⟦<Core<D, M> as HasState>⟧.state self.new) }
        ensures collects { Collects (step_value step.entry) result (⟦<Core<D, M> as HasState>⟧.state self.old)
            (⟦<Core<D, M> as HasState>⟧.state self.new) }
        ensures stop { self.new.stop ≡ self.old.stop }
        ensures count { self.new.acknowledged ≡ self.old.acknowledged }
    {
        match step {
            Step::Begin => self.begin(actor),
            Step::Claim { seg } => self.claim(actor, seg, buf),
            Step::Seal { filled } => self.seal(actor, filled, buf),
            Step::Commit { name, root } => self.commit(actor, name, root),
            Step::Abort => self.abort(actor),
            Step::OpenRead { name } => self.open_read(actor, name),
            Step::ReadNext => self.read_next(digests, actor, buf),
            Step::EndRead => self.end_read(actor),
            Step::Delete { name } => self.delete(actor, name),
            Step::List => self.list(actor),
            Step::GcStart { percent } => self.gc_start(actor, *percent),
            Step::GcStep => self.gc_step(actor, buf),
            Step::Stat => Ok(self.stat()),
            Step::Unique => self.unique(actor, buf),
        }
    }

    // Makes a step of an actor, with these digests of what is read.
    fn step_with<H: TakesDigests>(
        &mut self,
        digests: &mut H,
        actor: Actor,
        step: Step<'_>,
        buf: &mut SegBuf,
    ) -> Result<Answer, Refusal>
        requires asked { IsStep (step_value step) }
        requires running { IsRunning (⟦<Core<D, M> as HasState>⟧.state self.old) }
        ensures step { CoreStep (⟦<Core<D, M> as HasState>⟧.state self.old)
            (record { actor = actor; step = step_value step.entry; answer = result; buf = buf.new })
            (⟦<Core<D, M> as HasState>⟧.state self.new) }
        ensures stopped { IfSome (⟦<Core<D, M> as HasState>⟧.state self.old).stop (λ stop. (result ≡ Err (Stopped stop.at))
            × IsSame (⟦<Core<D, M> as HasState>⟧.state self.old) (⟦<Core<D, M> as HasState>⟧.state self.new)
            × (buf.new ≡ buf.old)) }
        ensures running { IsRunning (⟦<Core<D, M> as HasState>⟧.state self.new) }
    {
        if let Some(stop) = &self.stop {
            return Err(Refusal::Stopped { at: stop.at });
        }
        let answer = self.make(digests, actor, step, buf);
        self.stop = stop_after(&step, &answer, self.acknowledged);
        self.acknowledged = count_after(&answer, self.acknowledged);
        answer
    }

    /// Makes a step of an actor. docs/MODEL.md, 'The core', has the table of steps: what each does, answers and is refused by.
    ///
    /// After `DiskWrite`, and after `Damaged` that a seal met in the index, the core is stopped: each further step is refused by
    /// `Stopped`, with how many puts and deletes had been acknowledged since the opening, and changes nothing.
    pub fn step(
        &mut self,
        actor: Actor,
        step: Step<'_>,
        buf: &mut SegBuf,
    ) -> Result<Answer, Refusal>
        requires asked { IsStep (step_value step) }
        requires running { IsRunning (⟦<Core<D, M> as HasState>⟧.state self.old) }
        ensures step { CoreStep (⟦<Core<D, M> as HasState>⟧.state self.old)
            (record { actor = actor; step = step_value step.entry; answer = result; buf = buf.new })
            (⟦<Core<D, M> as HasState>⟧.state self.new) }
        ensures stopped { IfSome (⟦<Core<D, M> as HasState>⟧.state self.old).stop (λ stop. (result ≡ Err (Stopped stop.at))
            × IsSame (⟦<Core<D, M> as HasState>⟧.state self.old) (⟦<Core<D, M> as HasState>⟧.state self.new)
            × (buf.new ≡ buf.old)) }
        ensures running { IsRunning (⟦<Core<D, M> as HasState>⟧.state self.new) }
    {
        self.step_with(&mut Afresh, actor, step, buf)
    }

    /// Reads ahead of an actor that is given a file, where it was given all that was read ahead before, and answers whether it did;
    /// `ReadAhead::take_digests` has to come after it then.
    pub fn look_ahead(&self, ahead: &mut ReadAhead, actor: Actor, buf: &mut SegBuf) -> bool {
        ahead.look_ahead(self.alloc, &self.disk, &self.index, &self.parts, actor, buf)
    }

    /// Makes the step `ReadNext` of an actor, with the digests of what was read ahead.
    pub fn next_ahead(
        &mut self,
        ahead: &mut ReadAhead,
        actor: Actor,
        buf: &mut SegBuf,
    ) -> Result<Answer, Refusal>
        requires running { IsRunning (⟦<Core<D, M> as HasState>⟧.state self.old) }
        ensures step { CoreStep (⟦<Core<D, M> as HasState>⟧.state self.old)
            (record { actor = actor; step = asked.ReadNext; answer = result; buf = buf.new })
            (⟦<Core<D, M> as HasState>⟧.state self.new) }
        ensures running { IsRunning (⟦<Core<D, M> as HasState>⟧.state self.new) }
    {
        self.step_with(ahead, actor, Step::ReadNext, buf)
    }

    /// Whether it runs. The refusal is that of each step once it is stopped, with how many puts and deletes had been acknowledged.
    pub fn running(&self) -> Result<(), Refusal>
        ensures runs { OnOk result ((⟦<Core<D, M> as HasState>⟧.state self.now).stop ≡ None) }
        ensures stopped { IfErr result (IsStopped (⟦<Core<D, M> as HasState>⟧.state self.now).stop) }
    {
        match &self.stop {
            Some(stop) => Err(Refusal::Stopped { at: stop.at }),
            None => Ok(()),
        }
    }

    /// What an actor is at.
    pub fn part_kind(&self, actor: Actor) -> PartKind
        ensures { result ≡ kind_of (part_of (⟦<Core<D, M> as HasState>⟧.state self.now).parts actor) }
    {
        self.parts.part(actor).kind()
    }

    /// The last sequence number that was given out, 0 where there was none.
    pub fn last_sequence(&self) -> u64
        ensures { result ≡ (⟦<Core<D, M> as HasState>⟧.state self.now).tables.journal.last }
    {
        self.tables.journal.last()
    }

    /// How many puts and deletes were acknowledged since the opening: the lines of its book.
    pub fn acknowledged(&self) -> u64
        ensures { result ≡ (⟦<Core<D, M> as HasState>⟧.state self.now).acknowledged }
    {
        self.acknowledged
    }

    /// The moment of its disk, or 2^64 - 1 where that is less.
    pub fn moment(&self) -> u64
        ensures { result ≡ min (⟦<Core<D, M> as HasState>⟧.state self.now).disk.clock (2 ^ 64 - 1) }
    {
        self.disk.moment()
    }

    /// The refusal that stopped it; none while it runs.
    pub fn stopped_by(&self) -> Option<Refusal>
        ensures { result ≡ option_map (λ stop. stop.refusal) (⟦<Core<D, M> as HasState>⟧.state self.now).stop }
    {
        match &self.stop {
            Some(stop) => Some(stop.refusal),
            None => None,
        }
    }
}

impl<D: Disk, M: Summary + Drop> Core<D, M> {
    /// Its disk, which is all that is left of it.
    pub fn close(self) -> D
        ensures disk { Reads Done (⟦<Core<D, M> as HasState>⟧.state self).disk (D.view result) }
        ensures moment { (D.view result).clock ≡ (⟦<Core<D, M> as HasState>⟧.state self).disk.clock }
    {
        self.disk
    }
}
