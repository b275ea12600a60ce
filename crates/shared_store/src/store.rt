//! The store.
ghost use Rattle.std.specs.Prelude.{◌≡◌, ◌↔◌, IfErr, IfOk, IsTrue, OnOk, replicate};
ghost use Rattle.actor_parts.specs.declared.actor.TheConstants.{ACTORS};
ghost use Rattle.actor_parts.specs.declared.part.Part.TheVariants.{Idle};
ghost use Rattle.actor_parts.specs.Counts.{is_refused_by};
ghost use Rattle.actor_parts.specs.StepValue.{IsStep, step_value};
ghost use Rattle.refusals.specs.declared.refusal.PartKind.TheVariants as kinds;
ghost use Rattle.refusals.specs.declared.refusal.Refusal.TheVariants.{NoActor};
ghost use Rattle.store_core.specs.State.{IsRunning};
ghost use Rattle.turn_lock.specs.Lock.{Ends};
ghost use Rattle.shared_store.specs.Calls.{Calls, Closes, HandsBack, JoinsPass, OpensNoStore, OpensStore, SplitsPass, SplitsNoPass};
ghost use Rattle.shared_store.specs.Made.{MadeBy};
ghost use Rattle.shared_store.specs.Passes.{IsBusy, IsFirst, actor_of};

use crate::held::{Held, Stepped};
use crate::pass::Pass;
use actor_parts::{Actor, Answer, SegBuf, Step};
use dd_disk::Disk;
use refusals::{PartKind, Refusal};
use std::alloc::Global;
use std::marker::Model;
use std::sync::Wait;
use store_core::{Core, HasState};
use summary_vector::NoSummary;
use turn_lock::{Booked, NewPass, StillOpen, TurnLock};

/// A core that threads share. Contracts see which one it is.
#[derive(Drop)]
pub struct SharedStore<C: HasState> {
    lock: TurnLock<Held<C>>,
}

impl<C: HasState> Model for SharedStore<C> {
    ghost use Rattle.atomic_table.specs.Seated.{TableId};
    ghost use Rattle.turn_lock.specs.Lock.{lock_id};

    ghost Value = { TableId };

    ghost view = { λ s. lock_id s.lock };
}

/// A store that can't be closed yet, and the pass that was to close it: other passes are out.
pub struct StillShared<C: HasState> {
    pub store: SharedStore<C>,
    pub pass: Pass<C>,
    /// How many numbers of actors other passes have.
    pub others: u64,
}

// Whether a step found the store stopped.
fn is_stopped(answer: &Result<Answer, Refusal>) -> bool
    ensures { result ≡ is_refused_by 12 answer.now }
{
    matches!(answer, Err(Refusal::Stopped { .. }))
}

impl<C: HasState> SharedStore<C> {
    /// A store over a core that runs and whose actors are all idle, and its first pass, whose actor has the number 0. It fails for want
    /// of memory alone, and hands the core back then.
    pub fn new(alloc: Global, core: C) -> Result<(SharedStore<C>, Pass<C>), C>
        requires running { IsRunning (C.state core) }
        requires idle { (C.state core).parts ≡ replicate ACTORS Idle }
        ensures made { IfOk result (λ r. IsFirst C.state core r.0 r.1) }
        ensures refused { IfErr result (λ back. back ≡ core) }
    {
        let held = Held::new(core);
        let lines = held.lines();
        match TurnLock::new(alloc, held) {
            Ok((lock, turn)) => Ok((
                SharedStore { lock },
                Pass {
                    turn,
                    actor: first_actor(),
                    lines,
                    numbers: 1,
                    kind: PartKind::Idle,
                    stopped: false,
                },
            )),
            Err(held) => Err(held.into_core()),
        }
    }

    /// Waits for the turn of a pass, and makes a step as its actor. Answers and refusals are those of `Core::step`.
    pub fn call<R: Wait>(
        &self,
        rt: &R,
        pass: &mut Pass<C>,
        step: Step<'_>,
        buf: &mut SegBuf,
    ) -> Result<Answer, Refusal>
        requires pass { pass.old.store ≡ self.now }
        requires asked { IsStep (step_value step) }
        ensures called { Calls C.state (record { actor = actor_of pass.old; step = step_value step.entry; answer = result; buf = buf.new })
            pass.old pass.new }
    {
        let actor = pass.actor;
        let mut make = |held: &mut Held<C>| held.step(actor, step, buf);
        let made = self.lock.with_turn(rt, &mut pass.turn, &mut make);
        let Stepped {
            answer,
            lines,
            kind,
        } = made;
        pass.lines = lines;
        pass.kind = kind;
        pass.stopped = is_stopped(&answer);
        answer
    }

    /// Another pass, whose actor has the next number; it has seen what this one has seen then. Numbers are given out from 0 and never
    /// again; `NoActor` comes exactly where all 64 were. It waits for a turn, in which no step is made.
    pub fn split<R: Wait>(&self, rt: &R, pass: &mut Pass<C>) -> Result<Pass<C>, Refusal>
        requires pass { pass.old.store ≡ self.now }
        ensures split { IfOk result (λ other. SplitsPass C.state pass.old pass.new other) }
        ensures none { IfErr result (λ refusal. (refusal ≡ NoActor) × SplitsNoPass C.state pass.old pass.new) }
    {
        let other = self.lock.split_pass(rt, &mut pass.turn);
        match other {
            Ok(
                NewPass {
                    pass: turn,
                    number,
                    lines,
                },
            ) => {
                pass.lines = lines;
                let Some(actor) = Actor::new(number) else {
                    unreachable!()
                };
                Ok(Pass {
                    turn,
                    actor,
                    lines,
                    numbers: 1,
                    kind: PartKind::Idle,
                    stopped: false,
                })
            }
            Err(lines) => {
                pass.lines = lines;
                Err(Refusal::NoActor)
            }
        }
    }

    /// How many commands that were acknowledged a pass has seen, since the store was opened.
    pub fn seen(&self, pass: &Pass<C>) -> u64
        ensures { result ≡ pass.now.lines }
    {
        pass.lines
    }

    /// Takes in what another pass of this store has seen, and its numbers. The other is handed back exactly where its actor is at something
    /// and its last step did not find the store stopped. It waits for nothing.
    pub fn join(&self, pass: &mut Pass<C>, other: Pass<C>) -> Result<(), Pass<C>>
        requires pass { pass.old.store ≡ self.now }
        requires other { other.store ≡ self.now }
        ensures joined { OnOk result (JoinsPass C.state pass.old other pass.new) }
        ensures back { IfErr result (λ back. (back ≡ other) × IsBusy other × (pass.new ≡ pass.old)) }
    {
        if !is_idle(&other.kind) && !other.stopped {
            return Err(other);
        }
        let Pass {
            turn,
            actor: _actor,
            lines,
            numbers,
            kind: _kind,
            stopped: _stopped,
        } = other;
        self.lock.join_pass(&mut pass.turn, turn);
        pass.lines = pass.lines.max(lines);
        pass.numbers += numbers;
        Ok(())
    }
}

// The number of the first pass.
fn first_actor() -> Actor
    ensures { result ≡ 0 }
{
    let Some(actor) = Actor::new(0) else {
        unreachable!()
    };
    actor
}

fn is_idle(kind: &PartKind) -> bool
    ensures { IsTrue result ↔ (kind.now ≡ kinds.Idle) }
{
    matches!(kind, PartKind::Idle)
}

impl<C: HasState + Drop> SharedStore<C> {
    /// Waits for a last turn, and gives the core, where the pass has taken in all others; else hands store and pass back.
    pub fn into_core<R: Wait>(self, rt: &R, pass: Pass<C>) -> Result<C, StillShared<C>>
        requires pass { pass.store ≡ self }
        ensures ended { IfOk result (λ core. Ends (MadeBy C.state) pass.view core) }
        ensures running { IfOk result (λ core. IsRunning (C.state core)) }
        ensures back { IfErr result (λ back. HandsBack C.state pass back.others back.pass × (back.store ≡ self)) }
    {
        let SharedStore { lock } = self;
        let Pass {
            turn,
            actor,
            lines: _lines,
            numbers,
            kind,
            stopped,
        } = pass;
        match lock.close(rt, turn, numbers) {
            Ok(held) => Ok(held.into_core()),
            Err(
                StillOpen {
                    lock,
                    pass: turn,
                    others,
                    lines,
                },
            ) => Err(StillShared {
                store: SharedStore { lock },
                pass: Pass {
                    turn,
                    actor,
                    lines,
                    numbers,
                    kind,
                    stopped,
                },
                others,
            }),
        }
    }
}

impl<D: Disk> SharedStore<Core<D, NoSummary>> {
    /// Opens the store on a disk, and gives its first pass, whose actor has the number 0. The refusals are those of `Core::open`, and
    /// hand the disk back.
    pub fn open(
        alloc: Global,
        disk: D,
    ) -> Result<(SharedStore<Core<D, NoSummary>>, Pass<Core<D, NoSummary>>), (D, Refusal)>
        ensures opened { IfOk result (λ r. OpensStore D D.view (⟦<Core<D, NoSummary> as HasState>⟧.state) (D.view disk) r.0 r.1) }
        ensures refused { IfErr result (λ r. OpensNoStore D D.view (⟦<Core<D, NoSummary> as HasState>⟧.state) r.1 (D.view disk)
            (D.view r.0)) }
    {
        let core = match Core::open(alloc, disk, NoSummary) {
            Ok(core) => core,
            Err(refused) => return Err(refused),
        };
        match SharedStore::new(alloc, core) {
            Ok(made) => Ok(made),
            Err(core) => Err((core.close(), Refusal::Memory)),
        }
    }
}

impl<D: Disk + Drop> SharedStore<Core<D, NoSummary>> {
    /// Waits for a last turn, and gives the disk, where the pass has taken in all others, with the refusal that stopped the store, if one
    /// did; else hands store and pass back.
    pub fn close<R: Wait>(
        self,
        rt: &R,
        pass: Pass<Core<D, NoSummary>>,
    ) -> Result<(D, Option<Refusal>), StillShared<Core<D, NoSummary>>>
        requires pass { pass.store ≡ self }
        ensures closed { IfOk result (λ r. Closes (⟦<Core<D, NoSummary> as HasState>⟧.state) pass (D.view r.0) r.1) }
        ensures back { IfErr result (λ back. HandsBack (⟦<Core<D, NoSummary> as HasState>⟧.state) pass back.others back.pass
            × (back.store ≡ self)) }
    {
        let core = match self.into_core(rt, pass) {
            Ok(core) => core,
            Err(back) => return Err(back),
        };
        let stopped = core.stopped_by();
        Ok((core.close(), stopped))
    }
}
