//! What has a state, makes steps and is opened again, as a core.
ghost use Rattle.std.specs.Prelude.{◌≡◌, ◌-◌, ◌^◌, Bool, IfErr, OnOk, min};
ghost use Rattle.summary_vector.specs.Banks.{Banks};
ghost use Rattle.actor_parts.specs.Kinds.{kind_of};
ghost use Rattle.actor_parts.specs.Parts.{part_of};
ghost use Rattle.actor_parts.specs.StepValue as asked;
ghost use Rattle.actor_parts.specs.StepValue.{IsStep, step_value};
ghost use Rattle.store_core.specs.Core.{CoreStep};
ghost use Rattle.store_core.specs.Opening.{OpensCore, OpensNone, StaysOrStops};
ghost use Rattle.store_core.specs.State.{CoreState, IsRunning, IsStopped};

use actor_parts::{Actor, Answer, SegBuf, Step};
use read_steps::ReadAhead;
use refusals::{PartKind, Refusal};

/// What has a state, makes steps and is opened again, as a core.
pub trait HasState {
    /// Its state.
    ghost state: { Self → CoreState };

    /// Whether it has a summary of the keys that are stored.
    ghost there: { Self → Bool };

    /// The banks of that summary.
    ghost banks: { Self → Banks };

    /// Makes a step of an actor.
    fn make_step(
        &mut self,
        actor: Actor,
        step: Step<'_>,
        buf: &mut SegBuf,
    ) -> Result<Answer, Refusal>
        requires asked { IsStep (step_value step) }
        requires running { IsRunning (state self.old) }
        ensures step { CoreStep (state self.old)
            (record { actor = actor; step = step_value step.entry; answer = result; buf = buf.new }) (state self.new) }
        ensures running { IsRunning (state self.new) };

    /// Reads ahead of an actor that is given a file, where it was given all that was read ahead before, and answers whether it did;
    /// `ReadAhead::take_digests` has to come after it then.
    fn look_ahead(&self, ahead: &mut ReadAhead, actor: Actor, buf: &mut SegBuf) -> bool;

    /// Makes the step `ReadNext` of an actor, with the digests of what was read ahead.
    fn next_ahead(
        &mut self,
        ahead: &mut ReadAhead,
        actor: Actor,
        buf: &mut SegBuf,
    ) -> Result<Answer, Refusal>
        requires running { IsRunning (state self.old) }
        ensures step { CoreStep (state self.old)
            (record { actor = actor; step = asked.ReadNext; answer = result; buf = buf.new }) (state self.new) }
        ensures running { IsRunning (state self.new) };

    /// Opens the store on its disk again, in place, and makes room where it has to. The refusals are those of an opening. Where nothing
    /// was written they leave it as it was; else it is stopped.
    fn reopen(&mut self) -> Result<(), Refusal>
        ensures opened { OnOk result (OpensCore Self (λ c. (state c).disk) (state self.old).disk (state self.new)) }
        ensures running { OnOk result (IsRunning (state self.new)) }
        ensures summary { (there self.new ≡ there self.old) × (banks self.new ≡ banks self.old) }
        ensures refused { IfErr result (λ refusal. OpensNone Self (λ c. (state c).disk) refusal (state self.old).disk
            (state self.new).disk) }
        ensures kept { IfErr result (λ refusal. StaysOrStops Self (λ c. (state c).disk) refusal (state self.old) (state self.new)) }
        ensures runs_on { IsRunning (state self.old) → IsRunning (state self.new) };

    /// Whether it runs; the refusal is that of each step once it is stopped.
    fn running(&self) -> Result<(), Refusal>
        ensures runs { OnOk result ((state self.now).stop ≡ None) }
        ensures stopped { IfErr result (IsStopped (state self.now).stop) };

    /// What an actor is at.
    fn part_kind(&self, actor: Actor) -> PartKind
        ensures { result ≡ kind_of (part_of (state self.now).parts actor) };

    /// The last sequence number that was given out, 0 where there was none.
    fn last_sequence(&self) -> u64
        ensures { result ≡ (state self.now).tables.journal.last };

    /// How many puts and deletes were acknowledged since the opening: the lines of its book.
    fn acknowledged(&self) -> u64
        ensures { result ≡ (state self.now).acknowledged };

    /// The moment of its disk, or 2^64 - 1 where that is less.
    fn moment(&self) -> u64
        ensures { result ≡ min (state self.now).disk.clock (2 ^ 64 - 1) };
}
