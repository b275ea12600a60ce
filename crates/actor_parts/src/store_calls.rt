//! The store as those see it who ask for steps.
ghost use Rattle.std.specs.Prelude.{ℕ, List, Result, IfOk};
ghost use Rattle.refusals.specs.declared.refusal.Refusal.{Refusal};
ghost use Rattle.actor_parts.specs.declared.step.Answer.{Answer};
ghost use Rattle.actor_parts.specs.Asking.{IsAnswerTo};
ghost use Rattle.actor_parts.specs.StepValue.{StepValue, step_value, IsStep};
ghost use Rattle.actor_parts.specs.Counts.{Counts, is_refused_by, is_end};

use crate::seg_buf::SegBuf;
use crate::step::{Answer, Step};
use refusals::Refusal;

/// A caller of the store: a core alone, or one of several callers of a store that they share. Each call makes one step,
/// as the caller's own actor.
pub trait StoreCalls {
    /// How often steps were refused by the refusal of a number.
    ghost refused: { Self → ℕ → ℕ };

    /// How often the answer was that a file has ended.
    ghost ended: { Self → ℕ };

    /// What a step does: the caller before, what was asked, the answer, what the buffer then holds, the caller after.
    ghost asks: { Self → StepValue → Result Answer Refusal → List ℕ → Self → Type 0 };

    /// Makes a step. A segment of a tree in it is a node of its level, and a container holds a segment at least.
    fn ask(&mut self, step: Step<'_>, buf: &mut SegBuf) -> Result<Answer, Refusal>
        requires { IsStep (step_value step) }
        ensures asks { asks self.old (step_value step.entry) result buf.new self.new }
        ensures fits { IfOk result (λ answer. IsAnswerTo (step_value step.entry) answer) }
        ensures refused { (number : ℕ) → Counts (is_refused_by number result) (refused self.old number) (refused self.new number) }
        ensures ended { Counts (is_end result) (ended self.old) (ended self.new) };
}
