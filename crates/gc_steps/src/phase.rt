//! What a step of a collection answers.
ghost use Rattle.std.specs.Prelude.{◌≡◌};
ghost use Rattle.gc_steps.specs.Stepping.{phase_at};

use crate::collection::{Collection, Stage};
use gc_sweep::Next;
use refusals::Phase;

/// What a step did.
#[derive(Clone, Copy)]
pub enum StepDone {
    /// This, and the collection goes on.
    Did(Phase),
    /// The collection is at its end; so many sources were given back, and so many segments copied.
    Done { freed: usize, copied: usize },
}

/// What the next step does.
pub fn phase_of(collection: &Collection) -> Phase
    ensures { result ≡ phase_at collection.now.stage collection.now.sweep.next }
{
    match collection.stage {
        Stage::Mark { .. } => Phase::Mark,
        Stage::Filter { .. } => Phase::Filter,
        Stage::Select => Phase::Select,
        Stage::Sweep => match collection.sweep.next {
            Next::Copy { .. } => Phase::Copy,
            Next::Flush { .. } => Phase::Flush,
            Next::Release { .. } => Phase::Release,
            Next::End => Phase::End,
        },
    }
}
