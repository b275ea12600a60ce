//! What stops a core.

use refusals::Refusal;

/// A core that is stopped makes no step any more.
#[derive(Clone, Copy)]
pub struct Stop {
    /// The refusal that stopped it.
    pub refusal: Refusal,
    /// How many puts and deletes had been acknowledged since the opening.
    pub at: u64,
}
