//! The digests of many byte strings at once, by several threads, also before they are asked for.
#![tactic(auto)]

mod ahead;
mod at_once;
mod texts;

pub use ahead::{Afresh, Ahead, TakesDigests};
pub use at_once::{LEAST_AT_ONCE, digests, has_threads};
pub use texts::Texts;
