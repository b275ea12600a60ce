//! A value that threads take in turns, and the history of the turns that were made.
//!
//! Each thread has a pass (`TurnPass`), which takes no bytes and knows a beginning of the one history of the lock. Passes have numbers;
//! a turn stands in the history under the number of the pass that made it, with the value that it left.
//!
//! A call that waits for its turn promises what it promises if it returns. Nothing is said of waiting: a turn that never ends blocks
//! all others, and so does a pass that waits behind one which is dropped in its turn.
#![tactic(auto)]

mod booked;
mod history;
mod lock;
mod plays;
mod rule;
mod turns;

pub use crate::booked::Booked;
pub use crate::history::{Home, Stage, Turn, View};
pub use crate::lock::{MOST_PASSES, NewPass, StillOpen, TurnLock, TurnPass};
