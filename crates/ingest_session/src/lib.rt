//! Sessions: the bytes of a file of any length as they come, outside the store, and the steps of the store that have the
//! file held.
//!
//! A session cuts the bytes into segments, which wait in a queue, builds the tree over them, and fills a container of
//! segments and one of nodes. Finished nodes wait in line while children of theirs lie in an open container, so that it fills.
//! `due` says which step is next, a claim or a seal; `told` takes what the store answered. After `finish`, where nothing is due,
//! `ready` has the root of the file.
//!
//! Proved: which step is due, what each answer makes of the session, and what each call is refused by. After calls in any
//! order, and for all answers that the steps can have: what is claimed and sealed are pieces of the file, children before
//! their parents; what was sealed was answered Absent; each answer leaves less to do; and when the file has ended and nothing
//! is due, each piece of it was answered Held, or sealed, and the root is that of all bytes that were taken. docs/PROOFS.md,
//! 'Steps', says what isn't proved.
#![tactic(auto)]

mod aside;
mod asking;
mod chunks;
mod counting;
mod due;
mod ending;
mod laws;
mod line;
mod placing;
mod queue;
mod session;
mod settling;
mod telling;

pub use due::Due;
pub use laws::{
    all_is_kept, bytes_are_counted, children_come_first, due_is_one, kept_is_one, nodes_are_few,
    seals_were_absent, steps_are_few, steps_have_pieces,
};
pub use line::{LONG_LINE, MOST_LINE};
pub use queue::{LONG_QUEUE, MOST_WAITING, QUEUE};
pub use session::Session;
