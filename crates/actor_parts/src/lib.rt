//! What callers and the store's core say to each other: actors and what each is at, the steps that are asked, and what
//! is answered.
//!
//! The rules are docs/MODEL.md, 'Actors, steps and answers'.
#![tactic(auto)]

mod actor;
mod answered;
mod part;
mod parts;
mod pins;
mod seg_buf;
mod step;
mod store_calls;
mod tree_seg;
mod unpinned;

pub use actor::{ACTORS, Actor, Percent};
pub use answered::Answered;
pub use part::{Part, Reader};
pub use parts::{Parts, parts_are_apart};
pub use pins::{Pin, Pins};
pub use seg_buf::SegBuf;
pub use step::{Answer, MOST_TOGETHER, Step};
pub use store_calls::StoreCalls;
pub use tree_seg::node_seg;
pub use unpinned::{first_unpinned, first_unpinned_in, pin_in, pin_of};
