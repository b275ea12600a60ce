//! A collection: what nothing needs is found, and containers that hold nothing else are given back. It begins with `start`; each
//! other call does the next step of one kind (docs/MODEL.md, 'Collection').
#![tactic(auto)]

mod collection;
mod copies;
mod filtering;
mod fresh;
mod laws;
mod marking;
mod phase;
mod roots;
mod slots;
mod starting;
mod stepping;
mod sweeping;

pub use collection::{Collection, Stage};
pub use fresh::{mark_fresh, unmark};
pub use laws::{
    marking_keeps_it_under_way, sealing_brings_no_steps, sealing_keeps_it_under_way,
    unmarking_undoes_marking,
};
pub use phase::{StepDone, phase_of};
pub use starting::start;
pub use stepping::step;
