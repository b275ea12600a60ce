//! Workers that store generated files, each by a caller of its own (docs/MODEL.md, 'Workers').
#![tactic(auto)]

mod gate;
mod job;
mod laws;
mod running;
mod serving;
mod storing;
mod workers;

pub use crate::gate::{Gate, OpenGate};
pub use crate::job::{Job, JobEnd};
pub use crate::laws::{
    a_worker_leaves_its_actor, done_jobs_have_names, what_is_given_is_ingested,
    what_is_owed_is_right, what_jobs_ask_for_is_owed,
};
pub use crate::running::run_jobs;
