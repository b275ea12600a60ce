//! The lines of scripts, run over a core.
#![tactic(auto)]

mod acting;
mod admitting;
mod collecting;
mod giving;
mod laws;
mod naming;
mod reopening;
mod runner;
mod sessions;
mod taking;

pub use collecting::{begin_collection, sweep};
pub use laws::{
    an_opened_core_is_at_a_desk, lines_are_file_runs, lines_are_runs, lines_go_on,
    lines_keep_what_is_written,
};
pub use runner::{Halt, Runner};
pub use sessions::Sessions;
