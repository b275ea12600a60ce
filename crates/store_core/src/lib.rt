//! The core of a running store, for one thread (docs/MODEL.md, 'The core').
#![tactic(auto)]

mod laws;
mod marking;
mod opening;
mod running;
mod solo;
mod state;
mod stop;

pub use laws::{
    a_core_bounds_collections, a_core_finds_all_keys, a_core_keeps_segments,
    a_core_keeps_what_is_written, a_core_runs_on, an_answer_fits_its_step,
};
pub use running::Core;
pub use solo::Solo;
pub use state::HasState;
pub use stop::Stop;
