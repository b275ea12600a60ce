//! Workers over a store that is shared (docs/MODEL.md, 'Workers').
#![tactic(auto)]

mod collecting;
mod laws;
mod whole;
mod working;

pub use crate::collecting::collect_once;
pub use crate::laws::{
    a_work_is_a_run, a_work_is_complete, a_work_leaves_its_files, a_workers_pass_comes_free,
    nothing_clashes, nothing_lacks_a_pin, what_workers_ask_is_done, work_leaves_streams,
};
pub use crate::whole::{Finished, Summary, work_through};
pub use crate::working::{Worked, work_together};
