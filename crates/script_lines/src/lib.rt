//! The lines of scripts, as they are read, and the replies to them, as they are printed: docs/FORMAT.md, 'Scripts'.
#![tactic(auto)]

mod digits;
mod line;
mod reader;
mod reply;
mod script;
mod words;

pub use digits::decode_into;
pub use line::{Line, one_line, read_line};
pub use reader::{NextLine, ScriptReader, reads_tell_scripts};
pub use reply::{Holdings, Reply, Turned, print_reply};
pub use script::{
    MOST_LINE, MOST_SCRIPT, scripts_are_clear, scripts_are_read_by_line, scripts_end_or_break,
};
