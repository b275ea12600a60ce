//! What a command says: the lines of its reply, the line in the notes where it was not done, and its exit status.
#![tactic(auto)]

mod checking;
mod digits;
mod ending;
mod notes;
mod status;
mod text;

pub use checking::{write_checked, write_damage};
pub use ending::Ending;
pub use notes::{phase_word, refused_line, write_fault};
pub use status::status_of;
pub use text::{
    deleted_line, formatted_line, listing_text, stored_line, summary_text, unique_line,
};
