//! The commands of ddfs over any disk, source and sink.
#![tactic(auto)]

mod by_files;
mod checking;
mod collecting;
mod deleting;
mod format;
mod giving;
mod ingest;
mod laws;
mod lent;
mod listing;
mod load_words;
mod putting;
mod reply;
mod restore;
mod script;
mod storing;
mod top_call;
mod words;
mod working;

pub use laws::{a_command_answers_by_the_map, commands_follow_the_map};
pub use top_call::{backup, backup_alone, size_of_format};
