//! What the programs of rows share: lines of transcripts, the words of a line, the text of an answer, and a meeting of two threads.
//!
//! A line that begins with a space goes on with the one before it; one that begins with `#` is passed over, and `## TITLE` is printed.
//! `let NAME TEXT`, or `TEXT*COUNT`, has `{NAME}` stand for that text in all lines after it. `ROW => ANSWER` is a row, and
//! `many FROM TO ROW => ANSWER` a row for each number, which stands where `#` is. What other lines say is done before the rows after them.
#![tactic(auto)]

mod fills;
mod meeting;
mod suite;
mod text;
mod words;

pub use fills::{FILLS, by_fill, fill_of};
pub use meeting::Meeting;
pub use suite::{Stage, Suite};
pub use text::Text;
pub use words::{
    Fault, add_piece, byte_of, bytes_of, change, decoded, number, numbers_of, word_of, words_of,
};
