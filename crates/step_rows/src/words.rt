//! Actors, as words of a line.
use actor_parts::Actor;
use transcripts::{Fault, number};

/// The actor of a number.
pub(crate) fn actor_of(word: &str) -> Result<Actor, Fault> {
    Actor::new(number(word)?).ok_or(Fault::Line)
}
