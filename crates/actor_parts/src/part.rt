//! What an actor is at.
ghost use Rattle.std.specs.Prelude.{◌≡◌};
ghost use Rattle.actor_parts.specs.Kinds.{kind_of};

use crate::pins::Pins;
use merkle_file::Cursor;
use namespace::Root;
use refusals::PartKind;

/// A file that is given back, and how far.
#[derive(Drop)]
pub struct Reader {
    /// The file's root.
    pub root: Root,
    /// What is still to come of it.
    pub cursor: Cursor,
}

/// What an actor is at.
#[derive(Drop)]
pub enum Part {
    /// Nothing.
    Idle,
    /// It stores a file, and keeps these segments for it.
    Writing(Pins),
    /// It takes a file.
    Reading(Reader),
}

impl Part {
    /// Its name in a refusal. The store does not know that a file was given whole: no part is Finished.
    pub fn kind(&self) -> PartKind
        ensures { result ≡ kind_of self.now }
    {
        match self {
            Part::Idle => PartKind::Idle,
            Part::Writing(_) => PartKind::Writing,
            Part::Reading(_) => PartKind::Reading,
        }
    }
}
