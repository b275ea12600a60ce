//! Segments, and the containers that hold them: a header with an entry for each segment, and the
//! segments' bytes.
//!
//! The format is docs/FORMAT.md, 'Container slot'.
#![tactic(auto)]

mod container;
mod entry;
mod fault;
mod key_map;
mod kind;
mod place;
mod reading;
mod segment;
mod writing;

pub use container::{Fit, OpenContainer};
pub use entry::{Entry, Header, Meta};
pub use fault::MetaFault;
pub use key_map::KeyMap;
pub use kind::Kind;
pub use place::{Key, Place, key_of};
pub use reading::{decode, decode_into, header_end};
pub use segment::{Seg, digest_of};

/// The seven bytes after a container's gate.
pub(crate) const MAGIC: [u8; 7] = *b"DDFSCON";
