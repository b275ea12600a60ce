use crate::node::Hash;
use disk_format::{LEAST_SEGMENT, MOST_FILE};

/// The most segments of a file: as many as the greatest file has of the least length.
pub(crate) const MOST_LEAVES: usize = MOST_FILE as usize / LEAST_SEGMENT;

/// The root of a tree.
#[derive(Clone, Copy)]
pub struct Top {
    /// How many bytes the file has, at most `disk_format::MOST_FILE`.
    pub length: u64,
    /// The level of the topmost node, at most `disk_format::MOST_LEVEL`; 0 where the root is a segment or the file is
    /// empty.
    pub level: u8,
    /// The SHA-256 of the topmost node or of the one segment; of an empty file that of no bytes.
    pub digest: Hash,
}
