//! What a container's header says.

ghost use Rattle.std.specs.Prelude.{◌≡◌};
ghost use Rattle.container_meta.specs.Spelling.{has_digest};

use crate::kind::Kind;

/// Where a segment lies in its container.
#[derive(Clone, Copy)]
pub struct Entry {
    /// The SHA-256 of the segment's bytes.
    pub digest: [u8; 32],
    /// The place of its first byte, counted from the slot's data section, byte `disk_format::HEADER_BYTES`, on.
    pub offset: u32,
    /// How many bytes it has: of data from 1 to `disk_format::MOST_SEGMENT`, of a node `4 + 40 * k` for a k from 1 to
    /// `disk_format::MOST_CHILDREN`.
    pub length: u32,
    /// 0 for data, and for a node of a tree its height above the data, 1 to `disk_format::MOST_LEVEL`.
    pub level: u8,
}

/// A container's header, without its entries.
#[derive(Clone, Copy)]
pub struct Header {
    /// From 1 to `disk_format::LAST_ID`.
    pub id: u64,
    /// What the container's segments are.
    pub kind: Kind,
    /// How many bytes its segments have together, from 1 to `disk_format::DATA_BYTES`.
    pub data_length: u32,
    /// The SHA-256 of its fields and its entries, as it says it.
    pub digest: [u8; 32],
}

/// A container's header and entries.
#[derive(Drop)]
pub struct Meta {
    /// From 1 to `disk_format::LAST_ID`.
    pub id: u64,
    /// What the container's segments are.
    pub kind: Kind,
    /// How many bytes its segments have together, from 1 to `disk_format::DATA_BYTES`.
    pub data_length: u32,
    /// The SHA-256 of its fields and its entries, as it says it.
    pub digest: [u8; 32],
    /// From 1 to `disk_format::MOST_ENTRIES` of them, in the order of their offsets, each with a digest of its own.
    pub entries: Vec<Entry>,
}

/// Whether an entry has this digest.
pub(crate) fn stands_in(entries: &[Entry], digest: &[u8]) -> bool
    ensures { result ≡ has_digest entries.now digest.now }
{
    entries
        .iter()
        .any(|entry| entry.digest.as_slice() == digest)
}
