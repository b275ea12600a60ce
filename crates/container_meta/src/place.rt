//! The key of a segment, and where a copy of it lies.

ghost use Rattle.std.specs.Prelude.{◌≡◌};
ghost use Rattle.base_model.specs.Bytes.{key_of as key_in};
ghost use Rattle.container_meta.specs.Format.{kind_byte};

use crate::kind::{Kind, byte_of};

/// The key of a segment: its kind (0 data, 1 tree), then its digest.
pub type Key = [u8; 33];

/// The key of the segment of this kind and digest.
pub fn key_of(kind: Kind, digest: &[u8; 32]) -> Key
    ensures { result ≡ key_in (kind_byte kind) digest.now }
{
    let mut key = [0u8; 33];
    key[0] = byte_of(kind);
    key[1..].copy_from_slice(digest);
    key
}

/// Where the copy of a segment lies.
#[derive(Clone, Copy)]
pub struct Place {
    /// The container slot, counted from 0.
    pub slot: u32,
    /// The first byte, counted from the slot's data section.
    pub offset: u32,
    /// How many bytes: of data from 1 to `disk_format::MOST_SEGMENT`, of a node fewer.
    pub length: u32,
    /// The level of a tree segment, from 1 to `disk_format::MOST_LEVEL`; 0 of a data segment.
    pub level: u8,
}
