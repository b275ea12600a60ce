//! What a scan goes over, and what it finds.

use container_meta::{Key, Kind, Place};

/// The segments of one level in a container.
#[derive(Clone, Copy)]
pub(crate) struct Layer {
    /// The container's slot, counted from 0.
    pub slot: u32,
    /// What the container's segments are.
    pub kind: Kind,
    /// Their level.
    pub level: u8,
}

/// A key, and the place that the index has for it.
#[derive(Clone, Copy)]
pub(crate) struct KeyPlace {
    pub key: Key,
    pub place: Place,
}
