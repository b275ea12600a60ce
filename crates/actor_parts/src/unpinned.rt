//! What a segment says of itself and of its children, read from its bytes where they lie. Nothing here takes memory.
ghost use Rattle.std.specs.Prelude.{◌≡◌, ◌≤◌};
ghost use Rattle.base_model.specs.Bytes.{key_of};
ghost use Rattle.container_meta.specs.Format.{kind_byte};
ghost use Rattle.actor_parts.specs.PinMap.{IsPin};
ghost use Rattle.actor_parts.specs.Segments.{IsStepSegment, IsNodeSegment, IsAsLong, child_kind, child_pin, children_by};
ghost use Rattle.actor_parts.specs.Segments.{first_not_in, first_unpinned, pin_by, pin_of};
ghost use Rattle.container_meta.specs.declared.kind.Kind.TheVariants.{Tree};

use crate::pins::{Pin, Pins};
use container_meta::{Key, Kind, Seg};
use merkle_file::{Hash, child_at, count_in, length_in};

/// What is said of a segment: of data its length, of a node its level and how many bytes of the file lie below it.
pub fn pin_of(seg: &Seg) -> Pin
    requires { IsStepSegment seg.now }
    ensures pin { result ≡ pin_of seg.now }
    ensures right { IsAsLong seg.now.kind seg.now.segment → IsPin result }
{
    pin_in(seg.kind(), seg.level(), seg.bytes())
}

/// The key of the first child of a segment that isn't among the pins with the level and the length that the segment
/// names; none where all are. Data has no children.
pub fn first_unpinned(seg: &Seg, pins: &Pins) -> Option<Key>
    requires { IsStepSegment seg.now }
    ensures { result ≡ first_unpinned seg.now pins.now }
{
    first_unpinned_in(seg.kind(), seg.level(), seg.bytes(), pins)
}

/// `pin_of`, of the kind, the level and the bytes of a segment.
pub fn pin_in(kind: Kind, level: u8, bytes: &[u8]) -> Pin
    requires { IsStepSegment (record { kind = kind; segment = record { level = level; bytes = bytes.now } }) }
    ensures pin { result ≡ pin_by kind (record { level = level; bytes = bytes.now }) }
    ensures right { IsAsLong kind (record { level = level; bytes = bytes.now }) → IsPin result }
{
    match kind {
        Kind::Leaf => Pin {
            level: 0,
            length: bytes.len() as u64,
        },
        Kind::Tree => Pin {
            level,
            length: length_in(bytes),
        },
    }
}

/// `first_unpinned`, of the kind, the level and the bytes of a segment.
pub fn first_unpinned_in(kind: Kind, level: u8, bytes: &[u8], pins: &Pins) -> Option<Key>
    requires { IsStepSegment (record { kind = kind; segment = record { level = level; bytes = bytes.now } }) }
    ensures { result ≡ first_not_in pins.now (children_by kind (record { level = level; bytes = bytes.now })) }
{
    match kind {
        Kind::Leaf => None,
        Kind::Tree => first_child_not_in(level, bytes, pins),
    }
}

fn first_child_not_in(level: u8, bytes: &[u8], pins: &Pins) -> Option<Key>
    requires { IsNodeSegment (record { level = level; bytes = bytes.now }) }
    ensures { result ≡ first_not_in pins.now (children_by Tree (record { level = level; bytes = bytes.now })) }
{
    for index in 0..count_in(bytes) {
        let child = child_at(bytes, index);
        let key = child_key(level, &child.digest);
        let pin = Pin {
            level: level - 1,
            length: child.length,
        };
        if !pins.has(&key, &pin) {
            return Some(key);
        }
    }
    None
}

/// The key of a child of a node of a level.
fn child_key(level: u8, digest: &Hash) -> Key
    ensures { result ≡ key_of (kind_byte (child_kind level)) digest.now }
{
    let mut key = [0u8; 33];
    key[0] = if level == 1 { 0 } else { 1 };
    key[1..].copy_from_slice(digest);
    key
}
