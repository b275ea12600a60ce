//! The nodes of entries, and the places of their children.
ghost use Rattle.std.specs.Prelude.{◌≡◌, ◌≤◌, ◌<◌, ◌-◌, length, IfOk, IfErr};
ghost use Rattle.base_model.specs.Bytes.{byte_at};
ghost use Rattle.disk_format.specs.declared.numbers.TheConstants.{MOST_SEGMENT};
ghost use Rattle.merkle_file.specs.Node.{IsNode, spelling};
ghost use Rattle.merkle_file.specs.Reading.{AnswersFault};
ghost use Rattle.container_meta.specs.Format.{kind_byte};
ghost use Rattle.gc_enumerate.specs.Copies.{CountsReads, IsPlaceOf};
ghost use Rattle.gc_enumerate.specs.Scanning.{ArePlaced, IsChildFault, IsNodeOf, IsUnplaced, IsUnread};
ghost use Rattle.gc_enumerate.specs.Scanning.{child_key as key_of_child, child_keys, child_kind as kind_of_child, keys_of, node_fault};
ghost use Rattle.gc_enumerate.specs.Scanning.{place_in as place_of_entry};

use crate::copies::Copies;
use crate::fault::ScanFault;
use crate::layer::{KeyPlace, Layer};
use container_meta::{Entry, Key, Kind, Place, key_of};
use disk_format::{Why, data_at};
use merkle_file::{Child, Node, NodeFault};
use std::alloc::Global;

/// Where the segment of an entry lies.
pub(crate) fn place_in(layer: &Layer, entry: &Entry) -> Place
    ensures { result ≡ place_of_entry layer.now entry.now }
{
    Place {
        slot: layer.slot,
        offset: entry.offset,
        length: entry.length,
        level: entry.level,
    }
}

// The first byte, or 0.
fn first_byte(bytes: &[u8]) -> u8
    ensures { result ≡ byte_at 0 bytes.now }
{
    bytes.first().copied().unwrap_or(0)
}

// The node of a level that bytes spell. They are refused by the first field, in order of offset, that breaks a rule or isn't
// the level; bytes of such a node are refused for want of memory alone.
fn decode_node(alloc: Global, bytes: &[u8], level: u8) -> Result<Node, NodeFault>
    ensures node { IfOk result (λ n. IsNode n × (bytes.now ≡ spelling n) × (n.level ≡ level)) }
    ensures fault { AnswersFault result (node_fault level bytes.now) }
{
    let first = first_byte(bytes);
    if first != level {
        return Err(NodeFault::Field {
            offset: 0,
            got: u64::from(first),
        });
    }
    Node::decode(alloc, bytes)
}

/// Reads and decodes the node of an entry.
pub(crate) fn read_node<C: Copies>(
    alloc: Global,
    copies: &mut C,
    layer: &Layer,
    entry: &Entry,
    buf: &mut [u8],
) -> Result<Node, ScanFault>
    requires lies { C.lies copies.old (place_of_entry layer.now entry.now) }
    requires serves { C.serves copies.old }
    requires room { MOST_SEGMENT ≤ length buf.old }
    ensures node { IfOk result (IsNodeOf layer.now (C.shows copies.old copies.new) entry.now) }
    ensures refused { IfErr result (IsUnread layer.now (C.shows copies.old copies.new) entry.now) }
    ensures later { C.later copies.old copies.new }
    ensures served { C.serves copies.new }
    ensures counts { CountsReads result (C.failures copies.old) (C.failures copies.new) }
    ensures size { length buf.new ≡ length buf.old }
{
    let place = place_in(layer, entry);
    copies.read(&place, &entry.digest, buf)?;
    match decode_node(alloc, &buf[..entry.length as usize], layer.level) {
        Ok(node) => Ok(node),
        Err(NodeFault::Field { offset, got }) => Err(ScanFault::Damaged {
            at: data_at(layer.slot) + u64::from(entry.offset),
            why: Why::Field { offset, got },
        }),
        Err(NodeFault::Memory) => Err(ScanFault::Memory),
    }
}

// What the children of a node of a level are.
fn child_kind(level: u8) -> Kind
    ensures { result ≡ kind_of_child level }
{
    if level == 1 { Kind::Leaf } else { Kind::Tree }
}

// The key of a child of a node of a level.
fn child_key(level: u8, child: &Child) -> Key
    ensures { result ≡ key_of_child level child.now }
{
    key_of(child_kind(level), &child.digest)
}

// The key with the place that the index has for it, where a segment of the level lies.
fn look_up<C: Copies>(copies: &mut C, key: &Key, level: u8) -> Result<KeyPlace, ScanFault>
    requires { C.serves copies.old }
    ensures key { IfOk result (λ found. found.key ≡ key.now) }
    ensures place { IfOk result (λ found. IsPlaceOf (C.places copies.old) key.now found.place) }
    ensures level { IfOk result (λ found. found.place.level ≡ level) }
    ensures refused { IfErr result (IsUnplaced (C.places copies.old) (C.damaged copies.old copies.new) level key.now) }
    ensures later { C.later copies.old copies.new }
    ensures served { C.serves copies.new }
    ensures counts { CountsReads result (C.failures copies.old) (C.failures copies.new) }
{
    match copies.place_of(key)? {
        Some(place) if place.level == level => Ok(KeyPlace { key: *key, place }),
        Some(place) => Err(ScanFault::Damaged {
            at: data_at(place.slot) + u64::from(place.offset),
            why: Why::Field {
                offset: 0,
                got: u64::from(place.level),
            },
        }),
        None => Err(ScanFault::Missing { key: *key }),
    }
}

/// The keys of a node's children, in order, each with the place that the index has for it: one of the level below the node's.
pub(crate) fn look_up_children<C: Copies>(
    alloc: Global,
    copies: &mut C,
    node: &Node,
) -> Result<Vec<KeyPlace>, ScanFault>
    requires { C.serves copies.old }
    ensures keys { IfOk result (λ found. keys_of found.items ≡ child_keys node.now) }
    ensures placed { IfOk result (λ found. ArePlaced (C.places copies.old) (node.now.level - 1) found.items) }
    ensures refused { IfErr result (IsChildFault (C.places copies.old) (C.damaged copies.old copies.new) node.now) }
    ensures later { C.later copies.old copies.new }
    ensures served { C.serves copies.new }
    ensures counts { CountsReads result (C.failures copies.old) (C.failures copies.new) }
{
    let mut found = Vec::new(alloc);
    let level = node.level();
    for child in node.children() {
        found.push(look_up(copies, &child_key(level, child), level - 1)?)?;
    }
    Ok(found)
}
