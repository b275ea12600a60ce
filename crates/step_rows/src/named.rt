//! What the names of a transcript stand for.
ghost use Rattle.std.specs.Prelude.{IfOk};
ghost use Rattle.actor_parts.specs.Segments.{IsStepSegment};

use crate::pieces::bytes_of;
use actor_parts::node_seg;
use container_meta::{Seg, digest_of};
use merkle_file::Node;
use namespace::Root;
use std::alloc::{AllocError, Global};
use transcripts::{Fault, byte_of, decoded, number};

/// A root, and the bytes of its segment, of which there are none where only the root is told.
#[derive(Drop)]
pub(crate) struct Named {
    pub(crate) name: String,
    pub(crate) root: Root,
    pub(crate) bytes: Vec<u8>,
}

/// What the words of a line name.
pub(crate) fn named_by(alloc: Global, names: &[Named], words: &[&str]) -> Result<Named, Fault> {
    match words {
        ["leaf", name, pieces @ ..] => leaf(alloc, names, name, pieces),
        ["node", name, level, children @ ..] => node(alloc, names, name, level, children),
        ["root", name, length, level, digits] => root(alloc, name, length, level, digits),
        _ => Err(Fault::Line),
    }
}

fn with_name(alloc: Global, name: &str, root: Root, bytes: Vec<u8>) -> Result<Named, Fault> {
    match name.to_string(alloc) {
        Ok(name) => Ok(Named { name, root, bytes }),
        Err(_) => Err(Fault::Memory),
    }
}

// A segment of data.
fn leaf(alloc: Global, names: &[Named], name: &str, pieces: &[&str]) -> Result<Named, Fault> {
    let bytes = bytes_of(alloc, names, pieces)?;
    let root = Root {
        length: bytes.len() as u64,
        level: 0,
        digest: digest_of(&bytes),
    };
    with_name(alloc, name, root, bytes)
}

// A root of a length, a level and a digest.
fn root(
    alloc: Global,
    name: &str,
    length: &str,
    level: &str,
    digits: &str,
) -> Result<Named, Fault> {
    let root = Root {
        length: number(length)?,
        level: byte_of(level)?,
        digest: digest_in(alloc, digits)?,
    };
    with_name(alloc, name, root, Vec::new(alloc))
}

fn digest_in(alloc: Global, digits: &str) -> Result<[u8; 32], Fault> {
    let bytes = decoded(alloc, digits.as_bytes())?;
    let mut digest = [0u8; 32];
    if bytes.len() != 32 {
        return Err(Fault::Line);
    }
    digest.copy_from_slice(&bytes);
    Ok(digest)
}

/// What a name stands for: of two of one name the later one.
pub(crate) fn find<'a>(names: &'a [Named], name: &str) -> Result<&'a Named, Fault> {
    let mut found = Err(Fault::Name);
    for named in names {
        if named.name.as_str() == name {
            found = Ok(named);
        }
    }
    found
}

// A node of a level over what some names stand for, spelled as docs/FORMAT.md, 'Nodes', has it.
fn node(
    alloc: Global,
    names: &[Named],
    name: &str,
    level: &str,
    children: &[&str],
) -> Result<Named, Fault> {
    let level = byte_of(level)?;
    let length = length_of(names, children)?;
    let bytes = spelled(alloc, names, level, children)?;
    let root = Root {
        length,
        level,
        digest: digest_of(&bytes),
    };
    with_name(alloc, name, root, bytes)
}

fn length_of(names: &[Named], children: &[&str]) -> Result<u64, Fault> {
    let mut length: u64 = 0;
    for child in children {
        length = length.saturating_add(find(names, child)?.root.length);
    }
    Ok(length)
}

fn spelled(alloc: Global, names: &[Named], level: u8, children: &[&str]) -> Result<Vec<u8>, Fault> {
    let count = u8::try_from(children.len()).unwrap_or(0);
    let mut bytes = vec![in alloc; level, 1, 0, count]?;
    for child in children {
        add_child(&mut bytes, &find(names, child)?.root)?;
    }
    Ok(bytes)
}

fn add_child(bytes: &mut Vec<u8>, root: &Root) -> Result<(), AllocError> {
    bytes.extend_from_slice(&root.digest)?;
    bytes.extend_from_slice(&root.length.to_be_bytes())?;
    Ok(())
}

/// The segment of a name.
pub(crate) fn segment(alloc: Global, names: &[Named], name: &str) -> Result<Seg, Fault>
    ensures { IfOk result IsStepSegment }
{
    let named = find(names, name)?;
    if named.bytes.is_empty() {
        return Err(Fault::Name);
    }
    if named.root.level == 0 {
        Ok(Seg::leaf(alloc, &named.bytes)?)
    } else {
        node_segment(alloc, &named.bytes)
    }
}

fn node_segment(alloc: Global, bytes: &[u8]) -> Result<Seg, Fault>
    ensures { IfOk result IsStepSegment }
{
    match Node::decode(alloc, bytes) {
        Ok(node) => Ok(node_seg(alloc, &node)?),
        Err(_) => Err(Fault::Name),
    }
}
