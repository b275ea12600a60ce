//! Calls of `merkle_file`.
use merkle_file::{Child, Cursor, FieldFault, Node, NodeFault, Top, TreeBuilder, Want};
use sha2::{Digest, Sha256};
use std::alloc::{AllocError, Global};
use transcripts::{Fault, Text, add_piece, byte_of, bytes_of, number};

/// The node that bytes spell, and whether it is spelled so again.
pub(crate) fn node(alloc: Global, words: &[&str]) -> Result<String, Fault> {
    let bytes = bytes_of(alloc, words)?;
    let mut text = Text::new(alloc);
    match Node::decode(alloc, &bytes) {
        Ok(node) => {
            add_node(&mut text, &node);
            if node.encode(alloc)? != bytes {
                text.add(" spelled otherwise");
            }
        }
        Err(NodeFault::Field { offset, got }) => {
            add_fault(&mut text, &FieldFault { offset, got });
        }
        Err(NodeFault::Memory) => return Err(Fault::Memory),
    }
    Ok(text.whole()?)
}

fn add_node(text: &mut Text, node: &Node) {
    text.add("level ");
    text.add_number(u64::from(node.level()));
    text.add(" length ");
    text.add_number(node.length());
    for child in node.children() {
        text.add(", ");
        text.add_hex(&child.digest);
        text.add(" ");
        text.add_number(child.length);
    }
}

fn add_fault(text: &mut Text, fault: &FieldFault) {
    text.add("field ");
    text.add_number(u64::from(fault.offset));
    text.add(" ");
    text.add_number(fault.got);
}

/// The tree over segments of these bytes, a segment each word, or over `single COUNT` segments of one byte each: its root,
/// its nodes and the leaves of a walk down it.
pub(crate) fn tree(alloc: Global, words: &[&str]) -> Result<String, Fault> {
    let leaves = match words {
        ["single", count] => single_bytes(alloc, number(count)?)?,
        words => leaves_of(alloc, words)?,
    };
    let (top, nodes) = built(alloc, &leaves)?;
    let mut text = Text::new(alloc);
    add_top(&mut text, &top);
    text.add(", ");
    text.add_number(nodes.len() as u64);
    text.add(" nodes");
    if are_same(&walked(alloc, &top, &nodes)?, &leaves) {
        text.add(", walked");
    }
    Ok(text.whole()?)
}

fn are_same(found: &[Child], wanted: &[Child]) -> bool {
    found.len() == wanted.len()
        && found.iter().zip(wanted).all(|(one, other)| one.digest == other.digest
            && one.length == other.length)
}

pub(crate) fn add_top(text: &mut Text, top: &Top) {
    text.add("level ");
    text.add_number(u64::from(top.level));
    text.add(" length ");
    text.add_number(top.length);
    text.add(" ");
    text.add_hex(&top.digest);
}

fn leaves_of(alloc: Global, words: &[&str]) -> Result<Vec<Child>, Fault> {
    let mut leaves = Vec::new(alloc);
    for word in words {
        let mut bytes = Vec::new(alloc);
        add_piece(alloc, word, &mut bytes)?;
        if !bytes.is_empty() {
            leaves.push(Child {
                digest: Sha256::digest(&bytes),
                length: bytes.len() as u64,
            })?;
        }
    }
    Ok(leaves)
}

/// So many leaves of one byte, under the digests of their numbers.
fn single_bytes(alloc: Global, count: u64) -> Result<Vec<Child>, AllocError> {
    let mut leaves = Vec::new(alloc);
    for number in 0..5_000u32 {
        if u64::from(number) == count {
            break;
        }
        let digest = Sha256::digest(&number.to_be_bytes());
        leaves.push(Child { digest, length: 1 })?;
    }
    Ok(leaves)
}

/// The tree over these leaves: its root, and the bytes of its nodes in the order in which they finish.
fn built(alloc: Global, leaves: &[Child]) -> Result<(Top, Vec<Vec<u8>>), Fault> {
    let mut builder = TreeBuilder::new(alloc)?;
    if leaves.len() > 5000 {
        return Err(Fault::Line);
    }
    for leaf in leaves {
        if leaf.length < 1 || 16384 < leaf.length {
            return Err(Fault::Line);
        }
        builder.push(*leaf)?;
    }
    let top = builder.finish()?;
    let mut nodes = Vec::new(alloc);
    for _ in 0..5_000 {
        let Some(node) = builder.take() else {
            break;
        };
        nodes.push(node.encode(alloc)?)?;
    }
    Ok((top, nodes))
}

/// The bytes of this digest.
fn found<'a>(nodes: &'a [Vec<u8>], digest: &[u8; 32]) -> Option<&'a [u8]> {
    for node in nodes {
        let bytes = node.as_slice();
        if Sha256::digest(bytes) == *digest {
            return Some(bytes);
        }
    }
    None
}

/// The leaves that a walk asks for, where it is fed these nodes.
fn walked(alloc: Global, top: &Top, nodes: &[Vec<u8>]) -> Result<Vec<Child>, Fault> {
    let mut cursor = Cursor::new(alloc, top)?;
    let mut leaves = Vec::new(alloc);
    for _ in 0..10_000 {
        match cursor.want() {
            Want::End => break,
            Want::Leaf { digest, length, .. } => {
                leaves.push(Child { digest, length })?;
                cursor.pass();
            }
            Want::Node { digest, .. } => {
                let bytes = found(nodes, &digest).ok_or(Fault::Place)?;
                if cursor.feed(bytes).is_err() {
                    return Err(Fault::Place);
                }
            }
        }
    }
    Ok(leaves)
}

/// `LEVEL LENGTH BYTES`: what a walk says that wants a node of this level and length, and is fed these bytes.
pub(crate) fn walk(alloc: Global, words: &[&str]) -> Result<String, Fault> {
    let [level, length, pieces @ ..] = words else {
        return Err(Fault::Line);
    };
    let bytes = bytes_of(alloc, pieces)?;
    let top = Top {
        length: number(length)?,
        level: byte_of(level)?,
        digest: Sha256::digest(&bytes),
    };
    let mut cursor = Cursor::new(alloc, &top)?;
    let mut text = Text::new(alloc);
    if let Want::Node { .. } = cursor.want() {
        match cursor.feed(&bytes) {
            Ok(()) => text.add("taken"),
            Err(fault) => add_fault(&mut text, &fault),
        }
    }
    Ok(text.whole()?)
}
