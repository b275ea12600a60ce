//! Calls of `container_meta`.
use container_meta::{Fit, Kind, OpenContainer, Seg};
use std::alloc::Global;
use transcripts::{Fault, Text, byte_of, bytes_of, number, words_of};

/// Calls of one container of data.
pub(crate) fn container(alloc: Global, chain: &str) -> Result<String, Fault> {
    calls_of(alloc, OpenContainer::new(alloc, Kind::Leaf)?, chain)
}

/// Calls of one container of nodes.
pub(crate) fn nodes(alloc: Global, chain: &str) -> Result<String, Fault> {
    calls_of(alloc, OpenContainer::new(alloc, Kind::Tree)?, chain)
}

fn calls_of(alloc: Global, container: OpenContainer, chain: &str) -> Result<String, Fault> {
    let mut container = container;
    let mut text = Text::new(alloc);
    for item in chain.split(" ; ") {
        text.part_by(" ; ");
        call(alloc, &mut container, item, &mut text)?;
    }
    Ok(text.whole()?)
}

fn call(
    alloc: Global,
    container: &mut OpenContainer,
    item: &str,
    text: &mut Text,
) -> Result<(), Fault> {
    match words_of(alloc, item)?.as_slice() {
        ["add", bytes @ ..] => {
            let is_added = add(alloc, container, &bytes_of(alloc, bytes)?)?;
            text.add(if is_added { "added" } else { "no room" });
        }
        ["node", level, bytes @ ..] => {
            let is_added = add_node(alloc, container, byte_of(level)?, &bytes_of(alloc, bytes)?)?;
            text.add(if is_added { "added" } else { "no room" });
        }
        ["fill", count, length] => {
            let added = fill(alloc, container, number(count)?, number(length)?)?;
            text.add_number(added);
            text.add(" added");
        }
        ["count"] => text.add_number(container.len() as u64),
        ["clear"] => {
            container.clear();
            text.add("clear");
        }
        ["slot", at, count] => {
            let slot = slot_of(alloc, container)?;
            let part = part_of(&slot, number(at)?, number(count)?)?;
            text.add_bytes(part);
        }
        _ => return Err(Fault::Line),
    }
    Ok(())
}

/// Adds a segment of these bytes, and says whether there was room.
fn add(alloc: Global, container: &mut OpenContainer, bytes: &[u8]) -> Result<bool, Fault> {
    let seg = Seg::leaf(alloc, bytes)?;
    let Kind::Leaf = container.kind() else {
        return Err(Fault::Line);
    };
    if bytes.is_empty() || bytes.len() > 16_384 || container.has(&seg.key()) {
        return Err(Fault::Line);
    }
    Ok(matches!(container.try_add(&seg), Fit::Added))
}

/// Adds a node of this level and these bytes, and says whether there was room.
fn add_node(
    alloc: Global,
    container: &mut OpenContainer,
    level: u8,
    bytes: &[u8],
) -> Result<bool, Fault> {
    let seg = Seg::tree(alloc, level, bytes)?;
    let Kind::Tree = container.kind() else {
        return Err(Fault::Line);
    };
    let children = bytes.len().saturating_sub(4) / 40;
    if !(1..=64).contains(&children) || bytes.len() != 4 + 40 * children {
        return Err(Fault::Line);
    }
    if !(1..=6).contains(&level) || container.has(&seg.key()) {
        return Err(Fault::Line);
    }
    Ok(matches!(container.try_add(&seg), Fit::Added))
}

/// Adds so many segments of a length, which begin with their numbers from 0 on, and says for how many there was room.
fn fill(
    alloc: Global,
    container: &mut OpenContainer,
    count: u64,
    length: u64,
) -> Result<u64, Fault> {
    let mut added: u64 = 0;
    for number in 0..count {
        let digits = number.to_be_bytes();
        let mut bytes = digits.get(6..).unwrap_or(&[]).to_vec(alloc)?;
        bytes.resize(length.min(16_384) as usize, 0)?;
        if add(alloc, container, &bytes)? {
            added = added.saturating_add(1);
        }
    }
    Ok(added)
}

/// The slot of a container under the id 1.
fn slot_of(alloc: Global, container: &OpenContainer) -> Result<Vec<u8>, Fault> {
    if container.is_empty() {
        return Err(Fault::Line);
    }
    let mut slot = vec![in alloc; 7u8; 262_144]?;
    container.encode(1, &mut slot);
    Ok(slot)
}

fn part_of(bytes: &[u8], at: u64, count: u64) -> Result<&[u8], Fault> {
    let rest = bytes.get(at as usize..).ok_or(Fault::Place)?;
    rest.get(..count as usize).ok_or(Fault::Place)
}
