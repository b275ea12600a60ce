//! Checking that bytes are a node, and reading its children, with no more trust than the checks give.

ghost use Rattle.std.specs.Prelude.{◌≡◌, ◌+◌, ◌*◌, ◌≤◌, ◌<◌, ℕ, IfOk, IsOk, IsTrue, OnOk, length, drop};
ghost use Rattle.merkle_file.specs.Node.{Contents, IsNode, spelling};
ghost use Rattle.merkle_file.specs.Reading.{IsAsked, IsWithin, SpellsNode, any_node, child_in, children_in, contents_in, entries_fault};
ghost use Rattle.merkle_file.specs.Reading.{entry_fault};
ghost use Rattle.merkle_file.specs.Reading.{first_fault, found_fault, head_fault, is_right_count, is_right_length, long_number, short_number};

use crate::fault::FieldFault;
use crate::node::Child;
use disk_format::{MOST_CHILDREN, MOST_FILE, MOST_LEVEL, MOST_SEGMENT, NODE_FORM};
use std::alloc::{AllocError, Global};

/// What is asked of a node: between which levels it is, and how many bytes of the file lie below it.
#[derive(Clone, Copy)]
pub(crate) struct Asked {
    pub lowest: u8,
    pub greatest: u8,
    pub least: u64,
    pub most: u64,
}

/// Any node will do.
pub(crate) const ANY_NODE: Asked = Asked {
    lowest: 1,
    greatest: MOST_LEVEL,
    least: 0,
    most: MOST_FILE,
};

/// Whether bytes are a node as asked, and if not, the first field that says so.
pub(crate) fn check(bytes: &[u8], asked: &Asked) -> Result<(), FieldFault>
    requires { IsAsked asked.now }
    ensures fault { found_fault result ≡ first_fault asked.now bytes.now }
    ensures found { OnOk result (SpellsNode asked.now bytes.now) }
    ensures only { (n : Contents) → IsNode n → IsWithin asked.now n → bytes.now ≡ spelling n
        → IsOk result × (contents_in bytes.now ≡ n) }
    ensures long { OnOk result (length bytes.now ≡ 4 + 40 * short_number (drop 2 bytes.now)) }
{
    check_fields(bytes, asked)
}

/// The number of entries of a node.
#[tactic(auto, unfolding(crate::specs::Reading::short_number))]
pub(crate) fn count_of(bytes: &[u8]) -> u16
    requires { 4 ≤ length bytes.now }
    ensures { result ≡ short_number (drop 2 bytes.now) }
{
    u16::from_be_bytes([bytes[2], bytes[3]])
}

/// The first field, from the left, that breaks a rule.
fn check_fields(bytes: &[u8], asked: &Asked) -> Result<(), FieldFault>
    requires { asked.now.most ≤ MOST_FILE }
    ensures fault { found_fault result ≡ first_fault asked.now bytes.now }
{
    let count = check_head(bytes, asked)?;
    check_entries(&bytes[4..], asked, bytes[0], count)
}

/// Whether so many children may stand in so many bytes.
#[tactic(auto, unfolding(crate::specs::Reading::is_right_count))]
fn is_right_count(count: u16, size: usize) -> bool
    ensures right { result ≡ is_right_count count size }
    ensures size { IsTrue result → size ≡ 4 + 40 * count }
    ensures few { IsTrue result → count ≤ MOST_CHILDREN }
{
    let count = usize::from(count);
    1 <= count && count <= MOST_CHILDREN && size == 4 + 40 * count
}

/// Checks what comes before the entries, and gives their number. There are as many bytes as they take.
#[tactic(auto, unfolding(crate::specs::Reading::head_fault, crate::specs::Reading::short_number))]
fn check_head(bytes: &[u8], asked: &Asked) -> Result<u16, FieldFault>
    ensures fault { found_fault result ≡ head_fault asked.now bytes.now }
    ensures count { IfOk result (λ count. count ≡ short_number (drop 2 bytes.now)) }
    ensures few { IfOk result (λ count. count ≤ MOST_CHILDREN) }
    ensures long { IfOk result (λ count. length bytes.now ≡ 4 + 40 * count) }
{
    if bytes.len() == 0 {
        return Err(FieldFault { offset: 0, got: 0 });
    }
    if bytes[0] < asked.lowest || asked.greatest < bytes[0] {
        return Err(FieldFault {
            offset: 0,
            got: bytes[0] as u64,
        });
    }
    if bytes.len() == 1 {
        return Err(FieldFault { offset: 1, got: 0 });
    }
    if bytes[1] != NODE_FORM {
        return Err(FieldFault {
            offset: 1,
            got: bytes[1] as u64,
        });
    }
    if bytes.len() < 4 {
        return Err(FieldFault { offset: 2, got: 0 });
    }
    let count = u16::from_be_bytes([bytes[2], bytes[3]]);
    if is_right_count(count, bytes.len()) {
        Ok(count)
    } else {
        Err(FieldFault {
            offset: 2,
            got: u64::from(count),
        })
    }
}

/// Checks the entries, which fill the bytes.
#[tactic(auto, unfolding(crate::specs::Reading::entries_fault))]
fn check_entries(bytes: &[u8], asked: &Asked, level: u8, count: u16) -> Result<(), FieldFault>
    requires count { count ≤ MOST_CHILDREN }
    requires long { length bytes.now ≡ 40 * count }
    requires most { asked.now.most ≤ MOST_FILE }
    ensures { found_fault result ≡ entries_fault asked.now level count 4 0 bytes.now }
{
    let mut rest = bytes;
    let mut at = 4;
    let mut before = 0;
    for index in 0..count {
        let length = check_entry(rest, asked, level, count - 1 - index, at, before)?;
        let (_, others) = rest.split_at(40);
        rest = others;
        at += 40;
        before += length;
    }
    Ok(())
}

/// Checks the entry in front of the bytes, which stands at a place and is followed by so many more, and
/// gives its length. So many bytes of the file lie below the children before it.
#[tactic(auto, unfolding(crate::specs::Reading::entry_fault))]
fn check_entry(
    bytes: &[u8],
    asked: &Asked,
    level: u8,
    more: u16,
    at: u32,
    before: u64,
) -> Result<u64, FieldFault>
    requires long { 40 ≤ length bytes.now }
    requires at { at < 10000 }
    requires before { before ≤ MOST_FILE }
    requires most { asked.now.most ≤ MOST_FILE }
    ensures fault { found_fault result ≡ entry_fault asked.now level more at before bytes.now }
    ensures length { IfOk result (λ n. n ≡ long_number (drop 32 bytes.now)) }
    ensures below { IfOk result (λ n. before + n ≤ MOST_FILE) }
{
    let (_, back) = bytes.split_at(32);
    let length = length_at(back);
    if is_right_length(asked, level, more, before, length) {
        Ok(length)
    } else {
        Err(FieldFault {
            offset: at + 32,
            got: length,
        })
    }
}

/// Whether a child may have a length, where so many bytes lie below the children before it and so many
/// children follow it.
#[tactic(auto, unfolding(crate::specs::Reading::is_right_length))]
fn is_right_length(asked: &Asked, level: u8, more: u16, before: u64, length: u64) -> bool
    requires before { before ≤ MOST_FILE }
    requires most { asked.now.most ≤ MOST_FILE }
    ensures right { result ≡ is_right_length asked.now level more before length }
    ensures below { IsTrue result → before + length ≤ MOST_FILE }
{
    let greatest = if level == 1 { MOST_SEGMENT } else { MOST_FILE };
    1 <= length
        && length <= greatest
        && before + length <= asked.most
        && (0 < more || asked.least <= before + length)
}

/// The number in front of the bytes.
#[tactic(auto, unfolding(crate::specs::Reading::long_number))]
fn length_at(bytes: &[u8]) -> u64
    requires { 8 ≤ length bytes.now }
    ensures { result ≡ long_number bytes.now }
{
    let mut eight = [0u8; 8];
    eight.copy_from_slice(&bytes[..8]);
    u64::from_be_bytes(eight)
}

/// The child whose entry is in front of the bytes.
pub(crate) fn read_child(bytes: &[u8]) -> Child
    requires { 40 ≤ length bytes.now }
    ensures { result ≡ child_in bytes.now }
{
    let (front, back) = bytes.split_at(32);
    let mut digest = [0u8; 32];
    digest.copy_from_slice(front);
    Child {
        digest,
        length: length_at(back),
    }
}

/// So many children, entry after entry.
#[tactic(auto, unfolding(crate::specs::Reading::children_in))]
pub(crate) fn read_children(
    alloc: Global,
    bytes: &[u8],
    count: u16,
) -> Result<Vec<Child>, AllocError>
    requires { 40 * count ≤ length bytes.now }
    ensures { IfOk result (λ v. v.items ≡ children_in count bytes.now) }
{
    let mut children = Vec::with_capacity(alloc, count as usize)?;
    let mut rest = bytes;
    for _ in 0..count {
        children.push(read_child(rest))?;
        let (_, others) = rest.split_at(40);
        rest = others;
    }
    Ok(children)
}
