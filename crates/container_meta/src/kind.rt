//! What a segment is to the store.

ghost use Rattle.std.specs.Prelude.{◌≡◌, ◌≤◌, IsTrue};
ghost use Rattle.container_meta.specs.Format.{kind_byte, kind_of, is_length, is_level, child_count as child_count_of};

use disk_format::{MOST_CHILDREN, MOST_LEVEL, MOST_SEGMENT};

/// What a segment is to the store: a part of a file, or a node of a file's tree.
#[derive(Clone, Copy)]
pub enum Kind {
    /// A part of a file.
    Leaf,
    /// A node of a file's tree.
    Tree,
}

/// A kind's number in headers and keys.
pub(crate) fn byte_of(kind: Kind) -> u8
    ensures { result ≡ kind_byte kind }
{
    match kind {
        Kind::Leaf => 0,
        Kind::Tree => 1,
    }
}

/// The kind of a number, where one has it.
pub(crate) fn kind_at(byte: u8) -> Option<Kind>
    ensures { result ≡ kind_of byte }
{
    match byte {
        0 => Some(Kind::Leaf),
        1 => Some(Kind::Tree),
        _ => None,
    }
}

/// How many children a node of so many bytes has, where there is such a node: it is 4 bytes, and 40 for each child.
fn child_count(bytes: u32) -> usize
    ensures { result ≡ child_count_of bytes }
{
    bytes.saturating_sub(4) as usize / 40
}

/// Whether segments of a kind may have so many bytes.
pub(crate) fn takes_length(kind: Kind, bytes: u32) -> bool
    ensures value { result ≡ is_length kind bytes }
    ensures few { IsTrue result → bytes ≤ MOST_SEGMENT }
{
    match kind {
        Kind::Leaf => (1..=MOST_SEGMENT).contains(&u64::from(bytes)),
        Kind::Tree => {
            let children = child_count(bytes);
            (1..=MOST_CHILDREN).contains(&children) && bytes as usize == 4 + 40 * children
        }
    }
}

/// Whether segments of a kind may have this level.
pub(crate) fn takes_level(kind: Kind, level: u8) -> bool
    ensures { result ≡ is_level kind level }
{
    match kind {
        Kind::Leaf => level == 0,
        Kind::Tree => (1..=MOST_LEVEL).contains(&level),
    }
}
