//! What the bytes of a node say, read where they lie.

ghost use Rattle.std.specs.Prelude.{◌≡◌, ◌+◌, ◌*◌, ◌<◌, ◌∷◌, drop, length};
ghost use Rattle.merkle_file.specs.Node.{total};
ghost use Rattle.merkle_file.specs.Reading.{IsNodeBytes, contents_in};
ghost use Rattle.merkle_file.specs.Laws.{NodesAreReadAgain};

use crate::node::Child;
use crate::reading::{count_of, read_child};

/// How many children a node has, by its bytes.
pub fn count_in(bytes: &[u8]) -> usize
    requires { IsNodeBytes bytes.now }
    ensures { result ≡ length (contents_in bytes.now).children }
{
    count_of(bytes) as usize
}

/// The child of a number, from 0, that a node has by its bytes.
pub fn child_at(bytes: &[u8], index: usize) -> Child
    requires node { IsNodeBytes bytes.now }
    requires number { index < length (contents_in bytes.now).children }
    ensures { drop index (contents_in bytes.now).children ≡ result ∷ drop (index + 1) (contents_in bytes.now).children }
{
    let (_, rest) = bytes.split_at(4 + 40 * index);
    read_child(rest)
}

/// How many bytes of the file lie below a node, by its bytes.
pub fn length_in(bytes: &[u8]) -> u64
    requires { IsNodeBytes bytes.now }
    ensures { result ≡ total (contents_in bytes.now).children }
{
    let mut sum = 0;
    for index in 0..count_in(bytes) {
        sum += child_at(bytes, index).length;
    }
    sum
}

/// A law for proofs that stand on it: a node's spelling is read as that node. The function does nothing.
pub fn nodes_are_read_again()
    ensures { NodesAreReadAgain }
{}
