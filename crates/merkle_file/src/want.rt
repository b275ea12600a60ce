use crate::node::Hash;

/// What a walk down a tree needs next.
#[derive(Clone, Copy)]
pub enum Want {
    /// The node of this digest and level, with this many bytes of the file below it.
    Node {
        /// The SHA-256 of its bytes.
        digest: Hash,
        /// At least 1.
        level: u8,
        /// How many bytes of the file lie below it.
        length: u64,
    },
    /// The segment of this digest and length. Its level is 0.
    Leaf {
        /// The SHA-256 of its bytes.
        digest: Hash,
        /// 0.
        level: u8,
        /// How many bytes it has.
        length: u64,
    },
    /// Nothing: the file has ended.
    End,
}
