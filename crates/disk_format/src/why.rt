//! How bytes break the format.

/// How a cell, a header or another part of the disk breaks the format.
#[derive(Clone, Copy)]
pub enum Why {
    /// The bytes have another digest than is said of them.
    Digest {
        /// As stored.
        want: [u8; 32],
        /// As computed.
        got: [u8; 32],
    },
    /// The first field that breaks its rule. The gate is the field at 0, and the magic the one at 1.
    Field {
        /// The field's first byte, from the first byte of what is damaged on; of zeros the first other byte.
        offset: u32,
        /// The field as a number, or its first byte that breaks the rule where it has more than eight bytes.
        got: u64,
    },
}
