/// A field of a node that breaks a rule (docs/FORMAT.md, "Nodes"). Where the number of bytes is not that of so many
/// children as the node says, this is the number of children.
#[derive(Clone, Copy)]
pub struct FieldFault {
    /// Where the field begins, counted from the node's first byte.
    pub offset: u32,
    /// The field as a number, and 0 where the bytes don't hold it whole.
    pub got: u64,
}

/// Why bytes gave no node.
#[derive(Clone, Copy)]
pub enum NodeFault {
    /// The first field, in order of offset, that breaks a rule, as in [`FieldFault`].
    Field {
        /// Where the field begins, counted from the node's first byte.
        offset: u32,
        /// The field as a number, and 0 where it isn't there whole.
        got: u64,
    },
    /// Memory ran out.
    Memory,
}
