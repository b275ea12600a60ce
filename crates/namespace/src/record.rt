//! What a name has, and the records that say so.

use std::marker::Model;

/// The root of a file (docs/FORMAT.md, 'Nodes').
#[derive(Clone, Copy)]
pub struct Root {
    /// The file's length in bytes.
    pub length: u64,
    /// How high the file's tree stands above the data: 0 where one segment is the whole file.
    pub level: u8,
    /// The SHA-256 of the topmost segment.
    pub digest: [u8; 32],
}

impl Model for Root {
    ghost use Rattle.disk_format.specs.Cells.{Root as FileRoot};

    ghost Value = { FileRoot };

    ghost view = { λ r. record { length = r.length; level = r.level; digest = r.digest } };

    ghost inverse = { λ r. record { length = r.length; level = r.level; digest = r.digest } };
}

/// What a name has.
#[derive(Clone, Copy)]
pub struct Named {
    /// The sequence number of the put that gave the name its root.
    pub sequence: u64,
    /// The root of the file.
    pub root: Root,
}

/// What a record says of its name: the record's operation byte, 1 or 2 (docs/FORMAT.md, 'Cells').
#[derive(Clone, Copy)]
pub enum Change {
    /// Operation 1: the name has this root.
    Put(Root),
    /// Operation 2: the name is gone.
    Delete,
}

/// A change of one name, as a cell of the journal has it (docs/FORMAT.md, 'Cells').
#[derive(Drop)]
pub struct Record {
    /// The place of the record among all changes, from 1 on.
    pub sequence: u64,
    /// The name: 1 to 255 bytes from 0x21 to 0x7E, where the record is taken.
    pub name: Vec<u8>,
    /// What is said of the name.
    pub change: Change,
}
