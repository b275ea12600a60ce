//! The parts of a node's spelling.

ghost use Rattle.std.specs.Prelude.{◌≡◌, ◌∷◌, ◌++◌, OnOk};
ghost use Rattle.std.specs.List.{flat_map};
ghost use Rattle.std.specs.Int.{to_be_bytes, w16};
ghost use Rattle.merkle_file.specs.Node.{entry};

use crate::node::Child;
use byteorder::{BigEndian, ByteOrder};
use disk_format::NODE_FORM;
use std::alloc::AllocError;

/// Writes what comes before the entries.
pub(crate) fn push_head(bytes: &mut Vec<u8>, level: u8, count: u16) -> Result<(), AllocError>
    ensures { OnOk result (bytes.new.items ≡ bytes.old.items ++ (level ∷ NODE_FORM ∷ to_be_bytes w16 count)) }
{
    let mut head = [level, NODE_FORM, 0, 0];
    BigEndian::write_u16(&mut head[2..], count);
    bytes.extend_from_slice(&head)
}

/// Writes the entry of a child.
fn push_entry(bytes: &mut Vec<u8>, child: &Child) -> Result<(), AllocError>
    ensures { OnOk result (bytes.new.items ≡ bytes.old.items ++ entry child.now) }
{
    let mut length = [0u8; 8];
    BigEndian::write_u64(&mut length, child.length);
    bytes.extend_from_slice(&child.digest)?;
    bytes.extend_from_slice(&length)
}

/// Writes the entries of children, in order.
pub(crate) fn push_entries(bytes: &mut Vec<u8>, children: &[Child]) -> Result<(), AllocError>
    ensures { OnOk result (bytes.new.items ≡ bytes.old.items ++ flat_map entry children.now) }
{
    for child in children {
        push_entry(bytes, child)?;
    }
    Ok(())
}
