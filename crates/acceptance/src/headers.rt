//! Headers of containers, as text.
use container_meta::{Entry, Kind, Meta, MetaFault, decode};
use std::alloc::Global;
use transcripts::{Fault, Text};

/// What the 49,664 bytes before the data of a container are read as.
pub(crate) fn header_text(alloc: Global, read: Option<Vec<u8>>) -> Result<String, Fault> {
    let Some(header) = read else {
        return Err(Fault::Place);
    };
    if header.len() != 49_664 {
        return Err(Fault::Place);
    }
    let mut text = Text::new(alloc);
    match decode(alloc, &header) {
        Ok(meta) => add_meta(&mut text, &meta),
        Err(fault) => add_fault(&mut text, &fault),
    }
    Ok(text.whole()?)
}

fn add_meta(text: &mut Text, meta: &Meta) {
    text.add(match meta.kind {
        Kind::Leaf => "data ",
        Kind::Tree => "tree ",
    });
    text.add_number(meta.id);
    text.add(" ");
    text.add_number(u64::from(meta.data_length));
    for entry in &meta.entries {
        add_entry(text, entry);
    }
}

fn add_entry(text: &mut Text, entry: &Entry) {
    text.add(", ");
    text.add_hex(&entry.digest);
    text.add(" ");
    text.add_number(u64::from(entry.offset));
    text.add(" ");
    text.add_number(u64::from(entry.length));
    text.add(" ");
    text.add_number(u64::from(entry.level));
}

fn add_fault(text: &mut Text, fault: &MetaFault) {
    match fault {
        MetaFault::Gate(gate) => {
            text.add("gate ");
            text.add_number(u64::from(*gate));
        }
        MetaFault::Magic => text.add("magic"),
        MetaFault::Field { offset, got } => {
            text.add("field ");
            text.add_number(u64::from(*offset));
            text.add(" ");
            text.add_number(*got);
        }
        MetaFault::Digest { want, got } => {
            text.add("digest ");
            text.add_hex(want);
            text.add(" ");
            text.add_hex(got);
        }
        MetaFault::Memory => text.add("memory"),
    }
}
