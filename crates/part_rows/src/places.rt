//! Calls of `segment_index`.
use segment_index::{Key, MapIndex, Place};
use std::alloc::Global;
use transcripts::{Fault, Text, byte_of, words_of};

/// Calls of an index in memory. A key is `KIND BYTE`, 32 times that byte after its kind; a place is a slot.
pub(crate) fn index(alloc: Global, chain: &str) -> Result<String, Fault> {
    let mut index = MapIndex::new(alloc);
    let mut text = Text::new(alloc);
    for item in chain.split(" ; ") {
        text.part_by(" ; ");
        call(alloc, &mut index, item, &mut text)?;
    }
    Ok(text.whole()?)
}

fn call(alloc: Global, index: &mut MapIndex, item: &str, text: &mut Text) -> Result<(), Fault> {
    match words_of(alloc, item)?.as_slice() {
        ["set", kind, byte, slot] => {
            index.set(&key(kind, byte)?, place(slot)?)?;
            text.add("set");
        }
        ["forget", kind, byte] => {
            index.forget(&key(kind, byte)?);
            text.add("forgotten");
        }
        ["find", kind, byte] => add_place(text, index.find(&key(kind, byte)?)),
        _ => return Err(Fault::Line),
    }
    Ok(())
}

fn add_place(text: &mut Text, found: Option<Place>) {
    let Some(place) = found else {
        return text.add("none");
    };
    for part in [place.slot, place.offset, place.length] {
        text.add_number(u64::from(part));
        text.add(" ");
    }
    text.add_number(u64::from(place.level));
}

fn key(kind: &str, byte: &str) -> Result<Key, Fault> {
    let mut key = [byte_of(byte)?; 33];
    key[0] = byte_of(kind)?;
    Ok(key)
}

fn place(slot: &str) -> Result<Place, Fault> {
    Ok(Place {
        slot: u32::from(byte_of(slot)?),
        offset: 7,
        length: 3,
        level: 0,
    })
}
