//! Calls of `namespace`.
use namespace::{Change, NameFault, Names, Record, Root};
use std::alloc::Global;
use transcripts::{Fault, Text, bytes_of, number, words_of};

/// Calls of names: records that are applied, `get NAME`, and `list`.
pub(crate) fn names(alloc: Global, chain: &str) -> Result<String, Fault> {
    let mut names = Names::new(alloc);
    let mut text = Text::new(alloc);
    for item in chain.split(" ; ") {
        text.part_by(" ; ");
        call(alloc, &mut names, item, &mut text)?;
    }
    Ok(text.whole()?)
}

fn call(alloc: Global, names: &mut Names, item: &str, text: &mut Text) -> Result<(), Fault> {
    match words_of(alloc, item)?.as_slice() {
        ["get", name] => {
            let root = names.get(&bytes_of(alloc, &[name])?);
            add_root(text, root);
        }
        ["list"] => add_list(text, &names.list(alloc)?),
        ["count"] => text.add_number(names.list(alloc)?.len() as u64),
        words => {
            let mut records = Vec::new(alloc);
            add_records(alloc, &mut records, words)?;
            apply_all(names, &records, text);
        }
    }
    Ok(())
}

/// Applies records, where the check of each is to say the same: how many were taken, and why others were not.
fn apply_all(names: &mut Names, records: &[Record], text: &mut Text) {
    let mut taken: u64 = 0;
    for record in records {
        let checked = names.check(record);
        let applied = names.apply(record);
        if text_of(checked) != text_of(applied) {
            text.add("another check ");
        }
        match applied {
            Ok(()) => taken = taken.saturating_add(1),
            Err(fault) => text.add(fault_text(fault)),
        }
    }
    if taken > 0 {
        text.add_number(taken);
        text.add(" taken");
    }
}

/// What a check says.
fn text_of(checked: Result<(), NameFault>) -> &'static str {
    match checked {
        Ok(()) => "taken",
        Err(fault) => fault_text(fault),
    }
}

fn fault_text(fault: NameFault) -> &'static str {
    match fault {
        NameFault::NoFile => "no file",
        NameFault::BadName => "bad name",
        NameFault::TooMany => "too many",
        NameFault::Memory => "memory",
    }
}

fn add_root(text: &mut Text, root: Result<Root, NameFault>) {
    match root {
        Ok(root) => text.add_number(root.length),
        Err(fault) => text.add(fault_text(fault)),
    }
}

/// Adds `put NAME NUMBER`, whose root has the sequence number as its length, `delete NAME NUMBER`, or `puts COUNT` under
/// names of two letters, the last name first.
fn add_records(alloc: Global, records: &mut Vec<Record>, words: &[&str]) -> Result<(), Fault> {
    match words {
        ["put", name, sequence] => {
            let name = bytes_of(alloc, &[name])?;
            records.push(put(name, number(sequence)?))?;
        }
        ["delete", name, sequence] => {
            let name = bytes_of(alloc, &[name])?;
            records.push(delete(name, number(sequence)?))?;
        }
        ["puts", count] => add_puts(alloc, records, number(count)?)?,
        _ => return Err(Fault::Line),
    }
    Ok(())
}

fn delete(name: Vec<u8>, sequence: u64) -> Record {
    Record {
        sequence,
        name,
        change: Change::Delete,
    }
}

fn put(name: Vec<u8>, sequence: u64) -> Record {
    let root = Root {
        length: sequence,
        level: 1,
        digest: [7; 32],
    };
    Record {
        sequence,
        name,
        change: Change::Put(root),
    }
}

fn add_puts(alloc: Global, records: &mut Vec<Record>, count: u64) -> Result<(), Fault> {
    for sequence in 1..=count {
        let place = count - sequence;
        let letters = [b'A' + (place / 32 % 32) as u8, b'A' + (place % 32) as u8];
        records.push(put(letters.as_slice().to_vec(alloc)?, sequence))?;
    }
    Ok(())
}

fn add_list(text: &mut Text, puts: &[Record]) {
    let mut mark = false;
    for put in puts {
        text.add(if mark { ", " } else { "" });
        text.add_bytes(&put.name);
        text.add(" ");
        text.add_number(put.sequence);
        mark = true;
    }
    if puts.is_empty() {
        text.add("none");
    }
}

/// The names that records leave, and those that a replay of their list leaves.
pub(crate) fn replay(alloc: Global, chain: &str) -> Result<String, Fault> {
    let mut records = Vec::new(alloc);
    for item in chain.split(" ; ") {
        add_records(alloc, &mut records, &words_of(alloc, item)?)?;
    }
    let mut text = Text::new(alloc);
    let listed = replayed(alloc, &records, &mut text)?;
    if !listed.is_empty() {
        text.add(" ; ");
        replayed(alloc, &listed, &mut text)?;
    }
    Ok(text.whole()?)
}

/// The list of the names that records leave, and its text.
fn replayed(alloc: Global, records: &[Record], text: &mut Text) -> Result<Vec<Record>, Fault> {
    match Names::replay(alloc, records) {
        Ok(names) => {
            let listed = names.list(alloc)?;
            add_list(text, &listed);
            Ok(listed)
        }
        Err(fault) => {
            text.add(fault_text(fault));
            Ok(Vec::new(alloc))
        }
    }
}
