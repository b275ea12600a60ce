//! The store that a transcript works on, and the names.
use crate::answers::refusal_text;
use crate::named::{Named, named_by};
use crate::pieces::{bytes_of, piece_of};
use crate::running::{Running, open};
use crate::steps;
use dd_disk::{BlindDisk, Disk, MemDisk};
use disk_format::{is_slot_count, size_of};
use std::alloc::Global;
use std::sync::Wait;
use std::thread::Threads;
use store_core::Core;
use summary_vector::NoSummary;
use transcripts::{FILLS, Fault, Stage, by_fill, change, number, words_of};

/// A store: its disk alone, or a core that is open over it.
#[derive(Drop)]
enum Store {
    Closed(MemDisk),
    Open(Running<Core<MemDisk, NoSummary>>),
    Lying(Running<Core<BlindDisk, NoSummary>>),
}

/// The store, and what names stand for.
#[derive(Drop)]
pub(crate) struct Stores {
    store: Store,
    names: Vec<Named>,
    // What the disk held at the opening, the steps since then, and which calls were to fail.
    start: Vec<u8>,
    steps: Vec<String>,
    fails: Vec<u64>,
    // The number of the call after which calls are counted.
    mark: u64,
}

/// A disk of these bytes, none of whose calls fails.
fn disk_of(alloc: Global, bytes: Vec<u8>) -> MemDisk {
    MemDisk::new(bytes, Vec::new(alloc))
}

impl Store {
    fn moment(&self) -> u64 {
        match self {
            Store::Closed(disk) => disk.moment(),
            Store::Open(core) => core.moment(),
            Store::Lying(core) => core.moment(),
        }
    }

    fn answer(&mut self, alloc: Global, names: &[Named], step: &str) -> Result<String, Fault> {
        match self {
            Store::Closed(_) => Err(Fault::Store),
            Store::Open(core) => steps::answer(alloc, core, names, step),
            Store::Lying(core) => steps::answer(alloc, core, names, step),
        }
    }

    // Its disk, which tells the truth from here on.
    fn into_disk(self, alloc: Global) -> Result<MemDisk, Fault> {
        match self {
            Store::Closed(disk) => Ok(disk),
            Store::Open(core) => Ok(core.close()),
            Store::Lying(core) => Ok(disk_of(alloc, core.close().bytes().to_vec(alloc)?)),
        }
    }
}

impl Stage for Stores {
    fn prepare(&mut self, alloc: Global, line: &str) -> Result<(), Fault> {
        let words = words_of(alloc, line)?;
        match words.as_slice() {
            ["disk", slots] => self.format(alloc, slots),
            ["put", place, pieces @ ..] => self.put(alloc, place, pieces),
            ["mark"] => self.mark_calls(),
            ["fail", call] => self.fail(alloc, call),
            words => self.add_name(alloc, words),
        }
    }

    // What the steps of a row answer.
    fn answer<R: Threads + Wait + Sync>(
        &mut self,
        rt: &HostRuntime,
        _threads: &R,
        row: &str,
    ) -> Result<String, Fault> {
        match row.strip_prefix("crash ") {
            Some(words) => self.after_stops(rt.alloc(), words),
            None => self.chain(rt.alloc(), row),
        }
    }
}

impl Stores {
    pub(crate) fn new(alloc: Global) -> Stores {
        Stores {
            store: Store::Closed(disk_of(alloc, Vec::new(alloc))),
            names: Vec::new(alloc),
            start: Vec::new(alloc),
            steps: Vec::new(alloc),
            fails: Vec::new(alloc),
            mark: 0,
        }
    }

    fn add_name(&mut self, alloc: Global, words: &[&str]) -> Result<(), Fault> {
        let named = named_by(alloc, &self.names, words)?;
        Ok(self.names.push(named)?)
    }

    fn mark_calls(&mut self) -> Result<(), Fault> {
        self.mark = self.store.moment();
        Ok(())
    }

    fn set(&mut self, store: Store) {
        self.store = store;
    }

    // Takes the disk, which leaves one of no bytes.
    fn take_disk(&mut self, alloc: Global) -> Result<MemDisk, Fault> {
        let nothing = Store::Closed(disk_of(alloc, Vec::new(alloc)));
        std::mem::replace(&mut self.store, nothing).into_disk(alloc)
    }

    // Takes what the disk holds.
    fn take_bytes(&mut self, alloc: Global) -> Result<Vec<u8>, Fault> {
        let disk = self.take_disk(alloc)?;
        Ok(disk.bytes().to_vec(alloc)?)
    }

    fn format(&mut self, alloc: Global, slots: &str) -> Result<(), Fault> {
        let disk = formatted(alloc, number(slots)?)?;
        self.set(Store::Closed(disk));
        match self.reopen(alloc) {
            Ok(_) => Ok(()),
            Err(fault) => Err(fault),
        }
    }

    fn put(&mut self, alloc: Global, place: &str, pieces: &[&str]) -> Result<(), Fault> {
        let from = bytes_of(alloc, &self.names, pieces)?;
        let bytes = changed(self.take_bytes(alloc)?, number(place)?, &from)?;
        self.set(Store::Closed(disk_of(alloc, bytes)));
        Ok(())
    }

    // Opens over what the disk holds, and counts its calls from here on.
    fn reopen(&mut self, alloc: Global) -> Result<String, Fault> {
        self.start = self.take_bytes(alloc)?;
        self.steps.clear();
        self.fails.clear();
        self.mark = 0;
        self.open_start(alloc)
    }

    // Opens over what the disk held at the opening.
    fn open_start(&mut self, alloc: Global) -> Result<String, Fault> {
        let fails = self.fails.clone()?;
        let disk = MemDisk::new(self.start.clone()?, fails);
        match open(alloc, disk) {
            Ok(core) => {
                self.set(Store::Open(core));
                Ok("opened".to_string(alloc)?)
            }
            Err(refusal) => Ok(refusal_text(alloc, &refusal)?),
        }
    }

    // Makes the steps since the opening once more, over a disk whose call of this number from now on fails too.
    fn fail(&mut self, alloc: Global, call: &str) -> Result<(), Fault> {
        let call = self.store.moment().saturating_add(number(call)?);
        self.fails.push(call)?;
        match self.open_start(alloc) {
            Ok(_) => make_again(alloc, &mut self.store, &self.names, &self.steps),
            Err(fault) => Err(fault),
        }
    }

    fn lie(&mut self, alloc: Global, place: &str, piece: &str) -> Result<String, Fault> {
        let lies = lies_of(alloc, &self.names, number(place)?, piece)?;
        let disk = BlindDisk::new(self.take_bytes(alloc)?, lies);
        match open(alloc, disk) {
            Ok(core) => {
                self.set(Store::Lying(core));
                Ok("opened".to_string(alloc)?)
            }
            Err(refusal) => Ok(refusal_text(alloc, &refusal)?),
        }
    }

    fn close(&mut self, alloc: Global) -> Result<String, Fault> {
        let disk = self.take_disk(alloc)?;
        self.set(Store::Closed(disk));
        Ok("closed".to_string(alloc)?)
    }

    fn calls(&self, alloc: Global) -> Result<String, Fault> {
        let count = self.store.moment().saturating_sub(self.mark);
        Ok(format!(in alloc; "{count}")?)
    }

    fn step(&mut self, alloc: Global, step: &str) -> Result<String, Fault> {
        self.steps.push(step.to_string(alloc)?)?;
        self.store.answer(alloc, &self.names, step)
    }

    fn chain(&mut self, alloc: Global, row: &str) -> Result<String, Fault> {
        let mut text = String::new(alloc);
        for item in row.split(" ; ") {
            let answer = self.item(alloc, item)?;
            add_part(&mut text, " ; ", answer.as_str())?;
        }
        Ok(text)
    }

    fn item(&mut self, alloc: Global, item: &str) -> Result<String, Fault> {
        match item {
            "reopen" => self.reopen(alloc),
            "close" => self.close(alloc),
            "calls" => self.calls(alloc),
            item => match item.strip_prefix("lie ") {
                Some(lie) => self.lie_by(alloc, lie),
                None => self.step(alloc, item),
            },
        }
    }

    fn lie_by(&mut self, alloc: Global, words: &str) -> Result<String, Fault> {
        match words.split_once(' ') {
            Some((place, piece)) => self.lie(alloc, place, piece),
            None => Err(Fault::Line),
        }
    }

    // `CALL CHAIN`: what the chain answers over each image that a stop inside a call of the closed disk leaves.
    fn after_stops(&self, alloc: Global, words: &str) -> Result<String, Fault> {
        let (call, chain) = words.split_once(' ').ok_or(Fault::Line)?;
        let stop = self.mark.saturating_add(number(call)?);
        match &self.store {
            Store::Closed(disk) => {
                let answers = answers_by_fill(alloc, disk, stop, &self.names, chain)?;
                by_fill(alloc, &answers)
            }
            _ => Err(Fault::Store),
        }
    }
}

// A fresh disk of so many slots.
fn formatted(alloc: Global, slots: u64) -> Result<MemDisk, Fault> {
    let slots = u32::try_from(slots).unwrap_or(0);
    if !is_slot_count(slots) {
        return Err(Fault::Line);
    }
    let mut disk = disk_of(alloc, vec![in alloc; 0u8; size_of(slots) as usize]?);
    match recovery::format(alloc, &mut disk, slots) {
        Ok(()) => Ok(disk),
        Err(_) => Err(Fault::Store),
    }
}

fn changed(bytes: Vec<u8>, place: u64, from: &[u8]) -> Result<Vec<u8>, Fault> {
    let mut bytes = bytes;
    change(&mut bytes, place, from)?;
    Ok(bytes)
}

// Makes steps, whatever they answer.
fn make_again(
    alloc: Global,
    store: &mut Store,
    names: &[Named],
    steps: &[String],
) -> Result<(), Fault> {
    for step in steps {
        store.answer(alloc, names, step.as_str())?;
    }
    Ok(())
}

// Lies from a place on.
fn lies_of(
    alloc: Global,
    names: &[Named],
    place: u64,
    piece: &str,
) -> Result<Vec<(u64, u8)>, Fault> {
    let bytes = piece_of(alloc, names, piece)?;
    let mut lies = Vec::new(alloc);
    for byte in &bytes {
        lies.push((place, *byte))?;
    }
    Ok(lies)
}

fn answers_by_fill(
    alloc: Global,
    disk: &MemDisk,
    stop: u64,
    names: &[Named],
    chain: &str,
) -> Result<Vec<String>, Fault> {
    if stop == 0 {
        return Err(Fault::Place);
    }
    let mut answers = Vec::new(alloc);
    for (_name, fill) in FILLS {
        let image = disk.crash_image(alloc, stop, fill)?;
        answers.push(over(alloc, image, names, chain)?)?;
    }
    Ok(answers)
}

// What a chain answers over an image.
fn over(alloc: Global, image: Vec<u8>, names: &[Named], chain: &str) -> Result<String, Fault> {
    let mut store = match open(alloc, disk_of(alloc, image)) {
        Ok(core) => Store::Open(core),
        Err(refusal) => return Ok(refusal_text(alloc, &refusal)?),
    };
    let mut text = String::new(alloc);
    for step in chain.split(" ; ") {
        let answer = store.answer(alloc, names, step)?;
        add_part(&mut text, " ; ", answer.as_str())?;
    }
    Ok(text)
}

// Adds a part after the parts that are there.
fn add_part(text: &mut String, mark: &str, part: &str) -> Result<(), Fault> {
    if !text.is_empty() {
        text.push_str(mark)?;
    }
    Ok(text.push_str(part)?)
}
