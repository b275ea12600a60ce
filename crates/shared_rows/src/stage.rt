//! The store that a transcript works on.
use crate::answers::refusal_text;
use crate::shared::{Closing, Shared};
use crate::steps;
use dd_disk::{Disk, MemDisk};
use disk_format::{is_slot_count, size_of};
use refusals::Refusal;
use std::alloc::Global;
use std::sync::Wait;
use std::thread::Threads;
use store_core::Core;
use summary_vector::NoSummary;
use transcripts::{Fault, Stage, number, words_of};

/// A store: its disk alone, or open.
#[derive(Drop)]
enum Store {
    Closed(MemDisk),
    Open(Shared),
}

/// The store, and the leave to wait.
#[derive(Drop)]
pub(crate) struct Stores<'a, R: Wait> {
    rt: &'a R,
    store: Store,
}

impl<R: Wait> Stage for Stores<'_, R> {
    fn prepare(&mut self, alloc: Global, line: &str) -> Result<(), Fault> {
        let words = words_of(alloc, line)?;
        let disk = match words.as_slice() {
            ["disk", slots, _name] => formatted(alloc, number(slots)?)?,
            ["disk", slots, _name, "fail", call] => {
                failing(alloc, formatted(alloc, number(slots)?)?, number(call)?)?
            }
            _ => return Err(Fault::Line),
        };
        let name = words.get(2).ok_or(Fault::Line)?;
        let (store, _text) = opened(alloc, disk, name)?;
        self.store = store;
        Ok(())
    }

    // What the steps of a row answer.
    fn answer<T: Threads + Wait + Sync>(
        &mut self,
        rt: &HostRuntime,
        _threads: &T,
        row: &str,
    ) -> Result<String, Fault> {
        let mut text = String::new(rt.alloc());
        for item in row.split(" ; ") {
            let answer = self.item(rt.alloc(), item)?;
            if !text.is_empty() {
                text.push_str(" ; ")?;
            }
            text.push_str(answer.as_str())?;
        }
        Ok(text)
    }
}

impl<'a, R: Wait> Stores<'a, R> {
    pub(crate) fn new(rt: &'a R, alloc: Global) -> Stores<'a, R> {
        Stores {
            rt,
            store: no_store(alloc),
        }
    }

    fn item(&mut self, alloc: Global, item: &str) -> Result<String, Fault> {
        let words = words_of(alloc, item)?;
        match (words.as_slice(), &mut self.store) {
            (["open", name], _) => self.open(alloc, name),
            (["close", name], _) => self.close(alloc, name),
            (words, Store::Open(shared)) => on_open(self.rt, alloc, shared, words),
            _ => Err(Fault::Store),
        }
    }

    // Takes the store, which leaves a disk of no bytes.
    fn take(&mut self, alloc: Global) -> Store {
        std::mem::replace(&mut self.store, no_store(alloc))
    }

    // Opens the store on the disk that was closed.
    fn open(&mut self, alloc: Global, name: &str) -> Result<String, Fault> {
        let Store::Closed(disk) = self.take(alloc) else {
            return Err(Fault::Store);
        };
        let (store, text) = opened(alloc, disk, name)?;
        self.store = store;
        Ok(text)
    }

    // Closes the store by a pass.
    fn close(&mut self, alloc: Global, name: &str) -> Result<String, Fault> {
        let Store::Open(shared) = self.take(alloc) else {
            return Err(Fault::Store);
        };
        match shared.close(self.rt, name)? {
            Closing::Closed(disk, stopped) => {
                self.store = Store::Closed(disk);
                closed_text(alloc, stopped)
            }
            Closing::Out(shared, others) => {
                self.store = Store::Open(shared);
                Ok(format!(in alloc; "out {others}")?)
            }
        }
    }
}

// What an opening makes of a disk, and its text.
fn opened(alloc: Global, disk: MemDisk, name: &str) -> Result<(Store, String), Fault> {
    match Shared::open(alloc, disk, name) {
        Ok(shared) => Ok((Store::Open(shared), "opened".to_string(alloc)?)),
        Err((disk, refusal)) => Ok((Store::Closed(disk), refusal_text(alloc, &refusal)?)),
    }
}

fn closed_text(alloc: Global, stopped: Option<Refusal>) -> Result<String, Fault> {
    match stopped {
        None => Ok("closed".to_string(alloc)?),
        Some(refusal) => {
            let refusal = refusal_text(alloc, &refusal)?;
            Ok(format!(in alloc; "closed {refusal}")?)
        }
    }
}

// What is answered by a store that is open.
fn on_open<R: Wait>(
    rt: &R,
    alloc: Global,
    shared: &mut Shared,
    words: &[&str],
) -> Result<String, Fault> {
    match words {
        ["split", name, other] => match shared.split(rt, name, other.to_string(alloc)?)? {
            Ok(()) => Ok("split".to_string(alloc)?),
            Err(refusal) => Ok(refusal_text(alloc, &refusal)?),
        },
        ["join", name, other] => {
            let joined = shared.join(name, other)?;
            Ok((if joined { "joined" } else { "back" }).to_string(alloc)?)
        }
        ["seen", name] => {
            let seen = shared.seen(name)?;
            Ok(format!(in alloc; "{seen}")?)
        }
        words => steps::answer(rt, alloc, shared, words),
    }
}

// A disk of no bytes.
fn no_store(alloc: Global) -> Store {
    Store::Closed(disk_of(alloc, Vec::new(alloc)))
}

// A disk of these bytes, none of whose calls fails.
fn disk_of(alloc: Global, bytes: Vec<u8>) -> MemDisk {
    MemDisk::new(bytes, Vec::new(alloc))
}

/// A fresh disk of so many slots.
pub(crate) fn formatted(alloc: Global, slots: u64) -> Result<MemDisk, Fault> {
    let slots = u32::try_from(slots).unwrap_or(0);
    if !is_slot_count(slots) {
        return Err(Fault::Line);
    }
    let mut disk = disk_of(alloc, vec![in alloc; 0u8; size_of(slots) as usize]?);
    match recovery::format(alloc, &mut disk, slots) {
        Ok(()) => Ok(disk_of(alloc, disk.bytes().to_vec(alloc)?)),
        Err(_) => Err(Fault::Store),
    }
}

// The disk, whose call of this number after those of an opening fails.
fn failing(alloc: Global, disk: MemDisk, call: u64) -> Result<MemDisk, Fault> {
    let bytes = disk.bytes().to_vec(alloc)?;
    let Ok(core) = Core::open(alloc, disk, NoSummary) else {
        return Err(Fault::Store);
    };
    let call = core.moment().saturating_add(call);
    Ok(MemDisk::new(bytes, vec![in alloc; call]?))
}
