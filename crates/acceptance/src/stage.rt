//! The disk that a transcript works on.
use crate::cells::seal;
use crate::chain::answers_of;
use crate::sizes::size;
use crate::turned::TurnedDisk;
use dd_disk::{Asked, BlindDisk, FileDisk, Fill, MemDisk};
use std::alloc::Global;
use std::fs::File;
use std::io;
use std::sync::Wait;
use std::thread::Threads;
use transcripts::{
    FILLS, Fault, Stage, Text, add_piece, by_fill, bytes_of, change, fill_of, number, numbers_of,
    words_of,
};

/// An image that was saved under a name.
#[derive(Drop)]
struct Saved {
    name: String,
    bytes: Vec<u8>,
}

/// The disk, and the images that were saved.
#[derive(Drop)]
pub(crate) struct Disks {
    disk: MemDisk,
    saved: Vec<Saved>,
}

/// A disk of these bytes, none of whose calls fails.
fn disk_of(alloc: Global, bytes: Vec<u8>) -> MemDisk {
    MemDisk::new(bytes, Vec::new(alloc))
}

impl Stage for Disks {
    fn prepare(&mut self, alloc: Global, line: &str) -> Result<(), Fault> {
        let words = words_of(alloc, line)?;
        match words.as_slice() {
            ["zeros", size] => self.show(zeros(alloc, number(size)?)?),
            ["disk", bytes @ ..] => self.show(bytes_of(alloc, bytes)?),
            ["put", at, bytes @ ..] => self.put(alloc, number(at)?, &bytes_of(alloc, bytes)?)?,
            ["seal", at] => self.seal(alloc, number(at)?)?,
            ["save", name] => self.save(alloc, name)?,
            ["load", name] => self.load(name)?,
            ["again", calls @ ..] => self.again(alloc, numbers_of(alloc, calls)?)?,
            ["stop", call, fill] => self.stop(alloc, number(call)?, fill)?,
            _ => return Err(Fault::Line),
        }
        Ok(())
    }

    // A call of the disk, a chain over a disk, or the size of a format.
    fn answer<R: Threads + Wait + Sync>(
        &mut self,
        rt: &HostRuntime,
        threads: &R,
        row: &str,
    ) -> Result<String, Fault> {
        let alloc = rt.alloc();
        if let Some(call) = row.strip_prefix("call ") {
            return self.call_text(alloc, number(call)?);
        }
        if let Some((over, chain)) = row.split_once('$') {
            return match words_of(alloc, over)?.as_slice() {
                ["file", length, size] => {
                    let file = file_of(rt, number(length)?)?;
                    answers_of(
                        threads,
                        alloc,
                        &mut FileDisk::new(file, number(size)?),
                        chain,
                    )
                }
                words => self.chain_over(threads, alloc, words, chain),
            };
        }
        match row.strip_prefix("size ") {
            Some(words) => size(alloc, &words_of(alloc, words)?),
            None => Err(Fault::Line),
        }
    }
}

impl Disks {
    pub(crate) fn new(alloc: Global) -> Disks {
        Disks {
            disk: disk_of(alloc, Vec::new(alloc)),
            saved: Vec::new(alloc),
        }
    }

    // From here on the disk has these bytes, and its calls are counted anew.
    fn show(&mut self, bytes: Vec<u8>) {
        self.disk = disk_of(*bytes.allocator(), bytes);
    }

    fn put(&mut self, alloc: Global, at: u64, from: &[u8]) -> Result<(), Fault> {
        let mut bytes = self.disk.bytes().to_vec(alloc)?;
        change(&mut bytes, at, from)?;
        self.show(bytes);
        Ok(())
    }

    fn seal(&mut self, alloc: Global, at: u64) -> Result<(), Fault> {
        let mut bytes = self.disk.bytes().to_vec(alloc)?;
        seal(&mut bytes, at)?;
        self.show(bytes);
        Ok(())
    }

    fn save(&mut self, alloc: Global, name: &str) -> Result<(), Fault> {
        self.saved.push(Saved {
            name: name.to_string(alloc)?,
            bytes: self.disk.bytes().to_vec(alloc)?,
        })?;
        Ok(())
    }

    // From here on the calls of the disk are counted anew, and these fail.
    fn again(&mut self, alloc: Global, fails: Vec<u64>) -> Result<(), Fault> {
        self.disk = MemDisk::new(self.disk.bytes().to_vec(alloc)?, fails);
        Ok(())
    }

    // From here on the disk is what a stop inside a call leaves.
    fn stop(&mut self, alloc: Global, call: u64, fill: &str) -> Result<(), Fault> {
        let image = self.image_after(alloc, call, fill_of(fill)?)?;
        self.show(image);
        Ok(())
    }

    // The image that was saved last under a name.
    fn load(&mut self, name: &str) -> Result<(), Fault> {
        let image = self.saved(name)?;
        self.show(image);
        Ok(())
    }

    fn saved(&self, name: &str) -> Result<Vec<u8>, Fault> {
        let mut found = None;
        for saved in &self.saved {
            if saved.name.as_str() == name {
                found = Some(saved.bytes.clone()?);
            }
        }
        found.ok_or(Fault::Place)
    }

    // What a chain answers over the disk, or over another that is made of it for this chain alone.
    fn chain_over<R: Threads + Wait + Sync>(
        &mut self,
        rt: &R,
        alloc: Global,
        over: &[&str],
        chain: &str,
    ) -> Result<String, Fault> {
        match over {
            [] => answers_of(rt, alloc, &mut self.disk, chain),
            ["sealed", at, edits @ ..] => {
                let mut bytes = self.edited(alloc, number(at)?, edits)?;
                seal(&mut bytes, number(at)?)?;
                answers_of(rt, alloc, &mut disk_of(alloc, bytes), chain)
            }
            ["unsealed", at, edits @ ..] => {
                let bytes = self.edited(alloc, number(at)?, edits)?;
                answers_of(rt, alloc, &mut disk_of(alloc, bytes), chain)
            }
            ["fail", calls @ ..] => {
                let bytes = self.disk.bytes().to_vec(alloc)?;
                answers_of(
                    rt,
                    alloc,
                    &mut MemDisk::new(bytes, numbers_of(alloc, calls)?),
                    chain,
                )
            }
            ["lie", lies @ ..] => {
                let bytes = self.disk.bytes().to_vec(alloc)?;
                answers_of(
                    rt,
                    alloc,
                    &mut BlindDisk::new(bytes, lies_of(alloc, lies)?),
                    chain,
                )
            }
            ["turn", call, name] => self.after_turn(rt, alloc, number(call)?, name, chain),
            ["crash", call] => self.after_stops(rt, alloc, number(call)?, chain),
            _ => Err(Fault::Line),
        }
    }

    // What a chain answers over the disk that is an image that was saved from a call on, and whether it is that image then.
    fn after_turn<R: Threads + Wait + Sync>(
        &self,
        rt: &R,
        alloc: Global,
        call: u64,
        name: &str,
        chain: &str,
    ) -> Result<String, Fault> {
        let image = self.saved(name)?;
        let bytes = self.disk.bytes().to_vec(alloc)?;
        let mut disk = TurnedDisk::new(bytes, image.clone()?, call);
        let answers = answers_of(rt, alloc, &mut disk, chain)?;
        let mut text = Text::new(alloc);
        text.add(answers.as_str());
        text.add(if disk.has(&image) {
            " ; as "
        } else {
            " ; not as "
        });
        text.add(name);
        Ok(text.whole()?)
    }

    // The bytes of the disk, with `OFFSET=BYTES` put over the cell or header at a place.
    fn edited(&self, alloc: Global, at: u64, edits: &[&str]) -> Result<Vec<u8>, Fault> {
        let mut bytes = self.disk.bytes().to_vec(alloc)?;
        for edit in edits {
            let (offset, from) = edit_of(alloc, edit)?;
            change(&mut bytes, at.saturating_add(offset), &from)?;
        }
        Ok(bytes)
    }

    // The image that a stop inside a call of the disk leaves.
    fn image_after(&self, alloc: Global, call: u64, fill: Fill) -> Result<Vec<u8>, Fault> {
        if call == 0 {
            return Err(Fault::Place);
        }
        Ok(self.disk.crash_image(alloc, call, fill)?)
    }

    // What a chain answers over each image that a stop inside a call of the disk leaves.
    fn after_stops<R: Threads + Wait + Sync>(
        &self,
        rt: &R,
        alloc: Global,
        call: u64,
        chain: &str,
    ) -> Result<String, Fault> {
        let mut answers = Vec::new(alloc);
        for (_name, fill) in FILLS {
            let image = self.image_after(alloc, call, fill)?;
            answers.push(answers_of(rt, alloc, &mut disk_of(alloc, image), chain)?)?;
        }
        by_fill(alloc, &answers)
    }

    // What was asked of the disk in a call.
    fn call_text(&self, alloc: Global, number: u64) -> Result<String, Fault> {
        let mut text = Text::new(alloc);
        for call in self.disk.calls() {
            if call.number == number {
                add_asked(&mut text, &call.asked);
            }
        }
        Ok(text.whole()?)
    }
}

fn zeros(alloc: Global, size: u64) -> Result<Vec<u8>, Fault> {
    if size > 100_000_000 {
        return Err(Fault::Place);
    }
    Ok(vec![in alloc; 0u8; size as usize]?)
}

fn edit_of(alloc: Global, edit: &str) -> Result<(u64, Vec<u8>), Fault> {
    let (offset, piece) = edit.split_once('=').ok_or(Fault::Line)?;
    let mut bytes = Vec::new(alloc);
    add_piece(alloc, piece, &mut bytes)?;
    Ok((number(offset)?, bytes))
}

// `PLACE=BYTE` each: what reads give there.
fn lies_of(alloc: Global, words: &[&str]) -> Result<Vec<(u64, u8)>, Fault> {
    let mut lies = Vec::new(alloc);
    for word in words {
        let (place, bytes) = edit_of(alloc, word)?;
        for byte in &bytes {
            lies.push((place, *byte))?;
        }
    }
    Ok(lies)
}

fn add_asked(text: &mut Text, asked: &Asked) {
    match asked {
        Asked::Read(at, count) => add_range(text, "read", *at, *count),
        Asked::Write(at, bytes) => add_range(text, "write", *at, bytes.len() as u64),
        Asked::Sync => text.add("sync"),
    }
}

fn add_range(text: &mut Text, word: &str, at: u64, count: u64) {
    text.add(word);
    text.add(" ");
    text.add_number(at);
    text.add(" ");
    text.add_number(count);
}

// A file of so many zeros.
fn file_of(rt: &HostRuntime, length: u64) -> Result<File, Fault> {
    match new_file(rt, length) {
        Ok(file) => Ok(file),
        Err(_) => Err(Fault::File),
    }
}

fn new_file(rt: &HostRuntime, length: u64) -> io::Result<File> {
    let file = File::options()
        .read(true)
        .write(true)
        .create(true)
        .truncate(true)
        .open(rt, "disk.img")?;
    file.set_len(length)?;
    Ok(file)
}
