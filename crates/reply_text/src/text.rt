//! The replies of the commands: docs/FORMAT.md, 'Texts'.
ghost use Rattle.std.specs.Prelude.{◌≡◌, ◌++◌, codes, decimal, map, IfOk, OnOk};
ghost use Rattle.std.specs.List.{flat_map};
ghost use Rattle.namespace.specs.Listing.{listed_value};
ghost use Rattle.reply_text.specs.Text.{formatted_line, stored_line, deleted_line, named_line, file_line, listed_line, listing_text, summary_text, unique_line};

use crate::digits::put_digits;
use itoa::Buffer;
use namespace::{ListedName, Listing, Root};
use std::alloc::{AllocError, Global};

/// The reply of `format`: a store of so many slots was made. It fails for want of memory alone.
#[tactic(auto, unfolding(crate::specs::Text::formatted_line))]
pub fn formatted_line(alloc: Global, slots: u32) -> Result<Vec<u8>, AllocError>
    ensures { IfOk result (λ line. line.items ≡ formatted_line slots) }
{
    let mut line = Vec::new(alloc);
    add_number_line(&mut line, b"formatted ", u64::from(slots))?;
    Ok(line)
}

/// The reply of `ingest`: the name has the root. It fails for want of memory alone.
#[tactic(auto, unfolding(crate::specs::Text::stored_line))]
pub fn stored_line(alloc: Global, name: &[u8], root: &Root) -> Result<Vec<u8>, AllocError>
    ensures { IfOk result (λ line. line.items ≡ stored_line name.now root.now) }
{
    let mut line = Vec::new(alloc);
    add_named_line(&mut line, b"stored ", name, root)?;
    Ok(line)
}

/// The reply of `delete`: the name is gone. It fails for want of memory alone.
#[tactic(auto, unfolding(crate::specs::Text::deleted_line))]
pub fn deleted_line(alloc: Global, name: &[u8]) -> Result<Vec<u8>, AllocError>
    ensures { IfOk result (λ line. line.items ≡ deleted_line name.now) }
{
    let mut line = Vec::from_slice(alloc, b"deleted ")?;
    line.extend_from_slice(name)?;
    line.extend_from_slice(b"\n")?;
    Ok(line)
}

/// The reply of `list`, and the one to a line `list` of a script: a line for each name, in the order of their bytes, and one
/// that says how many they are. It fails for want of memory alone.
#[tactic(auto, unfolding(crate::specs::Text::listing_text, crate::specs::Text::listed_line))]
pub fn listing_text(alloc: Global, files: &Listing) -> Result<Vec<u8>, AllocError>
    ensures { IfOk result (λ text. text.items ≡ listing_text files.now) }
{
    let names = files.names();
    let mut text = Vec::new(alloc);
    add_file_lines(&mut text, names)?;
    add_number_line(&mut text, b"listed ", names.len() as u64)?;
    Ok(text)
}

/// What the trees of all names have, each key counted once: the reply to a line `unique` of a script. It fails for want of
/// memory alone.
pub fn unique_line(alloc: Global, segments: u64, bytes: u64) -> Result<Vec<u8>, AllocError>
    ensures { IfOk result (λ line. line.items ≡ unique_line segments bytes) }
{
    let mut line = Vec::new(alloc);
    add_unique_line(&mut line, segments, bytes)?;
    Ok(line)
}

/// What `work` prints: a line for each name, in the order of their bytes, and what the trees of all names have, each key counted
/// once. It fails for want of memory alone.
#[tactic(auto, unfolding(crate::specs::Text::summary_text))]
pub fn summary_text(
    alloc: Global,
    files: &Listing,
    segments: u64,
    bytes: u64,
) -> Result<Vec<u8>, AllocError>
    ensures { IfOk result (λ text. text.items ≡ summary_text files.now segments bytes) }
{
    let mut text = Vec::new(alloc);
    add_file_lines(&mut text, files.names())?;
    add_unique_line(&mut text, segments, bytes)?;
    Ok(text)
}

fn add_unique_line(text: &mut Vec<u8>, segments: u64, bytes: u64) -> Result<(), AllocError>
    ensures { OnOk result (text.new.items ≡ text.old.items ++ unique_line segments bytes) }
{
    let mut number = Buffer::new();
    text.extend_from_slice(b"unique segments ")?;
    text.extend_from_slice(number.format(segments).as_bytes())?;
    add_number_line(text, b" bytes ", bytes)?;
    Ok(())
}

fn add_file_lines(text: &mut Vec<u8>, names: &[ListedName]) -> Result<(), AllocError>
    ensures { OnOk result (text.new.items ≡ text.old.items ++ flat_map file_line (map listed_value names.now)) }
{
    for named in names {
        add_named_line(text, b"file ", &named.name, &named.root)?;
    }
    Ok(())
}

// A word, a name, and the root that it has.
fn add_named_line(
    text: &mut Vec<u8>,
    word: &[u8],
    name: &[u8],
    root: &Root,
) -> Result<(), AllocError>
    ensures { OnOk result (text.new.items ≡ text.old.items ++ named_line word.now name.now root.now) }
{
    let (mut length, mut level) = (Buffer::new(), Buffer::new());
    let mut digest = [0u8; 64];
    put_digits(&root.digest, &mut digest);
    text.extend_from_slice(word)?;
    text.extend_from_slice(name)?;
    text.extend_from_slice(b" ")?;
    text.extend_from_slice(length.format(root.length).as_bytes())?;
    text.extend_from_slice(b" ")?;
    text.extend_from_slice(level.format(root.level).as_bytes())?;
    text.extend_from_slice(b" ")?;
    text.extend_from_slice(&digest)?;
    text.extend_from_slice(b"\n")?;
    Ok(())
}

// A word and a number.
fn add_number_line(text: &mut Vec<u8>, word: &[u8], number: u64) -> Result<(), AllocError>
    ensures { OnOk result (text.new.items ≡ text.old.items ++ (word.now ++ decimal number ++ codes "\n")) }
{
    let mut number_text = Buffer::new();
    text.extend_from_slice(word)?;
    text.extend_from_slice(number_text.format(number).as_bytes())?;
    text.extend_from_slice(b"\n")?;
    Ok(())
}
