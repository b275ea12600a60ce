//! The replies to the lines of a script: docs/FORMAT.md, 'Scripts'.
ghost use Rattle.std.specs.Prelude.{◌≡◌, ◌++◌, codes, decimal, IfOk, OnOk};
ghost use Rattle.hex.specs.Hex.{encode_lower};
ghost use Rattle.reply_text.specs.Text.{phase_text};
ghost use Rattle.script_lines.specs.ReplyText.{turned_line, stat_line, reply_line};
ghost use Rattle.script_lines.specs.ReplyValue.{reply_value};

use actor_parts::Actor;
use itoa::Buffer;
use namespace::Listing;
use refusals::{Phase, Refusal};
use reply_text::{listing_text, phase_word, refused_line, unique_line};
use std::alloc::{AllocError, Global};

/// What a turn did.
#[derive(Clone, Copy)]
pub enum Turned {
    /// The segment is held, and kept.
    Held,
    /// No such segment is held.
    Absent,
    /// A container was stored under this id.
    Sealed { id: u64 },
    /// Nothing was due.
    Idle,
}

/// What a store holds.
#[derive(Clone, Copy)]
pub struct Holdings {
    /// How many names there are.
    pub files: u64,
    /// How many segments its containers have.
    pub segments: u64,
    /// How many bytes these have in all.
    pub bytes: u64,
    /// How many container slots are used.
    pub used: u64,
    /// How many are free.
    pub free: u64,
}

/// The reply to a line of a script.
#[derive(Clone, Copy)]
pub enum Reply<'a> {
    /// `begun A`: a file may be given.
    Begun { actor: Actor },
    /// `pushed A N`: so many bytes of the file were given so far.
    Pushed { actor: Actor, bytes: u64 },
    /// `finished A N`: so many bytes the file has.
    Finished { actor: Actor, bytes: u64 },
    /// `turn A held`, `turn A absent`, `turn A sealed ID` or `turn A idle`.
    Turn { actor: Actor, turned: Turned },
    /// `committed A SEQ`: the name has the file from this sequence number on.
    Committed { actor: Actor, sequence: u64 },
    /// `aborted A`: the file was given up.
    Aborted { actor: Actor },
    /// `reading A LENGTH`: so many bytes are to come.
    Reading { actor: Actor, length: u64 },
    /// `bytes A HEX`: the next of them, which the caller lends. There is at least one, since HEX is two digits or more.
    Bytes { actor: Actor, bytes: &'a [u8] },
    /// `end A`: the file has ended.
    End { actor: Actor },
    /// `dropped A`: no more are taken.
    Dropped { actor: Actor },
    /// `deleted SEQ`: the name is gone from this sequence number on.
    Deleted { sequence: u64 },
    /// `file NAME LENGTH LEVEL DIGEST` for each name, each with the LF that ends it, and then `listed COUNT`. The caller lends
    /// the names.
    Listed { files: &'a Listing },
    /// `collecting SNAPSHOT`: a collection runs, which goes over the containers with an id below this one.
    Collecting { snapshot: u64 },
    /// `step PHASE`: its step did this.
    Step { phase: Phase },
    /// `collected freed F copied C`: it has ended; so many containers were given back, and so many segments copied.
    Collected { freed: u64, copied: u64 },
    /// `stat files F segments S bytes B used U free R`.
    Stat { holdings: Holdings },
    /// `unique segments S bytes B`: the trees of all names have so many keys, each counted once, and so many bytes.
    Unique { segments: u64, bytes: u64 },
    /// `opened FILES`: the store is open, and has so many names.
    Opened { files: u64 },
    /// `refused TEXT`: why the line was refused.
    Refused { refusal: Refusal },
}

/// The line of a reply, with the LF that ends it; of a listing the lines, each with its own. It fails for want of memory alone.
#[tactic(auto, unfolding(crate::specs::ReplyText::reply_line))]
pub fn print_reply(alloc: Global, reply: &Reply<'_>) -> Result<Vec<u8>, AllocError>
    ensures { IfOk result (λ line. line.items ≡ reply_line (reply_value reply.now)) }
{
    match reply {
        Reply::Begun { actor } => actor_line(alloc, b"begun ", *actor),
        Reply::Pushed { actor, bytes } => number_line(alloc, b"pushed ", *actor, *bytes),
        Reply::Finished { actor, bytes } => number_line(alloc, b"finished ", *actor, *bytes),
        Reply::Turn { actor, turned } => turned_line(alloc, *actor, turned),
        Reply::Committed { actor, sequence } => number_line(
            alloc,
            b"committed ",
            *actor,
            *sequence,
        ),
        Reply::Aborted { actor } => actor_line(alloc, b"aborted ", *actor),
        Reply::Reading { actor, length } => number_line(alloc, b"reading ", *actor, *length),
        Reply::Bytes { actor, bytes } => bytes_line(alloc, *actor, bytes),
        Reply::End { actor } => actor_line(alloc, b"end ", *actor),
        Reply::Dropped { actor } => actor_line(alloc, b"dropped ", *actor),
        Reply::Deleted { sequence } => count_line(alloc, b"deleted ", *sequence),
        Reply::Listed { files } => listing_text(alloc, files),
        Reply::Collecting { snapshot } => count_line(alloc, b"collecting ", *snapshot),
        Reply::Step { phase } => step_line(alloc, phase),
        Reply::Collected { freed, copied } => collected_line(alloc, *freed, *copied),
        Reply::Stat { holdings } => stat_line(alloc, holdings),
        Reply::Unique { segments, bytes } => unique_line(alloc, *segments, *bytes),
        Reply::Opened { files } => count_line(alloc, b"opened ", *files),
        Reply::Refused { refusal } => refused_line(alloc, refusal),
    }
}

// A word and an actor.
fn actor_line(alloc: Global, word: &[u8], actor: Actor) -> Result<Vec<u8>, AllocError>
    ensures { IfOk result (λ line. line.items ≡ word.now ++ decimal actor ++ codes "\n") }
{
    let mut line = line_start(alloc, word, actor)?;
    line.extend_from_slice(b"\n")?;
    Ok(line)
}

// A word, an actor and a number.
fn number_line(alloc: Global, word: &[u8], actor: Actor, number: u64) -> Result<Vec<u8>, AllocError>
    ensures { IfOk result (λ line. line.items ≡ word.now ++ decimal actor ++ codes " " ++ decimal number ++ codes "\n") }
{
    let mut line = line_start(alloc, word, actor)?;
    line.extend_from_slice(b" ")?;
    add_number(&mut line, number)?;
    line.extend_from_slice(b"\n")?;
    Ok(line)
}

#[tactic(auto, unfolding(crate::specs::ReplyText::turned_line))]
fn turned_line(alloc: Global, actor: Actor, turned: &Turned) -> Result<Vec<u8>, AllocError>
    ensures { IfOk result (λ line. line.items ≡ turned_line actor turned.now) }
{
    let mut line = line_start(alloc, b"turn ", actor)?;
    match turned {
        Turned::Held => line.extend_from_slice(b" held\n")?,
        Turned::Absent => line.extend_from_slice(b" absent\n")?,
        Turned::Sealed { id } => {
            line.extend_from_slice(b" sealed ")?;
            add_number(&mut line, *id)?;
            line.extend_from_slice(b"\n")?;
        }
        Turned::Idle => line.extend_from_slice(b" idle\n")?,
    }
    Ok(line)
}

fn bytes_line(alloc: Global, actor: Actor, bytes: &[u8]) -> Result<Vec<u8>, AllocError>
    ensures { IfOk result (λ line.
        line.items ≡ codes "bytes " ++ decimal actor ++ codes " " ++ encode_lower bytes.now ++ codes "\n") }
{
    let digits = hex::encode(alloc, bytes)?;
    let mut line = line_start(alloc, b"bytes ", actor)?;
    line.extend_from_slice(b" ")?;
    line.extend_from_slice(digits.as_bytes())?;
    line.extend_from_slice(b"\n")?;
    Ok(line)
}

#[tactic(auto, unfolding(crate::specs::ReplyText::stat_line))]
fn stat_line(alloc: Global, holdings: &Holdings) -> Result<Vec<u8>, AllocError>
    ensures { IfOk result (λ line. line.items ≡ stat_line holdings.now) }
{
    let mut line = Vec::from_slice(alloc, b"stat files ")?;
    add_number(&mut line, holdings.files)?;
    line.extend_from_slice(b" segments ")?;
    add_number(&mut line, holdings.segments)?;
    line.extend_from_slice(b" bytes ")?;
    add_number(&mut line, holdings.bytes)?;
    line.extend_from_slice(b" used ")?;
    add_number(&mut line, holdings.used)?;
    line.extend_from_slice(b" free ")?;
    add_number(&mut line, holdings.free)?;
    line.extend_from_slice(b"\n")?;
    Ok(line)
}

fn step_line(alloc: Global, phase: &Phase) -> Result<Vec<u8>, AllocError>
    ensures { IfOk result (λ line. line.items ≡ codes "step " ++ phase_text phase.now ++ codes "\n") }
{
    let mut line = Vec::from_slice(alloc, b"step ")?;
    line.extend_from_slice(phase_word(phase))?;
    line.extend_from_slice(b"\n")?;
    Ok(line)
}

fn collected_line(alloc: Global, freed: u64, copied: u64) -> Result<Vec<u8>, AllocError>
    ensures { IfOk result (λ line.
        line.items ≡ codes "collected freed " ++ decimal freed ++ codes " copied " ++ decimal copied ++ codes "\n") }
{
    let mut line = Vec::from_slice(alloc, b"collected freed ")?;
    add_number(&mut line, freed)?;
    line.extend_from_slice(b" copied ")?;
    add_number(&mut line, copied)?;
    line.extend_from_slice(b"\n")?;
    Ok(line)
}

// A word and a number.
fn count_line(alloc: Global, word: &[u8], number: u64) -> Result<Vec<u8>, AllocError>
    ensures { IfOk result (λ line. line.items ≡ word.now ++ decimal number ++ codes "\n") }
{
    let mut line = Vec::from_slice(alloc, word)?;
    add_number(&mut line, number)?;
    line.extend_from_slice(b"\n")?;
    Ok(line)
}

// A word and an actor, as a line begins with them.
fn line_start(alloc: Global, word: &[u8], actor: Actor) -> Result<Vec<u8>, AllocError>
    ensures { IfOk result (λ line. line.items ≡ word.now ++ decimal actor) }
{
    let mut line = Vec::from_slice(alloc, word)?;
    add_number(&mut line, actor.number())?;
    Ok(line)
}

fn add_number(line: &mut Vec<u8>, number: u64) -> Result<(), AllocError>
    ensures { OnOk result (line.new.items ≡ line.old.items ++ decimal number) }
{
    let mut text = Buffer::new();
    line.extend_from_slice(text.format(number).as_bytes())
}
