//! The line in the notes of a command that was not done: docs/FORMAT.md, 'Texts'.
ghost use Rattle.std.specs.Prelude.{◌≡◌, ◌≤◌, length, drop, IfOk};
ghost use Rattle.std.specs.List.{flat_map};
ghost use Rattle.dd_io.specs.Flow.{Sends};
ghost use Rattle.refusals.specs.declared.refusal.Difference.TheVariants.{Length, Byte};
ghost use Rattle.disk_format.specs.declared.why.Why.TheVariants.{Digest, Field};
ghost use Rattle.reply_text.specs.declared.ending.Ending.TheVariants.{Line, Refused};
ghost use Rattle.refusals.specs.declared.refusal.Refusal.TheVariants.{Full, Clash, WrongPart, Collecting, Stopped, Corrupt, Missing};
ghost use Rattle.refusals.specs.declared.refusal.Refusal.TheVariants.{NotAStore, Version, Damaged, NotEmpty, Unpinned, WrongSize};
ghost use Rattle.reply_text.specs.Text.{fault_line, refused_line, part_text, phase_text};

use crate::digits::put_digits;
use crate::ending::Ending;
use dd_io::{MemSink, Sink, SinkFault};
use disk_format::Why;
use itoa::Buffer;
use refusals::{Difference, PartKind, Phase, Refusal};
use std::alloc::{AllocError, Global};

/// Writes some pieces, one after another.
pub(crate) fn write_pieces<Q: Sink>(notes: &mut Q, pieces: &[&[u8]]) -> Result<(), SinkFault>
    ensures { Sends (flat_map (λ piece. piece.now) pieces.now) result (Q.view notes.old) (Q.view notes.new) }
{
    for piece in pieces {
        notes.write_all(piece)?;
    }
    Ok(())
}

/// Writes the line of a command that was not done. It takes no memory.
#[tactic(auto, unfolding(crate::specs::Text::fault_line, crate::specs::Text::ending_text))]
pub fn write_fault<Q: Sink>(notes: &mut Q, ending: &Ending) -> Result<(), SinkFault>
    ensures { Sends (fault_line ending.now) result (Q.view notes.old) (Q.view notes.new) }
{
    match ending {
        Ending::Words => write_pieces(notes, &[b"fault words\n"]),
        Ending::Source => write_pieces(notes, &[b"fault source\n"]),
        Ending::Sink => write_pieces(notes, &[b"fault sink\n"]),
        Ending::Line { number } => write_wrong_line(notes, *number),
        Ending::Script => write_pieces(notes, &[b"fault script\n"]),
        Ending::Refused(refusal) => write_refusal(notes, refusal),
    }
}

#[tactic(auto, unfolding(crate::specs::Text::fault_line, crate::specs::Text::ending_text))]
fn write_wrong_line<Q: Sink>(notes: &mut Q, number: u64) -> Result<(), SinkFault>
    ensures { Sends (fault_line (Line number)) result (Q.view notes.old) (Q.view notes.new) }
{
    let mut number_text = Buffer::new();
    write_pieces(
        notes,
        &[b"fault line ", number_text.format(number).as_bytes(), b"\n"],
    )
}

/// The reply to a line of a script that was refused: the line that the notes have of that refusal, with another first word.
/// It fails for want of memory alone.
pub fn refused_line(alloc: Global, refusal: &Refusal) -> Result<Vec<u8>, AllocError>
    ensures { IfOk result (λ line. line.items ≡ refused_line refusal.now) }
{
    let mut note = MemSink::new(alloc, Vec::new(alloc));
    if write_refusal(&mut note, refusal).is_err() {
        return Err(AllocError);
    }
    let mut line = Vec::from_slice(alloc, b"refused ")?;
    line.extend_from_slice(after_first_word(note.bytes()))?;
    Ok(line)
}

// The line of the notes without `fault` and the space.
fn after_first_word(note: &[u8]) -> &[u8]
    requires { 6 ≤ length note.now }
    ensures { result.now ≡ drop 6 note.now }
{
    &note[6..]
}

#[tactic(auto, unfolding(crate::specs::Text::fault_line, crate::specs::Text::ending_text, crate::specs::Text::refusal_text))]
fn write_refusal<Q: Sink>(notes: &mut Q, refusal: &Refusal) -> Result<(), SinkFault>
    ensures { Sends (fault_line (Refused refusal.now)) result (Q.view notes.old) (Q.view notes.new) }
{
    match refusal {
        Refusal::Memory => write_pieces(notes, &[b"fault 1 memory\n"]),
        Refusal::NoFile => write_pieces(notes, &[b"fault 2 nofile\n"]),
        Refusal::BadName => write_pieces(notes, &[b"fault 3 badname\n"]),
        Refusal::TooMany => write_pieces(notes, &[b"fault 4 toomany\n"]),
        Refusal::TooLong => write_pieces(notes, &[b"fault 5 toolong\n"]),
        Refusal::Full { free } => write_full(notes, *free),
        Refusal::Clash { key, at } => write_clash(notes, key, at),
        Refusal::WrongPart { part } => write_wrong_part(notes, part),
        Refusal::Collecting { phase } => write_collecting(notes, phase),
        Refusal::NotCollecting => write_pieces(notes, &[b"fault 9 notcollecting\n"]),
        Refusal::DiskRead => write_pieces(notes, &[b"fault 10 diskread\n"]),
        Refusal::DiskWrite => write_pieces(notes, &[b"fault 11 diskwrite\n"]),
        Refusal::Stopped { at } => write_stopped(notes, *at),
        Refusal::Corrupt {
            slot,
            offset,
            length,
            want,
            got,
        } => write_corrupt(notes, *slot, *offset, *length, want, got),
        Refusal::Missing { key } => write_missing(notes, key),
        Refusal::Numbers => write_pieces(notes, &[b"fault 15 numbers\n"]),
        Refusal::NotAStore { gate, magic } => write_not_a_store(notes, *gate, magic),
        Refusal::Version { n } => write_version(notes, *n),
        Refusal::Damaged { at, why } => write_damaged(notes, *at, why),
        Refusal::Unpinned { key } => write_unpinned(notes, key),
        Refusal::AlreadyStore => write_pieces(notes, &[b"fault 20 alreadystore\n"]),
        Refusal::WrongSize { want, got } => write_wrong_size(notes, *want, *got),
        Refusal::NoActor => write_pieces(notes, &[b"fault 22 noactor\n"]),
        Refusal::NotEmpty { files } => write_not_empty(notes, *files),
    }
}

#[tactic(auto, unfolding(crate::specs::Text::fault_line, crate::specs::Text::ending_text, crate::specs::Text::refusal_text))]
fn write_full<Q: Sink>(notes: &mut Q, free: u32) -> Result<(), SinkFault>
    ensures { Sends (fault_line (Refused (Full free))) result (Q.view notes.old) (Q.view notes.new) }
{
    let mut free_text = Buffer::new();
    write_pieces(
        notes,
        &[b"fault 6 full ", free_text.format(free).as_bytes(), b"\n"],
    )
}

#[tactic(auto, unfolding(crate::specs::Text::fault_line, crate::specs::Text::ending_text, crate::specs::Text::refusal_text))]
fn write_clash<Q: Sink>(notes: &mut Q, key: &[u8; 33], at: &Difference) -> Result<(), SinkFault>
    ensures { Sends (fault_line (Refused (Clash key.now at.now))) result (Q.view notes.old) (Q.view notes.new) }
{
    match at {
        Difference::Length { offered, held } => write_clash_length(notes, key, *offered, *held),
        Difference::Byte {
            place,
            offered,
            held,
        } => write_clash_byte(notes, key, *place, *offered, *held),
    }
}

#[tactic(auto, unfolding(crate::specs::Text::fault_line, crate::specs::Text::ending_text, crate::specs::Text::refusal_text))]
fn write_clash_length<Q: Sink>(
    notes: &mut Q,
    key: &[u8; 33],
    offered: u64,
    held: u64,
) -> Result<(), SinkFault>
    ensures { Sends (fault_line (Refused (Clash key.now (Length offered held)))) result (Q.view notes.old) (Q.view notes.new) }
{
    let mut key_digits = [0u8; 66];
    put_digits(key, &mut key_digits);
    let (mut offered_text, mut held_text) = (Buffer::new(), Buffer::new());
    write_pieces(
        notes,
        &[
            b"fault 7 clash ",
            &key_digits,
            b" length ",
            offered_text.format(offered).as_bytes(),
            b" ",
            held_text.format(held).as_bytes(),
            b"\n",
        ],
    )
}

#[tactic(auto, unfolding(crate::specs::Text::fault_line, crate::specs::Text::ending_text, crate::specs::Text::refusal_text))]
fn write_clash_byte<Q: Sink>(
    notes: &mut Q,
    key: &[u8; 33],
    place: u64,
    offered: u8,
    held: u8,
) -> Result<(), SinkFault>
    ensures { Sends (fault_line (Refused (Clash key.now (Byte place offered held)))) result (Q.view notes.old) (Q.view notes.new) }
{
    let mut place_text = Buffer::new();
    let mut key_digits = [0u8; 66];
    let (mut offered_digits, mut held_digits) = ([0u8; 2], [0u8; 2]);
    put_digits(key, &mut key_digits);
    put_digits(&[offered], &mut offered_digits);
    put_digits(&[held], &mut held_digits);
    write_pieces(
        notes,
        &[
            b"fault 7 clash ",
            &key_digits,
            b" byte ",
            place_text.format(place).as_bytes(),
            b" ",
            &offered_digits,
            b" ",
            &held_digits,
            b"\n",
        ],
    )
}

// The word of what an actor is at.
#[tactic(auto, unfolding(crate::specs::Text::part_text))]
fn word_of(part: &PartKind) -> &'static [u8]
    ensures { result.now ≡ part_text part.now }
{
    match part {
        PartKind::Idle => b"idle",
        PartKind::Writing => b"writing",
        PartKind::Finished => b"finished",
        PartKind::Reading => b"reading",
    }
}

#[tactic(auto, unfolding(crate::specs::Text::fault_line, crate::specs::Text::ending_text, crate::specs::Text::refusal_text))]
fn write_wrong_part<Q: Sink>(notes: &mut Q, part: &PartKind) -> Result<(), SinkFault>
    ensures { Sends (fault_line (Refused (WrongPart part.now))) result (Q.view notes.old) (Q.view notes.new) }
{
    write_pieces(notes, &[b"fault 8 wrongpart ", word_of(part), b"\n"])
}

/// The word of what the next step of a collection does.
#[tactic(auto, unfolding(crate::specs::Text::phase_text))]
pub fn phase_word(phase: &Phase) -> &'static [u8]
    ensures { result.now ≡ phase_text phase.now }
{
    match phase {
        Phase::Mark => b"mark",
        Phase::Filter => b"filter",
        Phase::Select => b"select",
        Phase::Copy => b"copy",
        Phase::Flush => b"flush",
        Phase::Release => b"release",
        Phase::End => b"end",
    }
}

#[tactic(auto, unfolding(crate::specs::Text::fault_line, crate::specs::Text::ending_text, crate::specs::Text::refusal_text))]
fn write_collecting<Q: Sink>(notes: &mut Q, phase: &Phase) -> Result<(), SinkFault>
    ensures { Sends (fault_line (Refused (Collecting phase.now))) result (Q.view notes.old) (Q.view notes.new) }
{
    write_pieces(notes, &[b"fault 9 collecting ", phase_word(phase), b"\n"])
}

#[tactic(auto, unfolding(crate::specs::Text::fault_line, crate::specs::Text::ending_text, crate::specs::Text::refusal_text))]
fn write_stopped<Q: Sink>(notes: &mut Q, at: u64) -> Result<(), SinkFault>
    ensures { Sends (fault_line (Refused (Stopped at))) result (Q.view notes.old) (Q.view notes.new) }
{
    let mut at_text = Buffer::new();
    write_pieces(
        notes,
        &[b"fault 12 stopped ", at_text.format(at).as_bytes(), b"\n"],
    )
}

#[tactic(auto, unfolding(crate::specs::Text::fault_line, crate::specs::Text::ending_text, crate::specs::Text::refusal_text))]
fn write_not_empty<Q: Sink>(notes: &mut Q, files: u64) -> Result<(), SinkFault>
    ensures { Sends (fault_line (Refused (NotEmpty files))) result (Q.view notes.old) (Q.view notes.new) }
{
    let mut files_text = Buffer::new();
    write_pieces(
        notes,
        &[
            b"fault 23 notempty ",
            files_text.format(files).as_bytes(),
            b"\n",
        ],
    )
}

#[tactic(auto, unfolding(crate::specs::Text::fault_line, crate::specs::Text::ending_text, crate::specs::Text::refusal_text))]
fn write_corrupt<Q: Sink>(
    notes: &mut Q,
    slot: u32,
    offset: u32,
    length: u32,
    want: &[u8; 32],
    got: &[u8; 32],
) -> Result<(), SinkFault>
    ensures { Sends (fault_line (Refused (Corrupt slot offset length want.now got.now))) result (Q.view notes.old) (Q.view notes.new) }
{
    let (mut slot_text, mut offset_text, mut length_text) = (
        Buffer::new(),
        Buffer::new(),
        Buffer::new(),
    );
    let (mut want_digits, mut got_digits) = ([0u8; 64], [0u8; 64]);
    put_digits(want, &mut want_digits);
    put_digits(got, &mut got_digits);
    write_pieces(
        notes,
        &[
            b"fault 13 corrupt ",
            slot_text.format(slot).as_bytes(),
            b" ",
            offset_text.format(offset).as_bytes(),
            b" ",
            length_text.format(length).as_bytes(),
            b" ",
            &want_digits,
            b" ",
            &got_digits,
            b"\n",
        ],
    )
}

#[tactic(auto, unfolding(crate::specs::Text::fault_line, crate::specs::Text::ending_text, crate::specs::Text::refusal_text))]
fn write_missing<Q: Sink>(notes: &mut Q, key: &[u8; 33]) -> Result<(), SinkFault>
    ensures { Sends (fault_line (Refused (Missing key.now))) result (Q.view notes.old) (Q.view notes.new) }
{
    let mut key_digits = [0u8; 66];
    put_digits(key, &mut key_digits);
    write_pieces(notes, &[b"fault 14 missing ", &key_digits, b"\n"])
}

#[tactic(auto, unfolding(crate::specs::Text::fault_line, crate::specs::Text::ending_text, crate::specs::Text::refusal_text))]
fn write_not_a_store<Q: Sink>(notes: &mut Q, gate: u8, magic: &[u8; 7]) -> Result<(), SinkFault>
    ensures { Sends (fault_line (Refused (NotAStore gate magic.now))) result (Q.view notes.old) (Q.view notes.new) }
{
    let (mut gate_digits, mut magic_digits) = ([0u8; 2], [0u8; 14]);
    put_digits(&[gate], &mut gate_digits);
    put_digits(magic, &mut magic_digits);
    write_pieces(
        notes,
        &[
            b"fault 16 notastore ",
            &gate_digits,
            b" ",
            &magic_digits,
            b"\n",
        ],
    )
}

#[tactic(auto, unfolding(crate::specs::Text::fault_line, crate::specs::Text::ending_text, crate::specs::Text::refusal_text))]
fn write_version<Q: Sink>(notes: &mut Q, n: u32) -> Result<(), SinkFault>
    ensures { Sends (fault_line (Refused (Version n))) result (Q.view notes.old) (Q.view notes.new) }
{
    let mut number = Buffer::new();
    write_pieces(
        notes,
        &[b"fault 17 version ", number.format(n).as_bytes(), b"\n"],
    )
}

#[tactic(auto, unfolding(crate::specs::Text::fault_line, crate::specs::Text::ending_text, crate::specs::Text::refusal_text))]
fn write_damaged<Q: Sink>(notes: &mut Q, at: u64, why: &Why) -> Result<(), SinkFault>
    ensures { Sends (fault_line (Refused (Damaged at why.now))) result (Q.view notes.old) (Q.view notes.new) }
{
    match why {
        Why::Digest { want, got } => write_damaged_digest(notes, at, want, got),
        Why::Field { offset, got } => write_damaged_field(notes, at, *offset, *got),
    }
}

#[tactic(auto, unfolding(crate::specs::Text::fault_line, crate::specs::Text::ending_text, crate::specs::Text::refusal_text))]
fn write_damaged_digest<Q: Sink>(
    notes: &mut Q,
    at: u64,
    want: &[u8; 32],
    got: &[u8; 32],
) -> Result<(), SinkFault>
    ensures { Sends (fault_line (Refused (Damaged at (Digest want.now got.now)))) result (Q.view notes.old) (Q.view notes.new) }
{
    let mut at_text = Buffer::new();
    let (mut want_digits, mut got_digits) = ([0u8; 64], [0u8; 64]);
    put_digits(want, &mut want_digits);
    put_digits(got, &mut got_digits);
    write_pieces(
        notes,
        &[
            b"fault 18 damaged ",
            at_text.format(at).as_bytes(),
            b" digest ",
            &want_digits,
            b" ",
            &got_digits,
            b"\n",
        ],
    )
}

#[tactic(auto, unfolding(crate::specs::Text::fault_line, crate::specs::Text::ending_text, crate::specs::Text::refusal_text))]
fn write_damaged_field<Q: Sink>(
    notes: &mut Q,
    at: u64,
    offset: u32,
    got: u64,
) -> Result<(), SinkFault>
    ensures { Sends (fault_line (Refused (Damaged at (Field offset got)))) result (Q.view notes.old) (Q.view notes.new) }
{
    let (mut at_text, mut offset_text, mut got_text) = (
        Buffer::new(),
        Buffer::new(),
        Buffer::new(),
    );
    write_pieces(
        notes,
        &[
            b"fault 18 damaged ",
            at_text.format(at).as_bytes(),
            b" field ",
            offset_text.format(offset).as_bytes(),
            b" ",
            got_text.format(got).as_bytes(),
            b"\n",
        ],
    )
}

#[tactic(auto, unfolding(crate::specs::Text::fault_line, crate::specs::Text::ending_text, crate::specs::Text::refusal_text))]
fn write_unpinned<Q: Sink>(notes: &mut Q, key: &[u8; 33]) -> Result<(), SinkFault>
    ensures { Sends (fault_line (Refused (Unpinned key.now))) result (Q.view notes.old) (Q.view notes.new) }
{
    let mut key_digits = [0u8; 66];
    put_digits(key, &mut key_digits);
    write_pieces(notes, &[b"fault 19 unpinned ", &key_digits, b"\n"])
}

#[tactic(auto, unfolding(crate::specs::Text::fault_line, crate::specs::Text::ending_text, crate::specs::Text::refusal_text))]
fn write_wrong_size<Q: Sink>(notes: &mut Q, want: u64, got: u64) -> Result<(), SinkFault>
    ensures { Sends (fault_line (Refused (WrongSize want got))) result (Q.view notes.old) (Q.view notes.new) }
{
    let (mut want_text, mut got_text) = (Buffer::new(), Buffer::new());
    write_pieces(
        notes,
        &[
            b"fault 21 wrongsize ",
            want_text.format(want).as_bytes(),
            b" ",
            got_text.format(got).as_bytes(),
            b"\n",
        ],
    )
}
