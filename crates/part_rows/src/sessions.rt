//! Calls of `ingest_session`.
ghost use Rattle.std.specs.Prelude.{◌≡◌, ◌≢◌};
ghost use Rattle.ingest_session.specs.Due.{due_in};
ghost use Rattle.ingest_session.specs.Told.{IsSettled, IsAnswerFor};

use crate::nodes::add_top;
use actor_parts::Answer;
use container_meta::{Kind, OpenContainer, Seg};
use ingest_session::{Due, QUEUE, Session};
use merkle_file::Top;
use refusals::{PartKind, Refusal};
use std::alloc::Global;
use transcripts::{Fault, Text, bytes_of, number, words_of};

/// What steps are answered, and what is told of them.
#[derive(Drop)]
struct Steps {
    /// Whether what each claim offers is held; the last goes on.
    held: Vec<bool>,
    /// How many of these were taken, and the last of them.
    taken: usize,
    is_held: bool,
    /// A seal seals the first container alone.
    alone: bool,
    /// The sort of the last step of this call.
    sort: &'static str,
}

/// `ANSWER .. : CALL ; ..`: calls of one session. Its claims are answered `absent` or `held`, as these words say in turn,
/// the last of them on and on. Its seals are answered as sealed: all that are offered, or the first where there is the word `one`.
pub(crate) fn session(alloc: Global, row: &str) -> Result<String, Fault> {
    let (words, chain) = row.split_once(" : ").ok_or(Fault::Line)?;
    let mut session = Session::new(alloc, QUEUE)?;
    calls(alloc, &mut session, words, chain)
}

fn calls(alloc: Global, session: &mut Session, words: &str, chain: &str) -> Result<String, Fault> {
    let mut steps = steps_of(alloc, words)?;
    let mut text = Text::new(alloc);
    for item in chain.split(" ; ") {
        text.part_by(" ; ");
        call(alloc, session, &mut steps, item, &mut text)?;
    }
    Ok(text.whole()?)
}

fn steps_of(alloc: Global, words: &str) -> Result<Steps, Fault> {
    let words = words_of(alloc, words)?;
    Ok(Steps {
        held: held_of(alloc, &words)?,
        taken: 0,
        is_held: false,
        alone: words.iter().any(|word| *word == "one"),
        sort: "",
    })
}

fn held_of(alloc: Global, words: &[&str]) -> Result<Vec<bool>, Fault> {
    let mut held = Vec::new(alloc);
    for word in words {
        held.push(match *word {
            "absent" => false,
            "held" => true,
            "one" => continue,
            _ => return Err(Fault::Line),
        })?;
    }
    Ok(held)
}

/// `push SIZE BYTES` in pieces of this size, up to one of which fewer are taken than given; `feed SIZE BYTES` with the steps
/// that are due after each piece; `steps`, `finish`, `queued` and `ready`.
fn call(
    alloc: Global,
    session: &mut Session,
    steps: &mut Steps,
    item: &str,
    text: &mut Text,
) -> Result<(), Fault> {
    match words_of(alloc, item)?.as_slice() {
        ["push", size, bytes @ ..] => {
            push(session, number(size)?, &bytes_of(alloc, bytes)?, text);
        }
        ["feed", size, bytes @ ..] => {
            let bytes = bytes_of(alloc, bytes)?;
            steps.sort = "";
            feed(session, steps, number(size)?, &bytes, text)?;
            steps.end(text);
        }
        ["steps"] => {
            steps.sort = "";
            make_steps(session, steps, text)?;
            steps.end(text);
        }
        ["finish"] => match session.finish() {
            Ok(()) => text.add("finished"),
            Err(refusal) => text.add(refusal_text(refusal)),
        },
        ["queued"] => text.add_number(session.queued() as u64),
        ["ready"] => add_ready(text, session),
        _ => return Err(Fault::Line),
    }
    Ok(())
}

fn refusal_text(refusal: Refusal) -> &'static str {
    match refusal {
        Refusal::Memory => "1",
        Refusal::TooLong => "5",
        Refusal::WrongPart {
            part: PartKind::Finished,
        } => "8 finished",
        _ => "another refusal",
    }
}

fn add_ready(text: &mut Text, session: &Session) {
    match session.ready() {
        Some(root) => {
            let digest = root.digest;
            let top = Top {
                length: root.length,
                level: root.level,
                digest,
            };
            add_top(text, &top);
        }
        None => text.add("not ready"),
    }
}

/// The first bytes, so many or all.
fn piece_of(bytes: &[u8], size: u64) -> &[u8] {
    bytes.get(..size as usize).unwrap_or(bytes)
}

fn push(session: &mut Session, size: u64, bytes: &[u8], text: &mut Text) {
    let mut rest = bytes;
    for _ in 0..bytes.len() {
        let piece = piece_of(rest, size);
        match session.push(piece) {
            Ok(count) => {
                rest = rest.get(count..).unwrap_or(&[]);
                if rest.is_empty() || count < piece.len() {
                    break;
                }
            }
            Err(refusal) => return text.add(refusal_text(refusal)),
        }
    }
    text.add_number(bytes.len().saturating_sub(rest.len()) as u64);
    text.add(" taken");
}

fn feed(
    session: &mut Session,
    steps: &mut Steps,
    size: u64,
    bytes: &[u8],
    text: &mut Text,
) -> Result<(), Fault> {
    let mut rest = bytes;
    for _ in 0..bytes.len() {
        let Ok(count) = session.push(piece_of(rest, size)) else {
            return Err(Fault::Line);
        };
        make_steps(session, steps, text)?;
        rest = rest.get(count..).unwrap_or(&[]);
        if rest.is_empty() {
            break;
        }
    }
    Ok(())
}

/// Makes the steps that are due.
fn make_steps(session: &mut Session, steps: &mut Steps, text: &mut Text) -> Result<(), Fault> {
    for _ in 0..10_000 {
        if !make_step(session, steps, text)? {
            break;
        }
    }
    Ok(())
}

/// Makes the step that is due, and says whether one was.
fn make_step(session: &mut Session, steps: &mut Steps, text: &mut Text) -> Result<bool, Fault> {
    let due = session.due()?;
    if let Due::Nothing = due {
        return Ok(false);
    }
    let answer = steps.answer(session, due, text);
    session.told(&answer);
    Ok(true)
}

impl Steps {
    /// Tells a step, and answers it.
    fn answer(&mut self, session: &Session, due: Due, text: &mut Text) -> Answer
        requires settled { IsSettled session.now }
        requires due { due ≡ due_in session.now }
        requires some { due ≢ Due.Nothing }
        ensures { IsAnswerFor result session.now }
    {
        match due {
            Due::Claim => {
                self.add_claim(session.offered(), text);
                if self.next_is_held() {
                    Answer::Held
                } else {
                    Answer::Absent
                }
            }
            Due::Seal(kind) => {
                let filled = session.filled(kind);
                self.add_seal(kind, filled, text);
                Answer::Sealed {
                    id: 1,
                    count: if self.alone { 1 } else { filled.len() },
                }
            }
            Due::Nothing => unreachable!(),
        }
    }

    /// Whether the next claim is answered as held.
    fn next_is_held(&mut self) -> bool {
        if let Some(is_held) = self.held.get(self.taken) {
            self.is_held = *is_held;
            self.taken = self.taken.saturating_add(1);
        }
        self.is_held
    }

    /// A claim of data has its length, and one of a node its level.
    fn add_claim(&mut self, seg: &Seg, text: &mut Text) {
        match seg.kind() {
            Kind::Leaf => self.add("claim data", seg.bytes().len() as u64, text),
            Kind::Tree => self.add("claim node", u64::from(seg.level()), text),
        }
    }

    /// A seal has how many segments each container has.
    fn add_seal(&mut self, kind: Kind, filled: &[OpenContainer], text: &mut Text) {
        self.begin(
            match kind {
                Kind::Leaf => "seal data",
                Kind::Tree => "seal tree",
            },
            text,
        );
        let mut mark = " ";
        for container in filled {
            text.add(mark);
            text.add_number(container.len() as u64);
            mark = "+";
        }
    }

    /// Tells a step; of one of the same sort as the last the number alone.
    fn add(&mut self, sort: &'static str, count: u64, text: &mut Text) {
        self.begin(sort, text);
        text.add(" ");
        text.add_number(count);
    }

    /// Tells the sort of a step, where that of the last was another.
    fn begin(&mut self, sort: &'static str, text: &mut Text) {
        if self.sort != sort {
            text.add(if self.sort.is_empty() { "" } else { ", " });
            text.add(sort);
            self.sort = sort;
        }
    }

    fn end(&self, text: &mut Text) {
        if self.sort.is_empty() {
            text.add("no step");
        }
    }
}
