//! Steps, as rows spell them.
use crate::filled::Filled;
use crate::named::{Named, find, segment};
use crate::pieces::piece_of;
use crate::running::Running;
use crate::words::actor_of;
use actor_parts::{Actor, Percent, Step};
use dd_disk::Disk;
use std::alloc::Global;
use std::slice::from_ref;
use store_core::Core;
use summary_vector::NoSummary;
use transcripts::{Fault, words_of};

/// Makes a step, and gives the text of its answer.
pub(crate) fn answer<D: Disk>(
    alloc: Global,
    core: &mut Running<Core<D, NoSummary>>,
    names: &[Named],
    text: &str,
) -> Result<String, Fault> {
    let words = words_of(alloc, text)?;
    match words.as_slice() {
        [word] => plain(alloc, core, word, actor_of("0")?),
        ["gc", percent] => collect(alloc, core, percent),
        ["delete", file] => delete(alloc, core, names, file),
        [word, actor] => plain(alloc, core, word, actor_of(actor)?),
        [word, actor, rest @ ..] => with_words(alloc, core, names, word, actor_of(actor)?, rest),
        _ => Err(Fault::Line),
    }
}

// A step of which its word says all.
fn plain<D: Disk>(
    alloc: Global,
    core: &mut Running<Core<D, NoSummary>>,
    word: &str,
    actor: Actor,
) -> Result<String, Fault> {
    let step = match word {
        "begin" => Step::Begin,
        "abort" => Step::Abort,
        "next" => Step::ReadNext,
        "drop" => Step::EndRead,
        "stat" => Step::Stat,
        "unique" => Step::Unique,
        "list" => Step::List,
        "step" => Step::GcStep,
        "kind" => return Ok(core.kind(alloc, actor)?),
        _ => return Err(Fault::Line),
    };
    Ok(core.make(alloc, actor, step)?)
}

// Which actor begins a collection, or makes its steps, doesn't matter, and the row names none.
fn collect<D: Disk>(
    alloc: Global,
    core: &mut Running<Core<D, NoSummary>>,
    percent: &str,
) -> Result<String, Fault> {
    let percent = percent
        .parse::<u64>()
        .ok()
        .and_then(Percent::new)
        .ok_or(Fault::Line)?;
    Ok(core.make(alloc, actor_of("0")?, Step::GcStart { percent: &percent })?)
}

// Which actor deletes doesn't matter, and the row names none.
fn delete<D: Disk>(
    alloc: Global,
    core: &mut Running<Core<D, NoSummary>>,
    names: &[Named],
    file: &str,
) -> Result<String, Fault> {
    let file = piece_of(alloc, names, file)?;
    Ok(core.make(alloc, actor_of("0")?, Step::Delete { name: &file })?)
}

fn with_words<D: Disk>(
    alloc: Global,
    core: &mut Running<Core<D, NoSummary>>,
    names: &[Named],
    word: &str,
    actor: Actor,
    rest: &[&str],
) -> Result<String, Fault> {
    match (word, rest) {
        ("claim", [name]) => {
            let seg = segment(alloc, names, name)?;
            Ok(core.make(alloc, actor, Step::Claim { seg: &seg })?)
        }
        ("seal", parts) => seal(alloc, core, names, actor, parts),
        ("commit", [file, name]) => {
            let file = piece_of(alloc, names, file)?;
            let root = &find(names, name)?.root;
            Ok(core.make(alloc, actor, Step::Commit { name: &file, root })?)
        }
        ("read", [file]) => {
            let file = piece_of(alloc, names, file)?;
            Ok(core.make(alloc, actor, Step::OpenRead { name: &file })?)
        }
        _ => Err(Fault::Line),
    }
}

fn seal<D: Disk>(
    alloc: Global,
    core: &mut Running<Core<D, NoSummary>>,
    names: &[Named],
    actor: Actor,
    parts: &[&str],
) -> Result<String, Fault> {
    let filled = filled_of(alloc, names, parts)?;
    let container = filled.container();
    if container.is_empty() {
        return Err(Fault::Line);
    }
    Ok(core.make(
        alloc,
        actor,
        Step::Seal {
            filled: from_ref(container),
        },
    )?)
}

// A container of the segments of some names, of the first one's kind.
fn filled_of(alloc: Global, names: &[Named], parts: &[&str]) -> Result<Filled, Fault> {
    let [first, ..] = parts else {
        return Err(Fault::Line);
    };
    let mut filled = Filled::new(alloc, segment(alloc, names, first)?.kind())?;
    for part in parts {
        filled.add(&segment(alloc, names, part)?)?;
    }
    Ok(filled)
}
