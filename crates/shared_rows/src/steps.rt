//! Steps, as rows spell them.
ghost use Rattle.std.specs.Prelude.{◌≡◌, ◌<◌, IfOk, length};
ghost use Rattle.container_meta.specs.declared.kind.Kind;
ghost use Rattle.actor_parts.specs.Segments.{AreStepSegments};
ghost use Rattle.actor_parts.specs.StepValue.{IsStep, step_value};

use crate::answers::answer_text;
use crate::shared::Shared;
use actor_parts::{Percent, SegBuf, Step};
use container_meta::{Fit, Kind, OpenContainer, Seg, digest_of};
use namespace::Root;
use std::alloc::Global;
use std::slice::from_ref;
use std::sync::Wait;
use transcripts::{Fault, bytes_of, number};

/// The root of a file of one segment.
pub(crate) fn root_of(bytes: &[u8]) -> Root {
    Root {
        length: bytes.len() as u64,
        level: 0,
        digest: digest_of(bytes),
    }
}

/// A container of one segment of data.
pub(crate) fn filled_by(alloc: Global, seg: &Seg) -> Result<OpenContainer, Fault>
    requires { seg.now.kind ≡ Kind.Leaf }
    ensures right { IfOk result (λ c. AreStepSegments c.kind c.segments) }
    ensures some { IfOk result (λ c. 0 < length c.segments) }
{
    let length = seg.bytes().len();
    if seg.level() != 0 || !(1..=16_384).contains(&length) {
        return Err(Fault::Line);
    }
    let mut container = OpenContainer::new(alloc, Kind::Leaf)?;
    match container.try_add(seg) {
        Fit::Added => Ok(container),
        Fit::NoRoom => Err(Fault::Line),
    }
}

/// Makes a step of these words, and gives the text of its answer.
pub(crate) fn answer<R: Wait>(
    rt: &R,
    alloc: Global,
    shared: &mut Shared,
    words: &[&str],
) -> Result<String, Fault> {
    match words {
        ["claim", name, piece] => {
            let seg = Seg::leaf(alloc, &bytes_of(alloc, &[*piece])?)?;
            make(rt, alloc, shared, name, Step::Claim { seg: &seg })
        }
        ["seal", name, piece] => {
            let seg = Seg::leaf(alloc, &bytes_of(alloc, &[*piece])?)?;
            let container = filled_by(alloc, &seg)?;
            let filled = from_ref(&container);
            make(rt, alloc, shared, name, Step::Seal { filled })
        }
        ["commit", name, file, piece] => {
            let file = bytes_of(alloc, &[*file])?;
            let root = root_of(&bytes_of(alloc, &[*piece])?);
            let step = Step::Commit {
                name: &file,
                root: &root,
            };
            make(rt, alloc, shared, name, step)
        }
        ["read", name, file] => {
            let file = bytes_of(alloc, &[*file])?;
            make(rt, alloc, shared, name, Step::OpenRead { name: &file })
        }
        ["delete", name, file] => {
            let file = bytes_of(alloc, &[*file])?;
            make(rt, alloc, shared, name, Step::Delete { name: &file })
        }
        ["gc", name, percent] => {
            let percent = Percent::new(number(percent)?).ok_or(Fault::Line)?;
            make(rt, alloc, shared, name, Step::GcStart { percent: &percent })
        }
        [word, name] => make(rt, alloc, shared, name, plain(word)?),
        _ => Err(Fault::Line),
    }
}

// A step of which its word says all.
fn plain(word: &str) -> Result<Step<'static>, Fault>
    ensures { IfOk result (λ step. IsStep (step_value step)) }
{
    match word {
        "begin" => Ok(Step::Begin),
        "abort" => Ok(Step::Abort),
        "next" => Ok(Step::ReadNext),
        "drop" => Ok(Step::EndRead),
        "list" => Ok(Step::List),
        "step" => Ok(Step::GcStep),
        "stat" => Ok(Step::Stat),
        "unique" => Ok(Step::Unique),
        _ => Err(Fault::Line),
    }
}

// Makes a step by a pass, and gives the text of its answer.
fn make<R: Wait>(
    rt: &R,
    alloc: Global,
    shared: &mut Shared,
    name: &str,
    step: Step<'_>,
) -> Result<String, Fault>
    requires { IsStep (step_value step) }
{
    let mut buf = SegBuf::new(alloc)?;
    let answer = shared.call(rt, name, step, &mut buf)?;
    Ok(answer_text(alloc, &answer, buf.bytes())?)
}
