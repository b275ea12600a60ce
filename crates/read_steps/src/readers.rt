//! The steps of an actor that takes a file.
ghost use Rattle.std.specs.Prelude.{◌≡◌, ◌↔◌, ℕ, List, Option, [], None, Ok, IfOk, IfErr, OnErr};
ghost use Rattle.dd_disk.specs.Ending.{ending, Reads};
ghost use Rattle.disk_format.specs.declared.why.Why.{Why as Reason};
ghost use Rattle.disk_format.specs.Cells.{Root as FileRoot};
ghost use Rattle.container_meta.specs.Spelling.{HeaderValue};
ghost use Rattle.merkle_file.specs.declared.top.Top.{Top};
ghost use Rattle.actor_parts.specs.Parts.{part_of};
ghost use Rattle.store_model.specs.Collisions.{ByteSet};
ghost use Rattle.store_model.specs.Files.{Files};
ghost use Rattle.store_model.specs.Image.{Store, names_of};
ghost use Rattle.store_model.specs.Standing.{IsStoreOf};
ghost use Rattle.store_state.specs.Refused.{blames};
ghost use Rattle.read_steps.specs.Walking.{IsIndexed, SegmentsAhead};
ghost use Rattle.read_steps.specs.Readers.{Opens, OpensFile, IsOpenRefusal, GivesNext, GivesHeld, GoesOn, IsReadRefusal, GivesUp, IsEndRefusal, reading};

use crate::opening::begin_walk;
use crate::walking::next_segment;
use actor_parts::{Actor, Part, Parts, Reader, SegBuf};
use dd_disk::Disk;
use digests::TakesDigests;
use namespace::Names;
use refusals::{PartKind, Refusal};
use segment_index::Index;
use std::alloc::Global;

/// An idle actor takes the file of a name, from its first byte on. Its length is answered.
///
/// Refusals, in the order in which they come: `WrongPart` where the actor isn't idle; `BadName`; `NoFile`; `Memory`. They
/// leave all parts as they were.
pub fn open_read(
    alloc: Global,
    names: &Names,
    parts: &mut Parts,
    actor: Actor,
    name: &[u8],
) -> Result<u64, Refusal>
    ensures opens { IfOk result (Opens names.now name.now actor parts.old parts.new) }
    ensures refused { IfErr result (IsOpenRefusal names.now name.now (part_of parts.old actor)) }
    ensures err { OnErr result (parts.new ≡ parts.old) }
    // Where a store stands for files.
    ensures file { IfOk result (λ count. (store : Store) (files : Files) (image : List ℕ) → names.now ≡ names_of store
        → IsStoreOf store files image → OpensFile store files image name.now actor parts.old parts.new) }
{
    match parts.part(actor) {
        Part::Idle => {}
        part => return Err(Refusal::WrongPart { part: part.kind() }),
    }
    let (root, cursor) = begin_walk(alloc, names, name)?;
    let length = root.length;
    parts.set(actor, Part::Reading(Reader { root, cursor }));
    Ok(length)
}

/// The next segment of the file that an actor takes, into a buffer: its length is answered, or nothing, at the end. It
/// takes no memory.
///
/// Refusals: `WrongPart` where the actor takes no file, then those of `next_segment`. After each the actor takes the file
/// from where it was.
pub fn read_next<D: Disk, X: Index, H: TakesDigests>(
    disk: &mut D,
    index: &mut X,
    digests: &mut H,
    parts: &mut Parts,
    actor: Actor,
    buf: &mut SegBuf,
) -> Result<Option<u32>, Refusal>
    requires { X.serves index.old (D.view disk.old).size }
    ensures end { (root : FileRoot) (ahead : List Top) → part_of parts.old actor ≡ reading root ahead
        → (result ≡ Ok None) ↔ (ahead ≡ []) }
    // On any disk, whatever it gives.
    ensures next { IfOk result (GivesNext (X.places index.old (D.view disk.old).content) (D.view disk.old) (D.view disk.new)
        actor parts.old parts.new buf.new) }
    // Where the disk tells its content, and trees that it holds are to come, whose keys the index has.
    ensures held { (root : FileRoot) (ahead : List Top) (counts : ByteSet) (held : List (Option HeaderValue)) (image : List ℕ)
        (segments : List (List ℕ))
        → part_of parts.old actor ≡ reading root ahead
        → IsIndexed counts held (X.places index.old (D.view disk.old).content) (D.view disk.old).content image
        → SegmentsAhead counts held image ahead segments
        → GivesHeld counts held image (GoesOn actor parts.old parts.new ahead) segments buf.new result }
    ensures refused { IfErr result (IsReadRefusal (X.places index.old (D.view disk.old).content) (X.breaks index.old)
        (D.view disk.old) (D.view disk.new) actor parts.old parts.new) }
    ensures map { X.places index.new (D.view disk.new).content ≡ X.places index.old (D.view disk.old).content }
    ensures form { (at : ℕ) (why : Reason) (bytes : List ℕ) → X.breaks index.new at why bytes → X.breaks index.old at why bytes }
    ensures served { X.serves index.new (D.view disk.new).size }
    ensures reads { Reads (ending blames result) (D.view disk.old) (D.view disk.new) }
{
    match parts.take(actor) {
        Part::Reading(mut reader) => {
            let answer = next_segment(disk, index, digests, &mut reader.cursor, buf.bytes_mut());
            parts.set(actor, Part::Reading(reader));
            answer
        }
        Part::Writing(pins) => {
            parts.set(actor, Part::Writing(pins));
            Err(Refusal::WrongPart {
                part: PartKind::Writing,
            })
        }
        Part::Idle => Err(Refusal::WrongPart {
            part: PartKind::Idle,
        }),
    }
}

/// The actor gives up the file that it takes, and is idle. `WrongPart` where it takes none leaves all parts as they were.
pub fn end_read(parts: &mut Parts, actor: Actor) -> Result<(), Refusal>
    ensures ok { IfOk result (λ _. GivesUp actor parts.old parts.new) }
    ensures refused { IfErr result (IsEndRefusal actor parts.old parts.new) }
{
    match parts.part(actor) {
        Part::Reading(_) => {}
        part => return Err(Refusal::WrongPart { part: part.kind() }),
    }
    parts.set(actor, Part::Idle);
    Ok(())
}
