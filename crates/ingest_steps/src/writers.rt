//! The steps of an actor that stores a file: how it begins, and how it ends.
ghost use Rattle.std.specs.Prelude.{◌≡◌, ◌≤◌, ◌↔◌, OnOk, OnErr, IfOk, IfErr, IsTrue};
ghost use Rattle.std.specs.FinMap as finite;
ghost use Rattle.disk_format.specs.Cells.{IsRoot};
ghost use Rattle.disk_format.specs.Layout.{least_size};
ghost use Rattle.dd_disk.specs.Ending.{ending};
ghost use Rattle.dd_disk.specs.View.{IsDurable};
ghost use Rattle.dd_disk.specs.Moves.{Acts};
ghost use Rattle.actor_parts.specs.declared.part.Part.TheVariants.{Idle, Writing};
ghost use Rattle.actor_parts.specs.Kinds.{kind_of};
ghost use Rattle.actor_parts.specs.Parts.{part_of, with_part};
ghost use Rattle.refusals.specs.declared.refusal.PartKind.TheVariants as kinds;
ghost use Rattle.refusals.specs.declared.refusal.Refusal.TheVariants.{Unpinned};
ghost use Rattle.store_model.specs.Refusals.{root_key as key_of_root};
ghost use Rattle.store_state.specs.Refused.{blames};
ghost use Rattle.disk_format.specs.Cells.Change.{Put};
ghost use Rattle.ingest_steps.specs.Naming.{ChangesName, ChangesJournalAlone};
ghost use Rattle.ingest_steps.specs.Recording.{KeepsButRecord};
ghost use Rattle.ingest_steps.specs.Writers.{IsWrongPart, empty_root, IsStored, IsNotStored};
ghost use Rattle.ingest_steps.specs.Writers.{MayCommit, IsUncommitted, IsCommitRefusal, IsCommitted};

use crate::naming::{may_name, put_root};
use actor_parts::{Actor, Part, Parts, Pin, Pins};
use container_meta::{Key, Kind, digest_of, key_of};
use dd_disk::Disk;
use namespace::Root;
use refusals::Refusal;
use std::alloc::Global;
use store_state::Tables;

/// An actor that is at nothing stores a file from now on, and keeps no segments yet. Else `WrongPart`.
pub fn begin(alloc: Global, parts: &mut Parts, actor: Actor) -> Result<(), Refusal>
    ensures idle { OnOk result (kind_of (part_of parts.old actor) ≡ kinds.Idle) }
    ensures parts { OnOk result (parts.new ≡ with_part parts.old actor (Writing finite.empty)) }
    ensures refused { IfErr result (IsWrongPart kinds.Idle (part_of parts.old actor)) }
    ensures unchanged { OnErr result (parts.new ≡ parts.old) }
{
    match parts.part(actor) {
        Part::Idle => {}
        part => return Err(Refusal::WrongPart { part: part.kind() }),
    }
    parts.set(actor, Part::Writing(Pins::new(alloc)));
    Ok(())
}

/// An actor that stores a file gives it up, and is at nothing from now on. Else `WrongPart`.
pub fn abort(parts: &mut Parts, actor: Actor) -> Result<(), Refusal>
    ensures writing { OnOk result (kind_of (part_of parts.old actor) ≡ kinds.Writing) }
    ensures parts { OnOk result (parts.new ≡ with_part parts.old actor Idle) }
    ensures refused { IfErr result (IsWrongPart kinds.Writing (part_of parts.old actor)) }
    ensures unchanged { OnErr result (parts.new ≡ parts.old) }
{
    match parts.part(actor) {
        Part::Writing(_) => {}
        part => return Err(Refusal::WrongPart { part: part.kind() }),
    }
    parts.set(actor, Part::Idle);
    Ok(())
}

// The key of a root's segment.
fn root_key(root: &Root) -> Key
    ensures { result ≡ key_of_root root.now }
{
    let kind = if root.level == 0 {
        Kind::Leaf
    } else {
        Kind::Tree
    };
    key_of(kind, &root.digest)
}

// Whether a root is that of the empty file.
fn is_of_empty_file(root: &Root) -> bool
    ensures { IsTrue result ↔ root.now ≡ empty_root }
{
    root.length == 0 && root.level == 0 && root.digest == digest_of(&[])
}

// Refuses a root whose segment isn't among the pins, with the root's level and length. The empty file has no segment.
fn may_take(pins: &Pins, root: &Root) -> Result<(), Refusal>
    ensures stored { OnOk result (IsStored pins.now root.now) }
    ensures right { OnOk result (IsRoot root.now) }
    ensures refused { IfErr result (λ refusal. refusal ≡ Unpinned (key_of_root root.now)
        × IsNotStored pins.now root.now (key_of_root root.now)) }
{
    let key = root_key(root);
    let pin = Pin {
        level: root.level,
        length: root.length,
    };
    if is_of_empty_file(root) || pins.has(&key, &pin) {
        Ok(())
    } else {
        Err(Refusal::Unpinned { key })
    }
}

// Refuses a commit by what the actor is at, by the name and by the root, in this order.
fn may_commit(tables: &Tables, part: &Part, name: &[u8], root: &Root) -> Result<(), Refusal>
    ensures may { OnOk result (MayCommit part.now tables.now name.now root.now) }
    ensures right { OnOk result (IsRoot root.now) }
    ensures refused { IfErr result (IsUncommitted part.now tables.now name.now root.now) }
{
    match part {
        Part::Writing(pins) => {
            may_name(tables, name)?;
            may_take(pins, root)
        }
        _ => Err(Refusal::WrongPart { part: part.kind() }),
    }
}

/// Gives a name the root of the file that an actor has stored, by a put under the next sequence number, which is answered.
/// The actor is at nothing then.
///
/// Refusals, in this order: `WrongPart`; `BadName` and `TooMany` of the name; `Unpinned` where the root's segment isn't
/// among the actor's with the root's level and length, unless the file is empty; `Numbers` where the last sequence number is
/// 2^64 - 1, or the generation where a checkpoint is due; `DiskWrite`. `Memory` comes before the first write. Each leaves the
/// tables and the parts as they were.
pub fn commit<D: Disk>(
    alloc: Global,
    disk: &mut D,
    tables: &mut Tables,
    parts: &mut Parts,
    actor: Actor,
    name: &[u8],
    root: &Root,
) -> Result<u64, Refusal>
    requires size { least_size ≤ (D.view disk.old).size }
    ensures ok { IfOk result (IsCommitted parts.old actor tables.old name.now root.now parts.new tables.new) }
    ensures refused { IfErr result (IsCommitRefusal (part_of parts.old actor) tables.old name.now root.now) }
    ensures unchanged { OnErr result ((tables.new ≡ tables.old) × (parts.new ≡ parts.old)) }
    ensures durable { OnOk result (IsDurable (D.view disk.new)) }
    ensures disk { Acts (ending blames result) (D.view disk.old) (D.view disk.new) }
    ensures moves { ChangesName tables.old name.now (Put root.now) (ending blames result) (D.view disk.old) (D.view disk.new) }
    ensures frame { ChangesJournalAlone tables.old name.now (Put root.now) (D.view disk.old) (D.view disk.new) }
    ensures same { OnOk result (KeepsButRecord tables.old.journal (D.view disk.old) (D.view disk.new)) }
{
    may_commit(tables, parts.part(actor), name, root)?;
    let number = put_root(alloc, disk, tables, name, root)?;
    parts.set(actor, Part::Idle);
    Ok(number)
}
