//! Claiming a segment that is held.
ghost use Rattle.std.specs.Prelude.{◌≡◌, None, OnOk, OnErr, IfOk, IfErr};
ghost use Rattle.std.specs.FinMap as finite;
ghost use Rattle.dd_disk.specs.Ending.{ending, Reads};
ghost use Rattle.dd_disk.specs.Shows.{Shows};
ghost use Rattle.actor_parts.specs.declared.part.Part.TheVariants.{Writing};
ghost use Rattle.actor_parts.specs.Kinds.{kind_of};
ghost use Rattle.actor_parts.specs.Parts.{part_of, with_part};
ghost use Rattle.actor_parts.specs.PinMap.{PinMap, IsPin};
ghost use Rattle.actor_parts.specs.Segments.{IsStepSegment};
ghost use Rattle.refusals.specs.declared.refusal.PartKind.TheVariants as kinds;
ghost use Rattle.refusals.specs.declared.refusal.Refusal.TheVariants.{Memory};
ghost use Rattle.store_state.specs.Comparing.{IsOneRefusal};
ghost use Rattle.store_state.specs.Refused.{blames};
ghost use Rattle.ingest_steps.specs.Claiming.{MayClaim, MayNotClaim, IsLookedUp, DiffersFrom, IsClaimRefusal, IsClaimed, KeepsPart};

use actor_parts::{Actor, Part, Parts, Pin, SegBuf, first_unpinned, pin_of};
use container_meta::{Key, Seg};
use dd_disk::Disk;
use refusals::Refusal;
use segment_index::Index;
use store_state::compare_one;

/// Whether a segment is held.
#[derive(Clone, Copy)]
pub enum Claimed {
    /// It is, and the actor keeps it.
    Held,
    /// No copy of its key is.
    Absent,
}

// Refuses a claim by what the actor is at, and by the children of the segment, in this order.
fn may_claim(part: &Part, seg: &Seg) -> Result<(), Refusal>
    requires { IsStepSegment seg.now }
    ensures may { OnOk result (MayClaim part.now seg.now) }
    ensures refused { IfErr result (MayNotClaim part.now seg.now) }
{
    match part {
        Part::Writing(pins) => match first_unpinned(seg, pins) {
            None => Ok(()),
            Some(key) => Err(Refusal::Unpinned { key }),
        },
        _ => Err(Refusal::WrongPart { part: part.kind() }),
    }
}

// Whether a segment is held. A copy that isn't the same is refused.
fn look_up<D: Disk, X: Index>(
    disk: &mut D,
    index: &mut X,
    seg: &Seg,
    buf: &mut SegBuf,
) -> Result<Claimed, Refusal>
    requires { X.serves index.old (D.view disk.old).size }
    ensures found { IfOk result (IsLookedUp (D.view disk.old).size (X.places index.old (D.view disk.old).content) seg.now
        (Shows (D.view disk.old) (D.view disk.new))) }
    ensures refused { IfErr result (IsOneRefusal
        (λ at why. (X.places index.old (D.view disk.old).content ≡ None)
        × Shows (D.view disk.old) (D.view disk.new) (X.breaks index.old at why))
        (DiffersFrom (D.view disk.old).size (X.places index.old (D.view disk.old).content) seg.now
        (Shows (D.view disk.old) (D.view disk.new)))) }
    ensures map { X.places index.new (D.view disk.new).content ≡ X.places index.old (D.view disk.old).content }
    ensures reads { Reads (ending blames result) (D.view disk.old) (D.view disk.new) }
    ensures served { X.serves index.new (D.view disk.new).size }
{
    match compare_one(
        disk,
        index,
        seg.kind(),
        &seg.digest(),
        seg.bytes(),
        buf.bytes_mut(),
    )? {
        Some(_) => Ok(Claimed::Held),
        None => Ok(Claimed::Absent),
    }
}

// Has an actor that stores a file keep a segment, too.
fn add_pin(parts: &mut Parts, actor: Actor, key: &Key, pin: Pin) -> Result<(), Refusal>
    requires writing { kind_of (part_of parts.old actor) ≡ kinds.Writing }
    requires pin { IsPin pin }
    ensures parts { OnOk result ((pins : PinMap) → part_of parts.old actor ≡ Writing pins
        → parts.new ≡ with_part parts.old actor (Writing (finite.insert pins key.now pin))) }
    ensures unchanged { OnErr result (parts.new ≡ parts.old) }
    ensures refused { IfErr result (λ refusal. refusal ≡ Memory) }
{
    match parts.take(actor) {
        Part::Writing(mut pins) => {
            let added = pins.add(key, pin);
            parts.set(actor, Part::Writing(pins));
            added?;
            Ok(())
        }
        // The actor stores a file.
        _ => unreachable!(),
    }
}

/// Whether a segment is held: `Absent` exactly where the index lacks its key. Where it is, the actor keeps it from now on.
///
/// Refusals, in this order: `WrongPart`, where the actor stores no file; `Unpinned`, for the first child that the actor
/// doesn't keep with the level and the length that the segment names; `DiskRead`, and `Damaged` for the index's own bytes;
/// `Corrupt` for a copy that is read, and `Clash` where it isn't the same. `Memory` is wanted for what the actor keeps. Each
/// leaves the parts as they were.
pub fn claim<D: Disk, X: Index>(
    disk: &mut D,
    index: &mut X,
    parts: &mut Parts,
    actor: Actor,
    seg: &Seg,
    buf: &mut SegBuf,
) -> Result<Claimed, Refusal>
    requires serves { X.serves index.old (D.view disk.old).size }
    requires step { IsStepSegment seg.now }
    ensures ok { IfOk result (IsClaimed (D.view disk.old).size (X.places index.old (D.view disk.old).content) parts.old actor seg.now
        (Shows (D.view disk.old) (D.view disk.new)) parts.new) }
    ensures refused { IfErr result (IsClaimRefusal (part_of parts.old actor) seg.now
        (λ at why. (X.places index.old (D.view disk.old).content ≡ None)
        × Shows (D.view disk.old) (D.view disk.new) (X.breaks index.old at why))
        (DiffersFrom (D.view disk.old).size (X.places index.old (D.view disk.old).content) seg.now
        (Shows (D.view disk.old) (D.view disk.new)))) }
    ensures unchanged { OnErr result (parts.new ≡ parts.old) }
    ensures map { X.places index.new (D.view disk.new).content ≡ X.places index.old (D.view disk.old).content }
    ensures reads { Reads (ending blames result) (D.view disk.old) (D.view disk.new) }
    ensures served { X.serves index.new (D.view disk.new).size }
    ensures kept { KeepsPart (D.view disk.old).content (X.places index.old (D.view disk.old).content) parts.old actor seg.now parts.new }
{
    may_claim(parts.part(actor), seg)?;
    let claim = look_up(disk, index, seg, buf)?;
    match claim {
        Claimed::Held => add_pin(parts, actor, &seg.key(), pin_of(seg))?,
        Claimed::Absent => {}
    }
    Ok(claim)
}
