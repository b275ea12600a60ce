//! Containers given back, the one of the least id first.
ghost use Rattle.std.specs.Prelude.{◌≡◌, ◌↔◌, ◌+◌, ◌<◌, ◌≤◌, ℕ, List, [], ◌∷◌, length, IsTrue, OnErr, OnOk, IfErr};
ghost use Rattle.base_model.specs.Known.{Known, KnownWith};
ghost use Rattle.disk_format.specs.declared.numbers.TheConstants.{MOST_SLOTS as MANY, SLOT_BYTES};
ghost use Rattle.disk_format.specs.Layout.{size_of, slot_at};
ghost use Rattle.dd_disk.specs.Ending.{CountsFault, ending};
ghost use Rattle.dd_disk.specs.View.{IsDurable, IsLater};
ghost use Rattle.dd_disk.specs.Writes.{Puts, Writes};
ghost use Rattle.container_log.specs.Writing.{Frees, IsFreed};
ghost use Rattle.merkle_file.specs.declared.top.Top.{Top};
ghost use Rattle.refusals.specs.declared.refusal.Refusal.TheVariants.{DiskWrite};
ghost use Rattle.store_model.specs.Image.{Store};
ghost use Rattle.store_state.specs.Refused.{blames};
ghost use Rattle.recovery.specs.Making.{IsSpareIn, IsLeastOf, IsReady, GivesBack, StopsGiving};

use container_log::free;
use dd_disk::Disk;
use disk_format::RESERVE;
use refusals::Refusal;

// Whether a slot is open and not marked.
fn is_spare(ids: &[u64], used: &[bool], slot: u32) -> bool
    requires ids { slot < length ids.now }
    requires used { length used.now ≡ length ids.now }
    ensures { IsTrue result ↔ IsSpareIn ids.now used.now slot }
{
    ids[slot as usize] != 0 && !used[slot as usize]
}

// The slot of the least id, once one slot more is looked at.
fn lesser(ids: &[u64], used: &[bool], least: Option<u32>, slot: u32) -> Option<u32>
    requires ids { slot < length ids.now }
    requires used { length used.now ≡ length ids.now }
    requires least { IsLeastOf ids.now used.now slot least }
    ensures { IsLeastOf ids.now used.now (slot + 1) result }
{
    if !is_spare(ids, used, slot) {
        return least;
    }
    match least {
        Some(best) if ids[best as usize] <= ids[slot as usize] => Some(best),
        _ => Some(slot),
    }
}

// The open slot of the least id of those that aren't marked, if there is one.
fn least_spare(ids: &[u64], used: &[bool]) -> Option<u32>
    requires ids { length ids.now ≤ MANY }
    requires used { length used.now ≡ length ids.now }
    ensures { IsLeastOf ids.now used.now (length ids.now) result }
{
    let mut least = None;
    for slot in 0..ids.len() as u32 {
        least = lesser(ids, used, least, slot);
    }
    least
}

// Closes a slot.
fn close<D: Disk>(disk: &mut D, slot: u32) -> Result<(), Refusal>
    requires { slot_at slot + SLOT_BYTES ≤ (D.view disk.old).size }
    ensures whole { OnOk result (Known (D.view disk.old).content (λ given. KnownWith (D.view disk.new).content
        (Puts (slot_at slot) (0 ∷ []) given))) }
    ensures writes { Writes (λ _. Frees slot) (IsFreed slot) (ending blames result) (D.view disk.old) (D.view disk.new) }
    ensures refused { IfErr result (λ refusal. refusal ≡ DiskWrite) }
{
    match free(disk, slot) {
        Ok(()) => Ok(()),
        // A slot is freed by writes alone.
        Err(_) => Err(Refusal::DiskWrite),
    }
}

/// Gives back containers in slots that aren't marked, the one of the least id first, until two slots are closed or no such
/// container is left. `ids` has the id of the container in each slot, 0 where it is closed, and `closed` slots are closed.
pub(crate) fn give_back<D: Disk>(
    disk: &mut D,
    ids: &mut [u64],
    used: &[bool],
    closed: u32,
) -> Result<(), Refusal>
    requires ids { length ids.old ≤ MANY }
    requires used { length used.now ≡ length ids.old }
    requires size { (D.view disk.old).size ≡ size_of (length ids.old) }
    requires durable { IsDurable (D.view disk.old) }
    ensures given { OnOk result ((store : Store) (visited : List Top)
        → IsReady (D.view disk.old).size store visited ids.old used.now closed
        → GivesBack store visited (D.view disk.old) (D.view disk.new)) }
    ensures cut { OnErr result ((store : Store) (visited : List Top)
        → IsReady (D.view disk.old).size store visited ids.old used.now closed
        → StopsGiving store visited (D.view disk.old) (D.view disk.new)) }
    ensures refused { IfErr result (λ refusal. refusal ≡ DiskWrite) }
    ensures durable { OnOk result (IsDurable (D.view disk.new)) }
    ensures later { IsLater (D.view disk.old) (D.view disk.new) }
    ensures faults { CountsFault (ending blames result) (D.view disk.old).faults (D.view disk.new).faults }
{
    let mut free = closed;
    while free < RESERVE {
        let Some(slot) = least_spare(ids, used) else {
            return Ok(());
        };
        close(disk, slot)?;
        ids[slot as usize] = 0;
        free += 1;
    }
    Ok(())
}
