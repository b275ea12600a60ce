//! What a running store counts of itself, and lists.
ghost use Rattle.std.specs.Prelude.{◌≡◌, ◌≤◌, ℕ, IfErr, IfOk, Option, length, sum_by};
ghost use Rattle.disk_format.specs.declared.numbers.TheConstants.{MOST_SLOTS as MANY};
ghost use Rattle.container_meta.specs.Places.{PlaceMap};
ghost use Rattle.namespace.specs.Listing.{listing_of};
ghost use Rattle.refusals.specs.declared.refusal.Refusal.TheVariants.{Memory};
ghost use Rattle.store_model.specs.Image.{Store, IsValidFor};
ghost use Rattle.store_state.specs.Tables.{Represents};
ghost use Rattle.read_steps.specs.Counting.{IsRunning, counts_of};

use actor_parts::Answer;
use namespace::Listing;
use refusals::Refusal;
use std::alloc::Global;
use store_state::{SlotCount, Tables};

// How many entries there are.
fn entries_of(counts: &[SlotCount]) -> u64
    requires { length counts.now ≤ MANY }
    ensures { result ≡ sum_by (λ c. c.entries) counts.now }
{
    counts.iter().map(|count| u64::from(count.entries)).sum()
}

// How many bytes they have together.
fn bytes_of(counts: &[SlotCount]) -> u64
    requires { length counts.now ≤ MANY }
    ensures { result ≡ sum_by (λ c. c.bytes) counts.now }
{
    counts.iter().map(|count| u64::from(count.bytes)).sum()
}

/// How many names a store has, entries of valid containers, bytes of these, and slots that are used and free. It takes no
/// memory and reads nothing.
pub fn stat(tables: &Tables) -> Answer
    requires { IsRunning tables.now }
    ensures { (size : ℕ) (known : Option PlaceMap) (store : Store) → Represents store known tables.now → IsValidFor size store
        → result ≡ counts_of store }
{
    let free = tables.held.free();
    Answer::Stat {
        files: tables.names.count() as u64,
        segments: entries_of(&tables.held.counts),
        bytes: bytes_of(&tables.held.counts),
        used: u64::from(tables.slots - free),
        free: u64::from(free),
    }
}

/// The names of a store, each with its root, in the order of the names' bytes. It fails for want of memory alone.
pub fn list(alloc: Global, tables: &Tables) -> Result<Listing, Refusal>
    ensures listed { IfOk result (λ files. files ≡ listing_of tables.now.names) }
    ensures refused { IfErr result (λ refusal. refusal ≡ Memory) }
{
    match tables.names.files(alloc) {
        Ok(files) => Ok(files),
        Err(_) => Err(Refusal::Memory),
    }
}
