//! What the trees of all names have together, each key counted once.
ghost use Rattle.std.specs.Prelude.{◌≡◌, ◌≤◌, IsTrue, IfErr, IfOk, length};
ghost use Rattle.dd_disk.specs.Ending.{ending, Reads};
ghost use Rattle.disk_format.specs.declared.numbers.TheConstants.{MOST_SEGMENT as LONGEST};
ghost use Rattle.namespace.specs.Listing.{listing_of};
ghost use Rattle.segment_index.specs.Places.{HasPlaces};
ghost use Rattle.store_state.specs.Refused.{blames, fails};
ghost use Rattle.read_steps.specs.Trees.{AllHeld, IsTreesRefusal, WhereHeld};
ghost use Rattle.read_steps.specs.Unique.{IsUniqueAnswer};

use crate::sizes::Sizes;
use crate::trees::walk_trees;
use actor_parts::Answer;
use dd_disk::Disk;
use namespace::Names;
use refusals::Refusal;
use segment_index::StoreIndex;
use std::alloc::Global;

/// How many keys the trees of all names have, and how many bytes these have together, each counted once. Each node is visited once.
///
/// Refusals: `Memory`, and those of `visit`.
pub fn unique<D: Disk>(
    alloc: Global,
    disk: &mut D,
    index: &mut StoreIndex,
    names: &Names,
    buf: &mut [u8],
) -> Result<Answer, Refusal>
    requires serves { HasPlaces (D.view disk.old).size index.old }
    requires room { LONGEST ≤ length buf.old }
    ensures counts { IfOk result (IsUniqueAnswer index.old (D.view disk.old) (D.view disk.new) (listing_of names.now)) }
    ensures refused { IfErr result (IsTreesRefusal index.old (D.view disk.old) (D.view disk.new) (listing_of names.now)) }
    // Where the disk tells its content, and holds the trees of all names.
    ensures failed { IfErr result (λ refusal. WhereHeld index.old (D.view disk.old).content
        (λ counts held image. AllHeld counts held image (listing_of names.now)) (λ _ _ _. IsTrue (fails refusal))) }
    ensures index { index.new ≡ index.old }
    ensures reads { Reads (ending blames result) (D.view disk.old) (D.view disk.new) }
{
    let files = names.files(alloc)?;
    let mut sizes = Sizes::new(alloc);
    walk_trees(alloc, disk, index, files.names(), &mut sizes, buf)?;
    match sizes.bytes() {
        Some(bytes) => Ok(Answer::Unique {
            segments: sizes.count(),
            bytes,
        }),
        // So many keys fit in no memory.
        None => Err(Refusal::Memory),
    }
}
