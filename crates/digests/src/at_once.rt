//! The digests of many byte strings at once, by several threads.
ghost use Rattle.std.specs.Prelude.{◌≡◌, map, IfOk};
ghost use Rattle.sha2.specs.Sha256.{sha256};

use rayon::current_num_threads;
use rayon::prelude::*;
use sha2::{Digest, Sha256};
use std::alloc::{AllocError, Global};
use std::thread::Threads;

/// A thread gets no fewer byte strings than this: to start it costs about as much as the digests of two or three segments of the usual
/// length.
const LEAST_PIECE: usize = 15;
/// Threads are started for no fewer byte strings than this.
pub const LEAST_AT_ONCE: usize = 2 * LEAST_PIECE;

/// Whether several threads take digests: with one processor alone each would only take the turn of another.
pub fn has_threads(rt: &impl Threads) -> bool {
    current_num_threads(rt) > 1
}

// How many of so many byte strings a thread gets at least.
fn least_piece(rt: &impl Threads, count: usize) -> usize {
    if has_threads(rt) { LEAST_PIECE } else { count }
}

/// The SHA-256 (FIPS 180-4) of each byte string, in their order, as one thread would take them. Threads are started where there are
/// 30 or more and more than one processor, two for each at most, and are joined before it returns. It fails for want of memory alone.
pub fn digests(
    rt: &(impl Threads + Sync),
    alloc: Global,
    texts: &[&[u8]],
) -> Result<Vec<[u8; 32]>, AllocError>
    ensures { IfOk result (λ all. all.items ≡ map (λ t. sha256 t.now) texts.now) }
{
    texts
        .par_iter()
        .map(
            |text: &&[u8]| -> [u8; 32]
                ensures { result ≡ sha256 text.now.now }
            { Sha256::digest(*text) },
        )
        .with_min_len(least_piece(rt, texts.len()))
        .collect(rt, alloc)
}
