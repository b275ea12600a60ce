//! How often each key stands among those of some containers, so that one look-up finds it.
ghost use Rattle.std.specs.Prelude.{◌≡◌, ◌+◌, ◌-◌, ◌*◌, ◌<◌, ◌≤◌, ℕ, List, OnOk, OnErr, length};
ghost use Rattle.disk_format.specs.declared.numbers.TheConstants.{MOST_ENTRIES};
ghost use Rattle.actor_parts.specs.declared.step.TheConstants.{MOST_TOGETHER};

use container_meta::{Entry, Key, KeyMap, Kind, OpenContainer, key_of};
use std::alloc::AllocError;

/// What is known of a key.
#[derive(Clone, Copy)]
pub struct Known {
    /// How often it was counted.
    pub times: usize,
    /// The number of the container with which it was counted last. It says where to look first, and nothing rests on it.
    pub number: usize,
}

ghost use Rattle.ingest_session.specs.KeyTimes.{once, times, times_among, times_in};

/// How often a key was counted.
pub(crate) fn counted(counts: &KeyMap<Known>, key: &Key) -> usize
    ensures { result ≡ times counts.now key.now }
{
    match counts.get(key) {
        Some(known) => known.times,
        None => 0,
    }
}

/// Counts a key once more. It fails for want of memory alone, and then nothing changes.
fn count(counts: &mut KeyMap<Known>, key: &Key, number: usize) -> Result<(), AllocError>
    requires few { times counts.old key.now < MOST_TOGETHER * MOST_ENTRIES }
    ensures ok { OnOk result ((k : List ℕ) → times counts.new k ≡ times counts.old k + once key.now k) }
    ensures err { OnErr result (counts.new ≡ counts.old) }
{
    let times = counted(counts, key) + 1;
    counts.insert(key, Known { times, number })
}

/// Counts a key once less; where it is counted no more, it is not there. It takes no memory.
fn discount(counts: &mut KeyMap<Known>, key: &Key)
    ensures { (k : List ℕ) → times counts.new k ≡ times counts.old k - once key.now k }
{
    match counts.get(key) {
        Some(known) if known.times > 1 => {
            let times = known.times - 1;
            match counts.insert(key, Known { times, ..known }) {
                Ok(()) => {}
                // It is there, so no memory is wanted.
                Err(_) => unreachable!(),
            }
        }
        _ => counts.remove(key),
    }
}

/// Counts the key of each entry once less. It takes no memory.
fn discount_all(counts: &mut KeyMap<Known>, kind: Kind, entries: &[Entry])
    ensures { (k : List ℕ) → times counts.new k ≡ times counts.old k - times_among kind entries.now k }
{
    for i in 0..entries.len() {
        discount(counts, &key_of(kind, &entries[i].digest));
    }
}

/// Counts the key of each segment in containers once less. It takes no memory.
pub(crate) fn discount_containers(counts: &mut KeyMap<Known>, containers: &[OpenContainer])
    ensures { (k : List ℕ) → times counts.new k ≡ times counts.old k - times_in containers.now k }
{
    for i in 0..containers.len() {
        let filled = &containers[i];
        discount_all(counts, filled.kind(), filled.entries());
    }
}

/// Counts the key of each entry of a container of this number once more. It fails for want of memory alone, and then each is counted
/// as often as before.
pub(crate) fn count_all(
    counts: &mut KeyMap<Known>,
    kind: Kind,
    entries: &[Entry],
    number: usize,
) -> Result<(), AllocError>
    requires few { (k : List ℕ) → times counts.old k + length entries.now ≤ MOST_TOGETHER * MOST_ENTRIES }
    ensures ok { OnOk result ((k : List ℕ) → times counts.new k ≡ times counts.old k + times_among kind entries.now k) }
    ensures err { OnErr result ((k : List ℕ) → times counts.new k ≡ times counts.old k) }
{
    for i in 0..entries.len() {
        if let Err(fault) = count(counts, &key_of(kind, &entries[i].digest), number) {
            discount_all(counts, kind, &entries[..i]);
            return Err(fault);
        }
    }
    Ok(())
}
