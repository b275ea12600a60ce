//! Two threads that share a store.
ghost use Rattle.std.specs.Prelude.{◌≡◌};

use crate::shared::Kernel;
use crate::steps::{filled_by, root_of};
use actor_parts::{Answer, SegBuf, Step};
use container_meta::Seg;
use refusals::Refusal;
use shared_store::{Pass, SharedStore};
use std::alloc::Global;
use std::slice::from_ref;
use std::sync::Wait;
use std::thread::{Threads, join};

/// How many files a thread puts.
const FILES: u8 = 20;

/// Each pass puts its files, by a thread of its own. The passes come back, with what stood in the way.
pub(crate) fn put_both<R: Threads + Wait + Sync>(
    rt: &R,
    alloc: Global,
    store: &SharedStore<Kernel>,
    first: Pass<Kernel>,
    second: Pass<Kernel>,
) -> (
    (Pass<Kernel>, Result<(), Refusal>),
    (Pass<Kernel>, Result<(), Refusal>),
)
    requires first { first.store ≡ store.now }
    requires second { second.store ≡ store.now }
    ensures first { result.0.0.store ≡ first.store }
    ensures second { result.1.0.store ≡ second.store }
{
    join(
        rt,
        move || -> (Pass<Kernel>, Result<(), Refusal>)
            requires { first.store ≡ store.now }
            ensures { result.0.store ≡ first.store }
        { put_all(rt, alloc, store, first, b'a') },
        move || -> (Pass<Kernel>, Result<(), Refusal>)
            requires { second.store ≡ store.now }
            ensures { result.0.store ≡ second.store }
        { put_all(rt, alloc, store, second, b'b') },
    )
}

// Puts all files of a thread, up to one that can't be put.
fn put_all<R: Wait>(
    rt: &R,
    alloc: Global,
    store: &SharedStore<Kernel>,
    pass: Pass<Kernel>,
    letter: u8,
) -> (Pass<Kernel>, Result<(), Refusal>)
    requires { pass.store ≡ store.now }
    ensures { result.0.store ≡ pass.store }
{
    let mut pass = pass;
    for number in 0..FILES {
        let put = put(rt, alloc, store, &mut pass, letter, b'a' + number);
        if put.is_err() {
            return (pass, put);
        }
    }
    (pass, Ok(()))
}

// Puts a file of one byte, which is the last of its name.
fn put<R: Wait>(
    rt: &R,
    alloc: Global,
    store: &SharedStore<Kernel>,
    pass: &mut Pass<Kernel>,
    letter: u8,
    byte: u8,
) -> Result<(), Refusal>
    requires { pass.old.store ≡ store.now }
    ensures { pass.new.store ≡ pass.old.store }
{
    let mut buf = SegBuf::new(alloc)?;
    let seg = Seg::leaf(alloc, &[byte])?;
    let Ok(filled) = filled_by(alloc, &seg) else {
        return Err(Refusal::Memory);
    };
    store.call(rt, pass, Step::Begin, &mut buf)?;
    let claim = Step::Claim { seg: &seg };
    if let Answer::Absent = store.call(rt, pass, claim, &mut buf)? {
        let filled = from_ref(&filled);
        store.call(rt, pass, Step::Seal { filled }, &mut buf)?;
    }
    let name = [letter, byte];
    let name = name.as_slice();
    let root = root_of(&[byte]);
    let commit = Step::Commit { name, root: &root };
    store.call(rt, pass, commit, &mut buf)?;
    Ok(())
}
