//! A container that is being filled, once more.
ghost use Rattle.std.specs.Prelude.{◌≡◌, ◌+◌, ◌<◌, length, take, true, IfOk, OnOk};
ghost use Rattle.container_meta.specs.Format.{is_level};

use container_meta::{Fit, Kind, OpenContainer, Seg};
use std::alloc::{AllocError, Global};

/// A segment of a kind, with a level that the kind has. It fails for want of memory alone.
pub(crate) fn seg_of(alloc: Global, kind: Kind, level: u8, bytes: &[u8]) -> Result<Seg, AllocError>
    requires { is_level kind level ≡ true }
    ensures { IfOk result (λ s. s ≡ record { kind = kind; segment = record { level = level; bytes = bytes.now } }) }
{
    match kind {
        Kind::Leaf => Seg::leaf(alloc, bytes),
        Kind::Tree => Seg::tree(alloc, level, bytes),
    }
}

// Adds the segment of a number to a container that has those before it.
fn add_again(
    alloc: Global,
    from: &OpenContainer,
    i: usize,
    copy: &mut OpenContainer,
) -> Result<(), AllocError>
    requires number { i < length from.now.segments }
    requires before { copy.old ≡ record from.now { segments = take i from.now.segments } }
    ensures { OnOk result (copy.new ≡ record from.now { segments = take (i + 1) from.now.segments }) }
{
    let entry = from.entries()[i];
    let seg = seg_of(alloc, from.kind(), entry.level, from.bytes_of(i))?;
    match copy.try_add(&seg) {
        Fit::Added => Ok(()),
        // It has room for all of them.
        Fit::NoRoom => unreachable!(),
    }
}

/// A container with the same segments. It fails for want of memory alone.
pub(crate) fn same_again(alloc: Global, from: &OpenContainer) -> Result<OpenContainer, AllocError>
    ensures { IfOk result (λ copy. copy ≡ from.now) }
{
    let mut copy = OpenContainer::new(alloc, from.kind())?;
    for i in 0..from.len() {
        add_again(alloc, from, i, &mut copy)?;
    }
    Ok(copy)
}
