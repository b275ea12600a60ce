//! The containers of data of a session that were set aside, to be sealed together.
ghost use Rattle.std.specs.Prelude.{◌≡◌, ◌<◌, ◌≤◌, [], ◌∷◌, ◌++◌, IfOk, OnOk, OnErr, IsTrue, drop, length, true};
ghost use Rattle.std.specs.List.{AllByRecursion, list_any};
ghost use Rattle.container_meta.specs.Segments.{has_key, has_segment};
ghost use Rattle.ingest_session.specs.Sound.{IsAside};

use crate::counting::{Known, count_all, counted, discount_containers};
use actor_parts::MOST_TOGETHER;
use container_meta::{KeyMap, Kind, OpenContainer, Seg, key_of};
use std::alloc::{AllocError, Global};
use std::marker::Model;
use std::mem::replace;

/// Containers in the order in which they were filled, and a map of the keys in them. It takes the memory for its places when it is
/// made, and that of a container comes with it; the map takes some for each key.
#[derive(Drop)]
pub struct Aside {
    containers: Vec<OpenContainer>,
    /// How often each key is in them.
    counts: KeyMap<Known>,
    /// The number of the first container, where they are numbered as they come. Nothing rests on it.
    first: usize,
}

impl Model for Aside {
    ghost use Rattle.std.specs.Prelude.{List};
    ghost use Rattle.container_meta.specs.Segments.{Contents};

    ghost Value = { List Contents };

    ghost view = { λ a. a.containers.items };

    ghost use Rattle.std.specs.Prelude.{◌≤◌, vec_capacity};
    ghost use Rattle.actor_parts.specs.declared.step.TheConstants.{MOST_TOGETHER};
    ghost use Rattle.ingest_session.specs.KeyTimes.{IsCounted};

    ghost invariant = { λ a. (MOST_TOGETHER ≤ vec_capacity a.containers) × IsCounted a.counts a.containers.items };
}

impl Aside {
    /// No containers. It fails for want of memory alone.
    pub fn new(alloc: Global) -> Result<Aside, AllocError>
        ensures { IfOk result (λ a. a ≡ []) }
    {
        Ok(Aside {
            containers: Vec::with_capacity(alloc, MOST_TOGETHER)?,
            counts: KeyMap::new(alloc),
            first: 0,
        })
    }

    /// How many there are.
    pub fn len(&self) -> usize
        ensures { result ≡ length self.now }
    {
        self.containers.len()
    }

    /// All of them.
    pub fn containers(&self) -> &[OpenContainer]
        ensures { result.now ≡ self.now }
    {
        self.containers.as_slice()
    }

    /// Adds one at the end, and leaves this empty one in its place. It fails for want of memory alone, and then nothing changes.
    pub fn push(
        &mut self,
        filled: &mut OpenContainer,
        empty: OpenContainer,
    ) -> Result<(), AllocError>
        requires room { length self.old < MOST_TOGETHER }
        requires some { 1 ≤ length filled.old.segments }
        ensures ok { OnOk result (self.new ≡ self.old ++ filled.old ∷ []) }
        ensures empty { OnOk result (filled.new ≡ empty) }
        ensures err { OnErr result (self.new ≡ self.old) }
        ensures filled { OnErr result (filled.new ≡ filled.old) }
    {
        let number = self.first.wrapping_add(self.containers.len());
        count_all(&mut self.counts, filled.kind(), filled.entries(), number)?;
        self.containers.push_reserved(replace(filled, empty));
        Ok(())
    }

    /// Takes the first ones away, so many of them. It takes no memory.
    pub fn remove_first(&mut self, count: usize)
        requires { count ≤ length self.old }
        ensures { self.new ≡ drop count self.old }
    {
        discount_containers(&mut self.counts, &self.containers[..count]);
        self.containers.drain(..count);
        self.first = self.first.wrapping_add(count);
    }

    /// Whether a segment with this key is in one of them.
    pub fn has(&self, key: &[u8; 33]) -> bool
        ensures { result ≡ list_any (λ c. has_key c key.now) self.now }
    {
        counted(&self.counts, key) > 0
    }

    /// Whether this segment is in the container of a number, if that is there.
    fn holds_at(&self, number: usize, seg: &Seg) -> bool
        ensures { IsTrue result → list_any (λ c. has_segment c seg.now.segment) self.now ≡ true }
    {
        let i = number.wrapping_sub(self.first);
        i < self.containers.len() && self.containers[i].holds(seg)
    }

    /// Whether this segment is in one of them, and not only one of its digest. All of them are of data. Where its key came once, only
    /// the container that it came with is looked into.
    pub fn holds(&self, seg: &Seg) -> bool
        requires data { AllByRecursion IsAside self.now }
        ensures { result ≡ list_any (λ c. has_segment c seg.now.segment) self.now }
    {
        match self.counts.get(&key_of(Kind::Leaf, &seg.digest())) {
            Some(known) => {
                self.holds_at(known.number, seg)
                    || self.containers.iter().any(|filled| filled.holds(seg))
            }
            None => false,
        }
    }
}
