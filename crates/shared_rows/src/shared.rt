//! A shared store, and its passes by their names.
ghost use Rattle.std.specs.Prelude.{◌≡◌, ◌<◌, IfOk};
ghost use Rattle.actor_parts.specs.StepValue.{IsStep, step_value};

use crate::both::put_both;
use actor_parts::{Answer, SegBuf, Step};
use dd_disk::MemDisk;
use refusals::Refusal;
use shared_store::{Pass, SharedStore, StillShared};
use std::alloc::Global;
use std::marker::Model;
use std::sync::Wait;
use std::thread::Threads;
use store_core::Core;
use summary_vector::NoSummary;
use transcripts::Fault;

/// What lies under the lock.
pub(crate) type Kernel = Core<MemDisk, NoSummary>;

/// A pass, and its name; none where it was taken in.
#[derive(Drop)]
struct Member {
    name: String,
    pass: Option<Pass<Kernel>>,
}

/// A store that is open, and its passes. Contracts see which store it is, and how many passes had names.
#[derive(Drop)]
pub(crate) struct Shared {
    store: SharedStore<Kernel>,
    members: Vec<Member>,
}

impl Model for Shared {
    ghost use Rattle.std.specs.Prelude.{◌≡◌, ℕ, All, IfSome, length};
    ghost use Rattle.atomic_table.specs.Seated.{TableId};

    ghost Value = { TableId × ℕ };

    ghost view = { λ s. (s.store, length s.members.items) };

    ghost invariant = { λ s. All (λ m. IfSome m.pass (λ p. p.store ≡ s.store)) s.members.items };
}

/// What comes of a close: a disk, with the refusal that stopped its store; or the store, and how many numbers are out.
pub(crate) enum Closing {
    Closed(MemDisk, Option<Refusal>),
    Out(Shared, u64),
}

impl Shared {
    /// Opens the store on a disk, whose first pass has this name.
    pub(crate) fn open(
        alloc: Global,
        disk: MemDisk,
        name: &str,
    ) -> Result<Shared, (MemDisk, Refusal)> {
        let mut members = Vec::new(alloc);
        let Ok(name) = name.to_string(alloc) else {
            return Err((disk, Refusal::Memory));
        };
        let (store, pass) = SharedStore::open(alloc, disk)?;
        let pass = Some(pass);
        match members.push(Member { name, pass }) {
            Ok(()) => Ok(Shared { store, members }),
            Err(_) => Err((
                MemDisk::new(Vec::new(alloc), Vec::new(alloc)),
                Refusal::Memory,
            )),
        }
    }

    // Where the pass of a name stands.
    fn place(&self, name: &str) -> Result<usize, Fault>
        ensures { IfOk result (λ i. i < self.now.1) }
    {
        for i in 0..self.members.len() {
            let member = &self.members[i];
            if member.name.as_str() == name && member.pass.is_some() {
                return Ok(i);
            }
        }
        Err(Fault::Name)
    }

    /// Makes a step by a pass.
    pub(crate) fn call<R: Wait>(
        &mut self,
        rt: &R,
        name: &str,
        step: Step<'_>,
        buf: &mut SegBuf,
    ) -> Result<Result<Answer, Refusal>, Fault>
        requires { IsStep (step_value step) }
    {
        let at = self.place(name)?;
        match &mut self.members[at].pass {
            Some(pass) => Ok(self.store.call(rt, pass, step, buf)),
            None => Err(Fault::Name),
        }
    }

    /// Splits a pass off another, and gives it a name.
    pub(crate) fn split<R: Wait>(
        &mut self,
        rt: &R,
        name: &str,
        other: String,
    ) -> Result<Result<(), Refusal>, Fault> {
        let at = self.place(name)?;
        let split = match &mut self.members[at].pass {
            Some(pass) => self.store.split(rt, pass),
            None => return Err(Fault::Name),
        };
        match split {
            Ok(pass) => self.add(other, pass),
            Err(refusal) => Ok(Err(refusal)),
        }
    }

    fn add(&mut self, name: String, pass: Pass<Kernel>) -> Result<Result<(), Refusal>, Fault>
        requires { pass.store ≡ self.old.0 }
    {
        let pass = Some(pass);
        self.members.push(Member { name, pass })?;
        Ok(Ok(()))
    }

    // Takes a pass from its name.
    fn take(&mut self, name: &str) -> Result<(usize, Pass<Kernel>), Fault>
        ensures place { IfOk result (λ r. r.0 < self.new.1) }
        ensures store { IfOk result (λ r. r.1.store ≡ self.new.0) }
        ensures same { self.new ≡ self.old }
    {
        let at = self.place(name)?;
        match self.members[at].pass.take() {
            Some(pass) => Ok((at, pass)),
            None => Err(Fault::Name),
        }
    }

    /// Joins a pass into another, and says whether it was taken in.
    pub(crate) fn join(&mut self, name: &str, other: &str) -> Result<bool, Fault> {
        let (from, other) = self.take(other)?;
        let (at, pass) = self.take(name)?;
        let mut pass = pass;
        let back = match self.store.join(&mut pass, other) {
            Ok(()) => None,
            Err(other) => Some(other),
        };
        let joined = back.is_none();
        self.members[at].pass = Some(pass);
        self.members[from].pass = back;
        Ok(joined)
    }

    /// How many commands a pass has seen.
    pub(crate) fn seen(&self, name: &str) -> Result<u64, Fault> {
        let at = self.place(name)?;
        match &self.members[at].pass {
            Some(pass) => Ok(self.store.seen(pass)),
            None => Err(Fault::Name),
        }
    }

    /// Two passes put files beside one another.
    pub(crate) fn both<R: Threads + Wait + Sync>(
        &mut self,
        rt: &R,
        alloc: Global,
        first: &str,
        second: &str,
    ) -> Result<Result<(), Refusal>, Fault> {
        let (one, first) = self.take(first)?;
        let (two, second) = self.take(second)?;
        let ((first, put), (second, put_too)) = put_both(rt, alloc, &self.store, first, second);
        self.members[one].pass = Some(first);
        self.members[two].pass = Some(second);
        Ok(put.and(put_too))
    }

    /// Closes the store by a pass.
    pub(crate) fn close<R: Wait>(self, rt: &R, name: &str) -> Result<Closing, Fault> {
        let mut shared = self;
        let (at, pass) = shared.take(name)?;
        let Shared { store, members } = shared;
        match store.close(rt, pass) {
            Ok((disk, stopped)) => Ok(Closing::Closed(disk, stopped)),
            Err(
                StillShared {
                    store,
                    pass,
                    others,
                },
            ) => {
                let mut members = members;
                members[at].pass = Some(pass);
                Ok(Closing::Out(Shared { store, members }, others))
            }
        }
    }
}
