//! Digests that are taken before they are asked for.
ghost use Rattle.std.specs.Prelude.{◌≡◌, IfSome};
ghost use Rattle.sha2.specs.Sha256.{sha256};

use crate::at_once::digests;
use crate::texts::Texts;
use sha2::{Digest, Sha256};
use std::alloc::{AllocError, Global};
use std::marker::Model;
use std::thread::Threads;

/// What gives the digest of bytes, whether it is taken now or was before.
pub trait TakesDigests {
    /// The SHA-256 (FIPS 180-4).
    fn digest(&mut self, bytes: &[u8]) -> [u8; 32]
        ensures { result ≡ sha256 bytes.now };
}

/// Each digest is taken as it is asked for.
#[derive(Drop)]
pub struct Afresh;

impl TakesDigests for Afresh {
    fn digest(&mut self, bytes: &[u8]) -> [u8; 32] {
        Sha256::digest(bytes)
    }
}

/// Byte strings whose digests will be asked for, one after the other, and their digests once `take` was called. The digest of other bytes
/// than those whose turn it is, is taken afresh: so it gives the right one of any bytes, and contracts see nothing of it.
#[derive(Drop)]
pub struct Ahead {
    texts: Texts,
    /// The digests of the first of them: of all once they were taken, and of none before.
    digests: Vec<[u8; 32]>,
    /// The first that was not asked for.
    next: usize,
}

impl Model for Ahead {
    ghost use Rattle.digests.specs.Ahead.{AreTaken};

    ghost Value = { Unit {0} };

    ghost view = { λ a. tt };

    ghost invariant = { λ a. AreTaken a.texts.all a.digests.items };
}

impl TakesDigests for Ahead {
    fn digest(&mut self, bytes: &[u8]) -> [u8; 32] {
        let known = self.known(bytes);
        self.next = self.next.saturating_add(1);
        match known {
            Some(digest) => digest,
            None => Sha256::digest(bytes),
        }
    }
}

impl Ahead {
    /// No bytes. It takes no memory.
    pub fn new(alloc: Global) -> Ahead {
        Ahead {
            texts: Texts::new(alloc),
            digests: Vec::new(alloc),
            next: 0,
        }
    }

    // The digest of these bytes, where they are those that come next.
    fn known(&self, bytes: &[u8]) -> Option<[u8; 32]>
        ensures { IfSome result (λ digest. digest ≡ sha256 bytes.now) }
    {
        if self.next < self.digests.len() && self.texts.get(self.next) == bytes {
            return Some(self.digests[self.next]);
        }
        None
    }

    /// Whether all digests that were taken were asked for.
    pub fn is_used_up(&self) -> bool {
        self.next >= self.digests.len()
    }

    /// How many byte strings there are.
    pub fn len(&self) -> usize {
        self.texts.len()
    }

    /// Forgets all, but for the memory.
    pub fn clear(&mut self) {
        self.digests.clear();
        self.texts.clear();
        self.next = 0;
    }

    /// One byte string more, whose digest is not taken yet, and no digest of the others. It fails for want of memory alone.
    pub fn add(&mut self, bytes: &[u8]) -> Result<(), AllocError> {
        self.digests.clear();
        self.texts.push(bytes)
    }

    /// Takes the digests of all at once, by several threads, into memory of their own. It fails for want of memory alone, and then there
    /// are none.
    pub fn take(&mut self, rt: &(impl Threads + Sync), alloc: Global) -> Result<(), AllocError> {
        self.next = 0;
        self.digests.clear();
        let texts = self.texts.all(alloc)?;
        self.digests = digests(rt, alloc, &texts)?;
        Ok(())
    }
}
