//! Segments and their digests.

ghost use Rattle.std.specs.Prelude.{◌≡◌, IfOk};
ghost use Rattle.sha2.specs.Sha256.{sha256};

use crate::kind::Kind;
use crate::place::{Key, key_of};
use sha2::{Digest, Sha256};
use std::alloc::{AllocError, Global};
use std::marker::Model;

/// The SHA-256 of bytes (FIPS 180-4).
pub fn digest_of(bytes: &[u8]) -> [u8; 32]
    ensures { result ≡ sha256 bytes.now }
{
    Sha256::digest(bytes)
}

/// Bytes that the store keeps under their digest.
#[derive(Drop)]
pub struct Seg {
    kind: Kind,
    level: u8,
    bytes: Vec<u8>,
    digest: [u8; 32],
}

impl Model for Seg {
    ghost use Rattle.std.specs.Prelude.{◌≡◌};
    ghost use Rattle.sha2.specs.Sha256.{sha256};
    ghost use Rattle.container_meta.specs.Segments.{KindSegment};

    ghost Value = { KindSegment };

    ghost view = { λ s. record { kind = s.kind; segment = record { level = s.level; bytes = s.bytes.items } } };

    ghost invariant = { λ s. s.digest ≡ sha256 s.bytes.items };
}

impl Seg {
    ghost use Rattle.container_meta.specs.Segments.{segment_key};

    /// A segment of a file, of any length. The bytes are copied; it fails for want of memory alone.
    pub fn leaf(alloc: Global, bytes: &[u8]) -> Result<Seg, AllocError>
        ensures { IfOk result (λ s. s ≡ record { kind = Kind.Leaf; segment = record { level = 0; bytes = bytes.now } }) }
    {
        Seg::leaf_with_digest(alloc, bytes, digest_of(bytes))
    }

    /// The same, where the SHA-256 of the bytes is known: it is not taken again.
    pub fn leaf_with_digest(
        alloc: Global,
        bytes: &[u8],
        digest: [u8; 32],
    ) -> Result<Seg, AllocError>
        requires { digest ≡ sha256 bytes.now }
        ensures { IfOk result (λ s. s ≡ record { kind = Kind.Leaf; segment = record { level = 0; bytes = bytes.now } }) }
    {
        Ok(Seg {
            kind: Kind::Leaf,
            level: 0,
            bytes: Vec::from_slice(alloc, bytes)?,
            digest,
        })
    }

    /// A node of a file's tree, of any level and any bytes: a container takes it only where the level is one that nodes
    /// have, and the bytes are as many as a node's. The bytes are copied; it fails for want of memory alone.
    pub fn tree(alloc: Global, level: u8, bytes: &[u8]) -> Result<Seg, AllocError>
        ensures { IfOk result (λ s. s ≡ record { kind = Kind.Tree; segment = record { level = level; bytes = bytes.now } }) }
    {
        Ok(Seg {
            kind: Kind::Tree,
            level,
            bytes: Vec::from_slice(alloc, bytes)?,
            digest: digest_of(bytes),
        })
    }

    /// Whether the bytes are a file's or a node's.
    pub fn kind(&self) -> Kind
        ensures { result ≡ self.now.kind }
    {
        self.kind
    }

    /// Its height above the data: 0 for a part of a file, from 1 on for a node.
    pub fn level(&self) -> u8
        ensures { result ≡ self.now.segment.level }
    {
        self.level
    }

    /// Its bytes.
    pub fn bytes(&self) -> &[u8]
        ensures { result.now ≡ self.now.segment.bytes }
    {
        self.bytes.as_slice()
    }

    /// The SHA-256 of the bytes (FIPS 180-4), as it was taken when the segment was made.
    pub fn digest(&self) -> [u8; 32]
        ensures { result ≡ sha256 self.now.segment.bytes }
    {
        self.digest
    }

    /// The key: the kind's number, 0 or 1, then the digest.
    pub fn key(&self) -> Key
        ensures { result ≡ segment_key self.now.kind self.now.segment }
    {
        key_of(self.kind, &self.digest)
    }
}
