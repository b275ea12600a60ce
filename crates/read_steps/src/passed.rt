//! The nodes that a walk has come to.
ghost use Rattle.std.specs.Prelude.{◌≡◌, Ok, true, false, is_some, OnOk, OnErr};
ghost use Rattle.std.specs.FinMap as finite;
ghost use Rattle.read_steps.specs.Passed.{NotesNext, WasNoted, named_key};

use merkle_file::{Cursor, Hash, Want};
use std::alloc::{AllocError, Global};
use std::collections::BTreeMap;
use std::marker::Model;

/// How many bytes name a node.
const NAMED: usize = 41;

/// A node as its parent or a root names it: its level, its length and its digest.
type Named = [u8; NAMED];

// The bytes of these.
fn named(level: u8, length: u64, digest: &Hash) -> Named
    ensures { result ≡ named_key level length digest.now }
{
    let mut key = [0u8; NAMED];
    key[0] = level;
    key[1..9].copy_from_slice(&length.to_be_bytes());
    key[9..].copy_from_slice(digest);
    key
}

/// Nodes that a walk has come to, each by its level, its length and its digest.
#[derive(Drop)]
pub(crate) struct Passed {
    nodes: BTreeMap<Named, ()>,
}

impl Model for Passed {
    ghost use Rattle.std.specs.FinMap as finite;
    ghost use Rattle.read_steps.specs.Passed.{NodeSet, coded_nodes};

    ghost Value = { NodeSet };

    ghost coded = { coded_nodes };

    ghost view = { λ p. finite.from_entries p.nodes.entries };
}

impl Passed {
    /// No node. The allocator is kept, so that `note` takes none.
    pub(crate) fn new(alloc: Global) -> Passed
        ensures { result ≡ finite.empty }
    {
        Passed {
            nodes: BTreeMap::new(alloc),
        }
    }

    // Whether a node is there.
    fn has(&self, key: &Named) -> bool
        ensures { result ≡ is_some (finite.get self.now key.now) }
    {
        self.nodes.get(key).copied().is_some()
    }

    // One node more.
    fn add(&mut self, key: &Named) -> Result<(), AllocError>
        ensures ok { OnOk result (self.new ≡ finite.insert self.old key.now tt) }
        ensures err { OnErr result (self.new ≡ self.old) }
    {
        self.nodes.insert(*key, ())?;
        Ok(())
    }

    /// Whether the node that comes first on a walk is there; else it is added. A segment is not, and neither is the end. It fails
    /// for want of memory alone, and changes nothing then.
    pub(crate) fn note(&mut self, cursor: &Cursor) -> Result<bool, AllocError>
        ensures there { result ≡ Ok true → WasNoted self.old cursor.now × (self.new ≡ self.old) }
        ensures new { result ≡ Ok false → NotesNext cursor.now self.old self.new }
        ensures err { OnErr result (self.new ≡ self.old) }
    {
        let Want::Node {
            digest,
            level,
            length,
        } = cursor.want()
        else {
            return Ok(false);
        };
        let key = named(level, length, &digest);
        if self.has(&key) {
            return Ok(true);
        }
        self.add(&key)?;
        Ok(false)
    }
}
