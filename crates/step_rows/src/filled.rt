//! Containers for a seal.
ghost use Rattle.std.specs.Prelude.{◌≡◌, false};
ghost use Rattle.container_meta.specs.declared.kind.Kind;
ghost use Rattle.container_meta.specs.Segments.{has_key, segment_key};
ghost use Rattle.actor_parts.specs.Segments.{IsStepSegment, AreStepSegments};

use container_meta::{Fit, Kind, OpenContainer, Seg};
use std::alloc::{AllocError, Global};
use std::marker::Model;
use transcripts::Fault;

/// A container whose segments may each stand in a step.
#[derive(Drop)]
pub(crate) struct Filled {
    container: OpenContainer,
}

impl Model for Filled {
    ghost use Rattle.container_meta.specs.Segments.{Contents};
    ghost use Rattle.actor_parts.specs.Segments.{AreStepSegments};

    ghost Value = { Contents };

    ghost view = { λ f. f.container };

    ghost invariant = { λ f. AreStepSegments f.container.kind f.container.segments };
}

impl Filled {
    pub(crate) fn new(alloc: Global, kind: Kind) -> Result<Filled, AllocError> {
        Ok(Filled {
            container: OpenContainer::new(alloc, kind)?,
        })
    }

    pub(crate) fn container(&self) -> &OpenContainer
        ensures value { result.now ≡ self.now }
        ensures right { AreStepSegments result.now.kind result.now.segments }
    {
        &self.container
    }

    /// Adds a segment of the container's kind that isn't there yet and fits.
    pub(crate) fn add(&mut self, seg: &Seg) -> Result<(), Fault>
        requires { IsStepSegment seg.now }
    {
        if self.container.has(&seg.key()) {
            return Err(Fault::Line);
        }
        match (self.container.kind(), seg.kind()) {
            (Kind::Leaf, Kind::Leaf) => self.add_leaf(seg),
            (Kind::Tree, Kind::Tree) => self.add_node(seg),
            _ => Err(Fault::Line),
        }
    }

    fn add_leaf(&mut self, seg: &Seg) -> Result<(), Fault>
        requires kinds { (self.old.kind ≡ Kind.Leaf) × (seg.now.kind ≡ Kind.Leaf) }
        requires new { has_key self.old (segment_key seg.now.kind seg.now.segment) ≡ false }
    {
        let length = seg.bytes().len();
        if seg.level() != 0 || !(1..=16_384).contains(&length) {
            return Err(Fault::Line);
        }
        added(self.container.try_add(seg))
    }

    fn add_node(&mut self, seg: &Seg) -> Result<(), Fault>
        requires kinds { (self.old.kind ≡ Kind.Tree) × (seg.now.kind ≡ Kind.Tree) }
        requires right { IsStepSegment seg.now }
        requires new { has_key self.old (segment_key seg.now.kind seg.now.segment) ≡ false }
    {
        let length = seg.bytes().len();
        let children = length.saturating_sub(4) / 40;
        if !(1..=64).contains(&children) || length != 4 + 40 * children {
            return Err(Fault::Line);
        }
        if !(1..=6).contains(&seg.level()) {
            return Err(Fault::Line);
        }
        added(self.container.try_add(seg))
    }
}

fn added(fit: Fit) -> Result<(), Fault> {
    match fit {
        Fit::Added => Ok(()),
        Fit::NoRoom => Err(Fault::Line),
    }
}
