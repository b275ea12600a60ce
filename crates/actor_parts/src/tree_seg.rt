//! Segments of trees.
ghost use Rattle.std.specs.Prelude.{◌≡◌, IfOk};
ghost use Rattle.actor_parts.specs.Segments.{IsStepSegment, node_segment};

use container_meta::Seg;
use merkle_file::Node;
use std::alloc::{AllocError, Global};

/// The segment of a node: its level, and its one spelling. It fails for want of memory alone.
pub fn node_seg(alloc: Global, node: &Node) -> Result<Seg, AllocError>
    ensures segment { IfOk result (λ s. s ≡ node_segment node.now) }
    ensures right { IfOk result IsStepSegment }
{
    let bytes = node.encode(alloc)?;
    Seg::tree(alloc, node.level(), &bytes)
}
