//! Which containers a collection rewrites.
ghost use Rattle.std.specs.Prelude.{◌≡◌, ◌↔◌, ℕ, List, Contains, nat_eq, IfOk};
ghost use Rattle.std.specs.List.{IsDistinct};
ghost use Rattle.std.specs.List.Sorted.{IsPermutation};
ghost use Rattle.gc_select.specs.Selecting.{is_selected as is_selected_by, selected, IsSelectedId, ids_of, sources_of, AreSources};

use crate::liveness::{ContainerLiveness, Liveness};
use container_meta::Kind;
use std::alloc::{AllocError, Global};

/// Whether a container is rewritten: it is from below the snapshot, and a smaller part of it than the percentage is live, or
/// nothing is.
fn is_selected(container: &ContainerLiveness, snapshot: u64, percent: u8) -> bool
    ensures { result ≡ is_selected_by snapshot percent container.now }
{
    let live = u64::from(container.live);
    let all = u64::from(container.all);
    container.id < snapshot && (live * 100 < u64::from(percent) * all || live == 0)
}

/// The ids of the containers that a collection with this snapshot and percentage rewrites: data before trees, and by rising
/// id. It fails for want of memory alone.
pub fn select(
    alloc: Global,
    liveness: &Liveness,
    snapshot: u64,
    percent: u8,
) -> Result<Vec<u64>, AllocError>
    // Which ids: each as often as it was recorded.
    ensures which { IfOk result (λ ids. (id : ℕ) → Contains ids.items id ↔ IsSelectedId snapshot percent liveness.now id) }
    ensures each { IfOk result (λ ids. IsPermutation (ids_of (selected snapshot percent liveness.now)) ids.items) }
    ensures apart { IfOk result (λ ids. IsDistinct nat_eq (ids_of liveness.now) → IsDistinct nat_eq ids.items) }

    // In which order: that of no other list.
    ensures ids { IfOk result (λ ids. ids.items ≡ sources_of (selected snapshot percent liveness.now)) }
    ensures sources { IfOk result (λ ids. AreSources (selected snapshot percent liveness.now) ids.items) }
    ensures only { IfOk result (λ ids. (other : List ℕ) → AreSources (selected snapshot percent liveness.now) other
        → other ≡ ids.items) }
{
    let mut ids = Vec::new(alloc);
    let mut tree_ids = Vec::new(alloc);
    for container in &liveness.containers {
        if is_selected(container, snapshot, percent) {
            match container.kind {
                Kind::Leaf => ids.push(container.id)?,
                Kind::Tree => tree_ids.push(container.id)?,
            }
        }
    }
    ids.sort_unstable();
    tree_ids.sort_unstable();
    ids.extend_from_slice(&tree_ids)?;
    Ok(ids)
}
