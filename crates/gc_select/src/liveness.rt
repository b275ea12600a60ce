//! What a collection records of each container when it filters.
ghost use Rattle.std.specs.Prelude.{◌≡◌, ◌∷◌, ◌++◌, [], OnOk, OnErr};

use container_meta::Kind;
use std::alloc::{AllocError, Global};
use std::marker::Model;

/// How much of a container is live.
#[derive(Clone, Copy)]
pub struct ContainerLiveness {
    /// The container's id.
    pub id: u64,
    /// The kind of all its segments.
    pub kind: Kind,
    /// The bytes of its segments that are live and the index's copy.
    pub live: u32,
    /// The bytes of all its segments.
    pub all: u32,
}

/// How much of each container is live, in the order in which they were recorded. Contracts see it as the list of them.
#[derive(Drop)]
pub struct Liveness {
    pub(crate) containers: Vec<ContainerLiveness>,
}

impl Model for Liveness {
    ghost use Rattle.std.specs.Prelude.{List};
    ghost use Rattle.gc_select.specs.declared.liveness.ContainerLiveness.{ContainerLiveness};

    ghost Value = { List ContainerLiveness };

    ghost view = { λ l. l.containers.items };
}

impl Liveness {
    /// Of no container yet.
    pub fn new(alloc: Global) -> Liveness
        ensures { result ≡ [] }
    {
        Liveness {
            containers: Vec::new(alloc),
        }
    }

    /// Records a container behind the others. It fails for want of memory alone.
    pub fn push(&mut self, container: ContainerLiveness) -> Result<(), AllocError>
        ensures ok { OnOk result (self.new ≡ self.old ++ container ∷ []) }
        ensures err { OnErr result (self.new ≡ self.old) }
    {
        self.containers.push(container)?;
        Ok(())
    }
}
