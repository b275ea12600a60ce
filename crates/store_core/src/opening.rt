//! Opening a core.
ghost use Rattle.std.specs.Prelude.{◌≡◌, List, None, Option, Some, ℕ, IfOk, IfErr, OnOk};
ghost use Rattle.store_model.specs.Image.{Store, IsValidFor};
ghost use Rattle.store_state.specs.State.{Represents};
ghost use Rattle.store_state.specs.Tables as running;
ghost use Rattle.store_core.specs.Core.{IndexesAll};
ghost use Rattle.store_core.specs.Opening.{LeavesUnread, OpensCore, OpensNone, StaysOrStops};
ghost use Rattle.store_core.specs.State.{IsRunning};

use crate::running::Core;
use crate::state::HasState;
use crate::stop::Stop;
use actor_parts::Parts;
use dd_disk::Disk;
use recovery::{Unopened, open};
use refusals::Refusal;
use segment_index::{Index, StoreIndex};
use std::alloc::Global;
use store_state::{OpenStore, Tables};
use summary_vector::Summary;

// The tables and the index of a store that was opened.
fn start(found: OpenStore) -> (Tables, StoreIndex)
    ensures represents { (store : Store) → Represents store found → running.Represents store (Some result.1) result.0 }
    ensures whole { (store : Store) → Represents store found → IndexesAll store (Some result.1) }
    ensures ids { result.0.held.last_id ≡ found.containers.last_id }
    ensures known { (content : Option (List ℕ)) → ⟦<StoreIndex as Index>⟧.places result.1 content ≡ Some result.1 }
    ensures serves { (size : ℕ) (store : Store) → Represents store found → IsValidFor size store
        → ⟦<StoreIndex as Index>⟧.serves result.1 size }
{
    found.into_running()
}

// Opens the store of a disk: its tables and its index, and the parts of actors that are all idle.
fn open_store<D: Disk>(alloc: Global, disk: &mut D) -> Result<(Tables, StoreIndex, Parts), Unopened>
    ensures opened { IfOk result (λ r. OpensCore D D.view (D.view disk.old) (record {
      disk = D.view disk.new;
      tables = r.0;
      known = ⟦<StoreIndex as Index>⟧.places r.1 (D.view disk.new).content;
      served = ⟦<StoreIndex as Index>⟧.serves r.1 (D.view disk.new).size;
      breaks = ⟦<StoreIndex as Index>⟧.breaks r.1;
      parts = r.2;
      collection = None;
      stop = None;
      acknowledged = 0;
    })) }
    ensures refused { IfErr result (λ u. OpensNone D D.view u.refusal (D.view disk.old) (D.view disk.new)) }
    ensures wrote { IfErr result (λ u. LeavesUnread D D.view u.wrote u.refusal (D.view disk.old) (D.view disk.new)) }
{
    // Their memory is taken before anything is written.
    let Ok(parts) = Parts::new(alloc) else {
        return Err(Unopened {
            refusal: Refusal::Memory,
            wrote: false,
        });
    };
    let found = match open(alloc, disk) {
        Ok(found) => found,
        Err(unopened) => return Err(unopened),
    };
    let (tables, index) = start(found);
    Ok((tables, index, parts))
}

impl<D: Disk, M: Summary + Drop> Core<D, M> {
    /// Opens the store on a disk. The refusals are those of `recovery::open`, and hand the disk back.
    pub fn open(alloc: Global, disk: D, summary: M) -> Result<Core<D, M>, (D, Refusal)>
        ensures opened { IfOk result (λ c. OpensCore D D.view (D.view disk) (⟦<Core<D, M> as HasState>⟧.state c)) }
        ensures running { IfOk result (λ c. IsRunning (⟦<Core<D, M> as HasState>⟧.state c)) }
        ensures summary { IfOk result (λ c. (⟦<Core<D, M> as HasState>⟧.there c ≡ M.there summary)
            × (⟦<Core<D, M> as HasState>⟧.banks c ≡ M.banks summary)) }
        ensures refused { IfErr result (λ r. OpensNone D D.view r.1 (D.view disk) (D.view r.0)) }
    {
        let mut disk = disk;
        let (tables, index, parts) = match open_store(alloc, &mut disk) {
            Ok(found) => found,
            Err(unopened) => return Err((disk, unopened.refusal)),
        };
        Ok(Core {
            alloc,
            disk,
            tables,
            index,
            parts,
            summary,
            collection: None,
            stop: None,
            acknowledged: 0,
        })
    }
}

impl<D: Disk, M: Summary> Core<D, M> {
    /// Opens the store on its disk again, in place, and makes room where it has to: tables, index and parts are those that an opening of it
    /// makes, and a core that was stopped runs. The refusals are those of `recovery::open`. Where nothing was written they leave the core
    /// as it was, but that its disk was read. Else it is stopped, as its tables may not be those of the disk any more.
    pub fn reopen(&mut self) -> Result<(), Refusal>
        ensures opened { OnOk result (OpensCore (Core D M) (λ c. (⟦<Core<D, M> as HasState>⟧.state c).disk)
            (⟦<Core<D, M> as HasState>⟧.state self.old).disk (⟦<Core<D, M> as HasState>⟧.state self.new)) }
        ensures running { OnOk result (IsRunning (⟦<Core<D, M> as HasState>⟧.state self.new)) }
        ensures summary { (⟦<Core<D, M> as HasState>⟧.there self.new ≡ ⟦<Core<D, M> as HasState>⟧.there self.old)
            × (⟦<Core<D, M> as HasState>⟧.banks self.new ≡ ⟦<Core<D, M> as HasState>⟧.banks self.old) }
        ensures refused { IfErr result (λ refusal. OpensNone (Core D M) (λ c. (⟦<Core<D, M> as HasState>⟧.state c).disk) refusal
            (⟦<Core<D, M> as HasState>⟧.state self.old).disk (⟦<Core<D, M> as HasState>⟧.state self.new).disk) }
        ensures kept { IfErr result (λ refusal. StaysOrStops (Core D M) (λ c. (⟦<Core<D, M> as HasState>⟧.state c).disk) refusal
            (⟦<Core<D, M> as HasState>⟧.state self.old) (⟦<Core<D, M> as HasState>⟧.state self.new)) }
        ensures runs_on { IsRunning (⟦<Core<D, M> as HasState>⟧.state self.old)
            → IsRunning (⟦<Core<D, M> as HasState>⟧.state self.new) }
    {
        let (tables, index, parts) = match open_store(self.alloc, &mut self.disk) {
            Ok(found) => found,
            Err(unopened) => {
                if unopened.wrote {
                    self.stop = Some(Stop {
                        refusal: unopened.refusal,
                        at: self.acknowledged,
                    });
                }
                return Err(unopened.refusal);
            }
        };
        self.tables = tables;
        self.index = index;
        self.parts = parts;
        self.collection = None;
        self.stop = None;
        self.acknowledged = 0;
        Ok(())
    }
}
