//! A store in memory.
ghost use Rattle.std.specs.Prelude.{◌≡◌, ℕ, List, Option, Some};
ghost use Rattle.store_model.specs.Image.{Store, IsValidFor};
ghost use Rattle.store_model.specs.Slots.{HasFree, IsIndexOf};
ghost use Rattle.store_state.specs.State.{Represents};
ghost use Rattle.store_state.specs.Tables as running;

use crate::containers::Containers;
use crate::slot_table::SlotTable;
use crate::tables::Tables;
use journal_cells::Journal;
use namespace::Names;
use segment_index::{Index, StoreIndex};

/// A store in memory: the tables that its steps go by. `specs/State.antt` says which store they represent.
#[derive(Drop)]
pub struct OpenStore {
    /// How many container slots the disk has.
    pub slots: u32,
    pub journal: Journal,
    pub names: Names,
    pub containers: Containers,
}

impl OpenStore {
    /// The tables of the running store, and its index. It takes no memory.
    pub fn into_running(self) -> (Tables, StoreIndex)
        // They are those of whatever store was opened.
        ensures represents { (store : Store) → Represents store self → running.Represents store (Some result.1) result.0 }
        // So where a slot is free, they are those of a store that runs.
        ensures runs { (size : ℕ) (store : Store) → Represents store self → IsValidFor size store
            → HasFree store.held → running.Runs size (Some result.1) result.0 }
        // The last id is that of the store.
        ensures ids { result.0.held.last_id ≡ self.containers.last_id }
        // The index has each key that the store holds.
        ensures whole { (store : Store) → Represents store self → IsIndexOf store.held result.1 }
        // Of the index the map is known, whatever the disk tells, and it serves the disk of that store.
        ensures known { (content : Option (List ℕ)) → ⟦<StoreIndex as Index>⟧.places result.1 content ≡ Some result.1 }
        ensures serves { (size : ℕ) (store : Store) → Represents store self → IsValidFor size store
            → ⟦<StoreIndex as Index>⟧.serves result.1 size }
    {
        let containers = self.containers;
        let held = SlotTable {
            ids: containers.ids,
            counts: containers.counts,
            last_id: containers.last_id,
        };
        let tables = Tables {
            slots: self.slots,
            journal: self.journal,
            names: self.names,
            held,
        };
        (tables, containers.index)
    }
}
