//! The tables of a running store.

use crate::slot_table::SlotTable;
use journal_cells::Journal;
use namespace::Names;

/// The tables that the steps of a running store go by, but for its index. `specs/Tables.antt` says which store they
/// represent.
#[derive(Drop)]
pub struct Tables {
    /// How many container slots the disk has.
    pub slots: u32,
    pub journal: Journal,
    pub names: Names,
    pub held: SlotTable,
}
