//! Laws of headers that are those of the tables (docs/MODEL.md, 'Collection').
ghost use Rattle.std.specs.Prelude.{◌≡◌, ◌⊎◌, ℕ, List, Option, Some, slice_get};
ghost use Rattle.container_meta.specs.Spelling.{HeaderValue, IsHeader};
ghost use Rattle.store_state.specs.Tables.{RepresentsSlots};
ghost use Rattle.store_state.specs.declared.slot_table.SlotTable.{SlotTable as SlotTableValue};
ghost use Rattle.copy_forward.specs.Collisions.{ShareDigest};
ghost use Rattle.copy_forward.specs.Headers.{IsTabled};

/// That a header that is the one of the tables is the one that the store has in the slot, unless the two share a digest.
pub fn a_header_of_the_tables_is_the_stores()
    ensures { (held : List (Option HeaderValue)) (t : SlotTableValue) (slot : ℕ) (g h : HeaderValue) → RepresentsSlots held t
        → slice_get held slot ≡ Some (Some g) → IsHeader g → IsHeader h → IsTabled t slot h → (h ≡ g) ⊎ ShareDigest g h }
{}
