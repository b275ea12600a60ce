//! What others do to a sweep that is under way (docs/MODEL.md, 'Sweeping').
ghost use Rattle.std.specs.Prelude.{◌<◌, ℕ, List, Option};
ghost use Rattle.container_meta.specs.Spelling.{HeaderValue, IsHeader};
ghost use Rattle.disk_format.specs.declared.numbers.TheConstants.{RESERVE};
ghost use Rattle.store_model.specs.Slots.{AreHeaders, with_slot};
ghost use Rattle.store_state.specs.Tables.{IsFirstFree, RepresentsSlots};
ghost use Rattle.store_state.specs.declared.slot_table.SlotTable.{SlotTable};
ghost use Rattle.gc_sweep.specs.UnderWay.{IsSweeping, free_in};
ghost use Rattle.gc_sweep.specs.declared.sweep.Sweep.{Sweep as SweepValue};

/// That a container leaves it under way which another seals into the first free slot, beside the slots of the reserve.
pub fn sealing_keeps_it_sweeping()
    ensures { (held : List (Option HeaderValue)) (old new : SlotTable) (snapshot : ℕ) (s : SweepValue) (slot : ℕ) (h : HeaderValue)
        → IsFirstFree slot held → AreHeaders held → IsHeader h → RepresentsSlots held old → RepresentsSlots (with_slot slot h held) new
        → RESERVE < free_in old → IsSweeping old snapshot s → IsSweeping new snapshot s }
{}
