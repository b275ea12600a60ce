//! Laws of a collection that is under way (docs/MODEL.md, 'Collection').
ghost use Rattle.std.specs.Prelude.{◌≡◌, ◌<◌, ℕ, List, Option, Contains, max};
ghost use Rattle.container_meta.specs.Spelling.{HeaderValue, IsHeader};
ghost use Rattle.disk_format.specs.declared.numbers.TheConstants.{RESERVE};
ghost use Rattle.gc_sweep.specs.UnderWay.{free_in};
ghost use Rattle.gc_enumerate.specs.Live.{LiveKeys};
ghost use Rattle.store_model.specs.Slots.{AreHeaders, with_slot};
ghost use Rattle.store_state.specs.Tables.{IsFirstFree, RepresentsSlots};
ghost use Rattle.store_state.specs.declared.slot_table.SlotTable.{SlotTable};
ghost use Rattle.gc_steps.specs.declared.collection.Collection.{Collection as CollectionValue};
ghost use Rattle.gc_steps.specs.Fresh.{AreFresh, IsAsLive, Unmarks};
ghost use Rattle.gc_steps.specs.Roots.{Marks};
ghost use Rattle.gc_steps.specs.StepsToCome.{steps_to_come};
ghost use Rattle.gc_steps.specs.UnderWay.{IsUnderWay};

/// That a container leaves it under way which is sealed into the first free slot, beside the slots of the reserve, under an id that is
/// greater than all before.
pub fn sealing_keeps_it_under_way()
    ensures { (held : List (Option HeaderValue)) (old new : SlotTable) (c : CollectionValue) (slot : ℕ) (h : HeaderValue)
        → IsFirstFree slot held → AreHeaders held → IsHeader h → RepresentsSlots held old → RepresentsSlots (with_slot slot h held) new
        → new.last_id ≡ max old.last_id h.id → old.last_id < h.id → RESERVE < free_in old → IsUnderWay old c → IsUnderWay new c }
{}

/// That as many steps come after such a sealing as before.
pub fn sealing_brings_no_steps()
    ensures { (held : List (Option HeaderValue)) (old new : SlotTable) (c : CollectionValue) (slot : ℕ) (h : HeaderValue) (chosen : ℕ)
        → IsFirstFree slot held → RepresentsSlots held old → RepresentsSlots (with_slot slot h held) new → old.last_id < h.id
        → IsUnderWay old c → steps_to_come chosen new c ≡ steps_to_come chosen old c }
{}

/// That it stays so whichever keys become live.
pub fn marking_keeps_it_under_way()
    ensures { (t : SlotTable) (c : CollectionValue) (live : LiveKeys) → IsUnderWay t c → IsUnderWay t (record c { live = live }) }
{}

/// That each key is as live as before, once just those are unmarked that became live.
pub fn unmarking_undoes_marking()
    ensures { (keys fresh : List (List ℕ)) (old mid new : LiveKeys) → Marks (Contains keys) old mid → AreFresh keys old fresh
        → Unmarks fresh mid new → IsAsLive old new }
{}
