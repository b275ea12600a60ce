//! Laws of runs of the plain store.
ghost use Rattle.store_machine.specs.ByMap.{DeletesByMap, DeletesThrough, ListsByMap, ListsThrough, RestoresByMap, RestoresThrough};
ghost use Rattle.store_machine.specs.CollectsAlone.{CollectsByMap, CollectsThrough};
ghost use Rattle.store_machine.specs.Collected.{CollectsWhatItSelected};
ghost use Rattle.store_machine.specs.Forgetting.{RunsAreForgotten, StepsAreForgotten};
ghost use Rattle.store_machine.specs.Ingests.{IngestsByMap, IngestsClash, IngestsThrough};
ghost use Rattle.store_machine.specs.Remembering.{AddsNoMore, StepsAreRemembered};
ghost use Rattle.store_machine.specs.Twins.{UnpinnedHasTwins};
ghost use Rattle.store_machine.specs.Values.{of_files, of_roots};

/// A step of the machine of files is one of the machine of roots, once all but the roots of its files is forgotten; and so is a run of
/// steps. So what holds of the machine of roots, on any disk, holds of that of files. The function does nothing.
pub fn runs_are_forgotten()
    ensures steps { StepsAreForgotten }
    ensures runs { RunsAreForgotten }
{}

/// A step of the machine of roots is one of the machine of files that it has forgotten, where what the content of a disk adds to it is so;
/// and it has forgotten what that leaves. So what is proved of the machine of roots, on any disk, need not be proved again of that of
/// files, but for what the content adds; and that is no more than is so of each step of the machine of files. The function does nothing.
pub fn steps_are_remembered()
    ensures steps { StepsAreRemembered }
    ensures no_more { AddsNoMore }
{}

/// After the lines of an `ingest`, and whatever they were refused by, the names that may be found are those of before, or these with the
/// file that was given under its name, which is good, and the file no longer than one may be; and so it is at each moment of their steps.
/// The store is what the opening left, with containers of pieces of the file that no container before holds. Where the last line was done
/// the names are the latter, the store has the name's record, and the file's root is printed. Each refusal has its cause: where a container
/// found no slot, or no id, a piece is held by nothing, and by the name it is refused once all of them are held; what clashes is a piece.
/// Only a write that failed leaves a doubt. The lines came to an end, or one is to come, as in each of the laws below. The function does
/// nothing.
pub fn an_ingest_puts_its_file()
    ensures ended { IngestsByMap }
    ensures clashes { IngestsClash }
    ensures through { IngestsThrough }
{}

/// A collection that comes to its end, whatever steps of others came between: none of the containers that it selected is left, each other
/// one is where it was, and so is each that was sealed or written since, and no other; and what it wrote are just the keys that its
/// copying steps took, each once. The function does nothing.
pub fn a_collection_does_what_it_selected()
    ensures { CollectsWhatItSelected of_files }
{}

/// After the lines of a `restore`, and whatever they were refused by, the names are what they were, also at each moment of their steps, and
/// the store is what the opening left; what is printed is a first part of the name's file, and where the last line was done all of it; and
/// each refusal has its cause. The function does nothing.
pub fn a_restore_gives_its_file()
    ensures ended { RestoresByMap }
    ensures through { RestoresThrough }
{}

/// After the line of a `delete`, done or refused, the names that may be found are those of before, or these without its name, which had a
/// file, and so it is at each moment of its steps. Where it was done they are the latter, the store has its record, and the name is
/// printed; else the store is what the opening left. Each refusal has its cause, and only a write that failed leaves a doubt. The function
/// does nothing.
pub fn a_delete_takes_its_name()
    ensures ended { DeletesByMap }
    ensures through { DeletesThrough }
{}

/// After the line of a `list` the names are what they were, also at each moment of its steps, and the store is what the opening left; where
/// it was done just the names are printed, each with its length and root. The function does nothing.
pub fn a_list_tells_the_names()
    ensures ended { ListsByMap }
    ensures through { ListsThrough }
{}

/// After the lines of a `collect` the names are what they were, also at each moment of their steps. Where it was done it is printed how
/// many containers were given back, each of which held the newest copy of nothing that the names need, and how many segments were copied;
/// what it selected is gone, by the percentage and by how much of each container the names need, and what they need of that, and no more,
/// was copied, each piece once; no container is left of which they need nothing, and at 100 percent they need all. Where it was refused the
/// store has the changes that came before. The ids of what it wrote follow the last one, one after the other. Each refusal has its cause,
/// and but for a write that failed the slots of the reserve are closed. The function does nothing.
pub fn a_collect_keeps_the_names()
    ensures ended { CollectsByMap }
    ensures through { CollectsThrough }
{}

/// From where no actor gives a file on, a line is refused since a segment lacks a pin only where two different segments, or two different
/// nodes, of what an actor gives as it begins have one SHA-256: each child of a node that is claimed or sealed, and the root that a name is
/// to have, was answered Held, or sealed, before, and was pinned then. So it is of the machine of files and of that of roots, on any disk.
/// The function does nothing.
pub fn unpinned_has_twins()
    ensures files { UnpinnedHasTwins of_files }
    ensures roots { UnpinnedHasTwins of_roots }
{}
