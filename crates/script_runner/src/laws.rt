//! Laws of lines that are run (docs/MODEL.md, 'Scripts').
ghost use Rattle.script_runner.specs.AnyDisk.{LinesGoOn};
ghost use Rattle.script_runner.specs.Complete.{WhatCanBeDoneIsDone};
ghost use Rattle.script_runner.specs.Frame.{LinesKeepWritten, OpenedIsOn};
ghost use Rattle.script_runner.specs.LinesAreFileRuns.{BeginsAtFileDesk, LinesAreFileRuns, OpenedIsAtDesk, ScriptsAreFileRuns};
ghost use Rattle.script_runner.specs.LinesAreRuns.{BeginsAtDesk, LinesAreRuns, OpenedRunsByRoots, ScriptsAreRuns};

use dd_disk::Disk;
use store_core::HasState;

/// Lines over any core leave the same disk, later. Its count of faults rises where a line is refused by a failed call of the disk, and
/// stays as it was where none is. The function does nothing.
pub fn lines_go_on<C: HasState>()
    ensures { LinesGoOn C C.state }
{}

/// Whatever the containers of a disk hold: lines that are run one after the other change no byte of those that stood before them, nor of
/// the format cell, also where the store is opened again between them and where writes fail; and where they need no checkpoint, no byte
/// of what was written in the journal. They begin at a core that is on a store which the content is, with two closed slots, as one that was
/// opened just now; and two stay closed, so that no `reopen` gives a container back.
/// The function does nothing.
pub fn lines_keep_what_is_written<D: Disk, C: HasState>()
    ensures lines { LinesKeepWritten C C.state }
    ensures opened { OpenedIsOn D D.view C C.state }
{}

/// On any disk, also one that tells nothing, or lies: a line that is run over a core is a line of the machine of roots, which makes
/// its steps and gives its reply, where the core is that machine and the sessions took and were told what the machine's have. After it
/// that is so again; so are lines that are run one after the other, from a runner that begins. What was opened, at first or by a `reopen`,
/// is a store that reads showed, whose records name the roots of its names: so over a core that was opened just now `read` opens the root
/// that its name has then, and `next` gives what the tree of that root names. The function does nothing.
pub fn lines_are_runs<D: Disk, C: HasState>()
    ensures lines { LinesAreRuns C C.state }
    ensures scripts { ScriptsAreRuns C C.state }
    ensures begins { BeginsAtDesk C C.state }
    ensures opened { OpenedRunsByRoots D D.view C C.state }
{}

/// Where no two different data segments that are stored, or are cut by now from what actors give, have one digest: a line that is run over
/// a core that is the machine of files is a line of that machine, which makes its steps and gives its reply, where what each actor has
/// kept of its file is held and pinned. After it that is so again; and at any moment of it, also inside a write, a crash leaves an image
/// that can be opened as files that may be found at some machine to which its steps come, or one that it might have left before. So are
/// lines that are run one after the other, from a runner that begins. The function does nothing.
pub fn lines_are_file_runs<C: HasState>()
    ensures lines { LinesAreFileRuns C C.state }
    ensures scripts { ScriptsAreFileRuns C C.state }
    ensures begins { BeginsAtFileDesk C C.state }
{}

/// Of a disk whose content may stand for the files of a machine: what was opened is a machine of files to which that may come by an
/// opening, and lines may begin there, where no actor gives a file. The function does nothing.
pub fn an_opened_core_is_at_a_desk<D: Disk, C: HasState>()
    ensures { OpenedIsAtDesk D D.view C C.state }
{}

/// What can be done is done: in lines of the machine of files that runs, where no actor is at anything, and of a disk that tells its
/// content, with the bytes of each step traced. Where no reply blames a call of the disk, a `reopen` that is refused is the last line, and
/// no two different segments, nor two different nodes, that are given or held on the way have one SHA-256, a line is done, or refused for
/// what its user can see: the name, the actor, the length, the number, the free slots, or want of memory; and the machine still runs,
/// unless there was no memory to open it again. The function does nothing.
pub fn what_can_be_done_is_done()
    ensures { WhatCanBeDoneIsDone }
{}
