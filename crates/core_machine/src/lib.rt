//! A core as the machine: its steps and its openings, of roots on any disk, and of files where the disk tells its content.
#![tactic(auto)]

ghost use Rattle.core_machine.specs.FileOpenings.{DisksStand, FilesOpened, FilesReopenedNot, FilesUnopened};
ghost use Rattle.core_machine.specs.Files.{FileRunsRefine, FilesRefine};
ghost use Rattle.core_machine.specs.Openings.{OpenedRefines, UnopenedRefines};
ghost use Rattle.core_machine.specs.Refines.{CoreRefines};
ghost use Rattle.core_machine.specs.Runs.{RunsRefine};
ghost use Rattle.core_machine.specs.Unopened.{FilesBegin, FormattedBegins};

use dd_disk::Disk;
use store_core::HasState;

/// On any disk, also one that tells nothing, or lies: what a core does by a step, done or refused, the machine of roots may do, and they
/// fit one another then as before; so steps of any actors are a run of the machine. What a collection writes, gives back and forgets is the
/// same in both. The function does nothing.
pub fn a_core_is_the_machine<C: HasState>()
    ensures steps { CoreRefines C C.state }
    ensures runs { RunsRefine C C.state }
{}

/// On any disk: what has been opened is a machine of roots, of the store that reads showed, which each machine may come to by an opening;
/// and a core that could not be opened again is the machine that it was, or is stopped, to which the machine may come as well, by the
/// stores that may stand then. The function does nothing.
pub fn an_opening_is_the_machines<D: Disk, C: HasState>()
    ensures opened { OpenedRefines D D.view C C.state }
    ensures reopened { OpenedRefines C (λ c. (C.state c).disk) C C.state }
    ensures unopened { UnopenedRefines C (λ c. (C.state c).disk) C C.state }
{}

/// Over a disk that tells its content, and data without collisions: what a core does by a step, done or refused, the machine of files may
/// do, where the root of a commit is that of its bytes and its tree is held; and they fit one another then as before. So steps of any
/// actors are a run of it. After each step the disk stands for the machine's files, also where the core is stopped: what reads give, and
/// each image that a crash may leave then, is a store that may stand of files that may be found, and can be opened. Which bytes of the disk
/// a step may have changed is told, and what held ones it compared with. At any moment of such steps, also inside a write, a crash leaves
/// files that their run comes by, or what it might have left before. The function does nothing.
pub fn a_core_is_the_machine_of_files<C: HasState>()
    ensures steps { FilesRefine C C.state }
    ensures runs { FileRunsRefine C C.state }
    ensures stands { DisksStand C C.state }
{}

/// Of a disk whose content may stand for the files of a machine: what has been opened, at first or again, is a machine of files to which
/// that may come by an opening; where it is refused containers may have been given back, as the machine may, and the content may stand for
/// its files still; of the bytes nothing but the gates of these is another. At any moment of an opening, also as containers are given back,
/// a crash leaves an image that can be opened as files that might be found before it, or one that it might have left before. The function
/// does nothing.
pub fn an_opening_finds_its_files<D: Disk, C: HasState>()
    ensures opened { FilesOpened D D.view C C.state }
    ensures reopened { FilesOpened C (λ c. (C.state c).disk) C C.state }
    ensures unopened { FilesUnopened D D.view }
    ensures unopened_again { FilesReopenedNot C C.state }
{}

/// An image that can be opened as files may be that of a machine that has these files and is not open yet; one that was formatted, of a
/// machine without names. The function does nothing.
pub fn an_image_of_files_is_a_machine()
    ensures begins { FilesBegin }
    ensures formatted { FormattedBegins }
{}
