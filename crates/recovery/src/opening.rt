//! Opening a store.
ghost use Rattle.std.specs.Prelude.{◌≡◌, ◌≤◌, IsTrue, OnOk, IfOk, IfErr};
ghost use Rattle.disk_format.specs.Layout.{IsSlotCount, size_of};
ghost use Rattle.dd_disk.specs.View.{IsDurable};
ghost use Rattle.dd_disk.specs.Ending.{ending, Reads};
ghost use Rattle.dd_disk.specs.Shows.{Shows};
ghost use Rattle.journal_cells.specs.Journal.{IsScanned};
ghost use Rattle.store_model.specs.Image.{Store, Encodes, HasFormat};
ghost use Rattle.store_state.specs.Refused.{blames, fails};
ghost use Rattle.recovery.specs.Opening.{IsSized, IsFound, IsOpened, Opens, IsBeginRefusal, IsOpenRefusal, IsFormatRefusal, cell_refusal};
ghost use Rattle.recovery.specs.Room.{IsNotFull, LeavesOf, Opening, as_refused};

use crate::room::make_room;
use crate::slots::read_slots;
use crate::unopened::Unopened;
use dd_disk::{Disk, DiskFault, sync_all};
use disk_format::{LEAST_SIZE, RESERVE, size_of};
use journal_cells::{CellFault, Journal, scan, slots_of};
use namespace::Names;
use refusals::Refusal;
use std::alloc::Global;
use store_state::OpenStore;

/// The format cell and the journal, as they were read.
#[derive(Drop)]
struct Front {
    slots: u32,
    journal: Journal,
    names: Names,
}

// A fault of a cell as a refusal.
fn refused_by(fault: CellFault) -> Refusal
    ensures { result ≡ cell_refusal fault }
{
    match fault {
        CellFault::Memory => Refusal::Memory,
        CellFault::DiskRead => Refusal::DiskRead,
        CellFault::DiskWrite => Refusal::DiskWrite,
        CellFault::Damaged { at, why } => Refusal::Damaged { at, why },
        CellFault::NotAStore { gate, magic } => Refusal::NotAStore { gate, magic },
        CellFault::Version { n } => Refusal::Version { n },
        CellFault::Numbers => Refusal::Numbers,
    }
}

// Syncs the disk, and sees that it isn't smaller than each may be.
fn begin<D: Disk>(disk: &mut D) -> Result<(), Refusal>
    ensures least { OnOk result (LEAST_SIZE ≤ (D.view disk.old).size) }
    ensures durable { OnOk result (IsDurable (D.view disk.new)) }
    ensures reads { Reads (ending blames result) (D.view disk.old) (D.view disk.new) }
    ensures refused { IfErr result (IsBeginRefusal (D.view disk.old).size) }
    ensures not_full { IfErr result IsNotFull }
{
    match sync_all(disk) {
        Ok(()) => {}
        Err(DiskFault) => return Err(Refusal::DiskWrite),
    }
    let got = disk.size();
    if got < LEAST_SIZE {
        return Err(Refusal::WrongSize {
            want: LEAST_SIZE,
            got,
        });
    }
    Ok(())
}

// The number of slots that the format cell says.
fn count_slots<D: Disk>(disk: &mut D) -> Result<u32, Refusal>
    ensures least { OnOk result (LEAST_SIZE ≤ (D.view disk.old).size) }
    ensures count { IfOk result IsSlotCount }
    ensures format { IfOk result (λ slots. Shows (D.view disk.old) (D.view disk.new) (HasFormat slots)) }
    ensures only { IfErr result (λ refusal. Shows (D.view disk.old) (D.view disk.new) (λ image. (store : Store)
        → Encodes image store → IsTrue (fails refusal))) }
    ensures durable { OnOk result (IsDurable (D.view disk.new)) }
    ensures reads { Reads (ending blames result) (D.view disk.old) (D.view disk.new) }
    ensures format_refused { IfErr result (IsFormatRefusal (Shows (D.view disk.old) (D.view disk.new)) (D.view disk.old).size) }
    ensures not_full { IfErr result IsNotFull }
{
    begin(disk)?;
    match slots_of(disk) {
        Ok(slots) => Ok(slots),
        Err(fault) => Err(refused_by(fault)),
    }
}

/// The number of slots of a disk that has their size.
pub(crate) fn read_format<D: Disk>(disk: &mut D) -> Result<u32, Refusal>
    ensures sized { IfOk result (IsSized (Shows (D.view disk.old) (D.view disk.new)) (D.view disk.old).size) }
    ensures only { IfErr result (λ refusal. Shows (D.view disk.old) (D.view disk.new) (λ image. (store : Store)
        → Encodes image store → IsTrue (fails refusal))) }
    ensures durable { OnOk result (IsDurable (D.view disk.new)) }
    ensures reads { Reads (ending blames result) (D.view disk.old) (D.view disk.new) }
    ensures refused { IfErr result (IsOpenRefusal (Shows (D.view disk.old) (D.view disk.new)) (D.view disk.old).size) }
    ensures format_refused { IfErr result (IsFormatRefusal (Shows (D.view disk.old) (D.view disk.new)) (D.view disk.old).size) }
    ensures not_full { IfErr result IsNotFull }
{
    let slots = count_slots(disk)?;
    let want = size_of(slots);
    let got = disk.size();
    if got != want {
        return Err(Refusal::WrongSize { want, got });
    }
    Ok(slots)
}

// The format cell and the journal.
fn read_front<D: Disk>(alloc: Global, disk: &mut D) -> Result<Front, Refusal>
    ensures sized { IfOk result (λ front. IsSized (Shows (D.view disk.old) (D.view disk.new)) (D.view disk.old).size front.slots) }
    ensures scanned { IfOk result (λ front.
        IsScanned (Shows (D.view disk.old) (D.view disk.new)) front.journal front.names front.journal.last) }
    ensures only { IfErr result (λ refusal. Shows (D.view disk.old) (D.view disk.new) (λ image. (store : Store)
        → Encodes image store → IsTrue (fails refusal))) }
    ensures durable { OnOk result (IsDurable (D.view disk.new)) }
    ensures reads { Reads (ending blames result) (D.view disk.old) (D.view disk.new) }
    ensures refused { IfErr result (IsOpenRefusal (Shows (D.view disk.old) (D.view disk.new)) (D.view disk.old).size) }
    ensures not_full { IfErr result IsNotFull }
{
    let slots = read_format(disk)?;
    match scan(alloc, disk) {
        Ok((journal, names, _)) => Ok(Front {
            slots,
            journal,
            names,
        }),
        Err(fault) => Err(refused_by(fault)),
    }
}

// All that a store holds, however few slots are free.
fn open_all<D: Disk>(alloc: Global, disk: &mut D) -> Result<OpenStore, Refusal>
    ensures found { IfOk result (IsFound (Shows (D.view disk.old) (D.view disk.new)) (D.view disk.old).size) }
    ensures only { IfErr result (λ refusal. Shows (D.view disk.old) (D.view disk.new) (λ image. (store : Store)
        → Encodes image store → IsTrue (fails refusal))) }
    ensures durable { OnOk result (IsDurable (D.view disk.new)) }
    ensures reads { Reads (ending blames result) (D.view disk.old) (D.view disk.new) }
    ensures refused { IfErr result (IsOpenRefusal (Shows (D.view disk.old) (D.view disk.new)) (D.view disk.old).size) }
    ensures not_full { IfErr result IsNotFull }
{
    let front = read_front(alloc, disk)?;
    let containers = read_slots(alloc, disk, front.slots)?;
    Ok(OpenStore {
        slots: front.slots,
        journal: front.journal,
        names: front.names,
        containers,
    })
}

// Reads the store of a disk, of which two slots or more have to be closed.
fn read_with_room<D: Disk>(alloc: Global, disk: &mut D) -> Result<OpenStore, Refusal>
    ensures opened { IfOk result (IsOpened (Shows (D.view disk.old) (D.view disk.new)) (D.view disk.old).size) }
    // A store of the right size, whose cells and headers are right and whose ids differ, is opened, unless memory or the
    // disk fails, or too few slots are closed.
    ensures only { Shows (D.view disk.old) (D.view disk.new) (λ image. (store : Store) → Encodes image store → Opens store result) }
    // All that was written stands after a crash.
    ensures durable { OnOk result (IsDurable (D.view disk.new)) }
    ensures reads { Reads (ending blames result) (D.view disk.old) (D.view disk.new) }
    ensures refused { IfErr result (IsOpenRefusal (Shows (D.view disk.old) (D.view disk.new)) (D.view disk.old).size) }
{
    let opened = open_all(alloc, disk)?;
    let free = opened.containers.free();
    if free < RESERVE {
        return Err(Refusal::Full { free });
    }
    Ok(opened)
}

/// Opens the store on a disk: a sync, and then, in this order, the format cell, the selectors, the records of the half that
/// counts, and of each slot its gate and, where that is open, its header and entries are read. Where fewer than two slots are
/// closed, the trees of all names are walked, in the order of the names' bytes, their nodes read and their segments not; then
/// containers that hold the newest copy of none of their keys are given back, the one of the least id first, until two slots are
/// closed or no such is left; and the store is read again. Before a container is given back nothing is written.
///
/// Refusals, in the order in which they come: `DiskWrite` where the sync fails; `WrongSize` below the smallest size;
/// `NotAStore`, `Version` and `Damaged` of the format cell; `WrongSize` where the size isn't that of its slots; `Damaged`
/// and `Version` of the journal; `Damaged` of a container. Where too few slots are closed, those of `read_steps::visit`, and
/// `DiskWrite`; and then, as the store is read again, any of these, and `Full` where fewer than two slots are closed still.
/// `DiskRead` and `Memory` may come in place of any after the first size.
pub fn open<D: Disk>(alloc: Global, disk: &mut D) -> Result<OpenStore, Unopened>
    ensures opening { Opening D D.view (as_refused result) disk.old disk.new }
    ensures wrote { IfErr result (λ unopened. LeavesOf D D.view unopened.wrote unopened.refusal disk.old disk.new) }
{
    let opened = match open_all(alloc, disk) {
        Ok(opened) => opened,
        Err(refusal) => return Err(Unopened {
            refusal,
            wrote: false,
        }),
    };
    let closed = opened.containers.free();
    if closed >= RESERVE {
        return Ok(opened);
    }
    if let Err(refusal) = make_room(alloc, disk, opened, closed) {
        // Room is made by writes alone, once all was read.
        let wrote = matches!(refusal, Refusal::DiskWrite);
        return Err(Unopened { refusal, wrote });
    }
    match read_with_room(alloc, disk) {
        Ok(opened) => Ok(opened),
        Err(refusal) => Err(Unopened {
            refusal,
            wrote: true,
        }),
    }
}
