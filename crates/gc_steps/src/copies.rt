//! The index and the disk, lent to a scan.
ghost use Rattle.std.specs.Prelude.{◌≡◌};
ghost use Rattle.gc_steps.specs.Scanning.{scan_fault, step_refusal};

use container_meta::{Key, Place};
use copy_forward::same_place;
use dd_disk::Disk;
use digests::Afresh;
use gc_enumerate::{Copies, ScanFault};
use refusals::Refusal;
use segment_index::Index;
use store_state::{find, read_copy};

/// The index and the disk, as a scan asks for them.
#[derive(Drop)]
pub(crate) struct LentCopies<'a, D: Disk, X: Index> {
    pub disk: &'a mut D,
    pub index: &'a mut X,
}

// Why a look-up or a read of the store is refused, as a scan says it.
fn fault_of(refusal: Refusal) -> ScanFault
    ensures { result ≡ scan_fault refusal }
{
    match refusal {
        Refusal::DiskRead => ScanFault::DiskRead,
        Refusal::Damaged { at, why } => ScanFault::Damaged { at, why },
        Refusal::Corrupt {
            slot,
            offset,
            length,
            want,
            got,
        } => ScanFault::Corrupt {
            slot,
            offset,
            length,
            want,
            got,
        },
        _ => ScanFault::Memory,
    }
}

/// Why a scan is refused, as a step says it.
pub(crate) fn refusal_of(fault: ScanFault) -> Refusal
    ensures { result ≡ step_refusal fault }
{
    match fault {
        ScanFault::DiskRead => Refusal::DiskRead,
        ScanFault::Damaged { at, why } => Refusal::Damaged { at, why },
        ScanFault::Corrupt {
            slot,
            offset,
            length,
            want,
            got,
        } => Refusal::Corrupt {
            slot,
            offset,
            length,
            want,
            got,
        },
        ScanFault::Missing { key } => Refusal::Missing { key },
        ScanFault::Memory => Refusal::Memory,
    }
}

impl<D: Disk, X: Index> Copies for LentCopies<'_, D, X> {
    ghost use Rattle.std.specs.Prelude.{◌≡◌, None};
    ghost use Rattle.std.proofs.Common.{refl, sym, ◌∙◌};
    ghost use Rattle.gc_steps.specs.Scanning.{ReadsOn, ShowsAt};
    ghost use Rattle.gc_steps.specs.Laws.{reads_on_here, reads_on_more, place_stays, shows_more};
    ghost use Rattle.segment_index.specs.Places.{IsPlace};

    ghost places = { λ c. X.places c.index.now (D.view c.disk.now).content };

    ghost serves = { λ c. X.serves c.index.now (D.view c.disk.now).size };

    ghost lies = { λ c place. IsPlace (D.view c.disk.now).size place };

    ghost failures = { λ c. (D.view c.disk.now).faults };

    ghost later = { λ old new. ReadsOn (X.places old.index.now (D.view old.disk.now).content)
        (X.places new.index.now (D.view new.disk.now).content) (D.view old.disk.now) (D.view new.disk.now)
        × (new.disk.ghost_name ≡ old.disk.ghost_name) × (new.index.ghost_name ≡ old.index.ghost_name) };

    ghost shows = { λ old new place bytes. ShowsAt (D.view old.disk.now) (D.view new.disk.now) place bytes };

    ghost damaged = { λ old new at why. X.places old.index.now (D.view old.disk.now).content ≡ None };

    ghost later_at_once = { λ c. (reads_on_here _ _, refl, refl) };

    ghost later_on = { λ old mid new first second. (reads_on_more _ _ _ _ _ _ first.0 second.0, second.1 ∙ first.1, second.2 ∙ first.2) };

    ghost places_stay = { λ old new later. later.0.map_stays };

    ghost lies_on = { λ old new place later lies. place_stays _ _ _ _ place later.0 lies };

    ghost lies_within = { λ c place lies. lies.length_is };

    ghost shows_wider = { λ first old new last place bytes before on after shown.
        shows_more _ _ _ _ _ _ _ _ place bytes before.0 on.0 after.0 shown };

    ghost damaged_wider = { λ first old new last at why before on after none. sym before.0.map_stays ∙ none };

    fn is_copy(&mut self, key: &Key, place: &Place) -> Result<bool, ScanFault> {
        match find(self.disk, self.index, key) {
            Ok(Some(found)) => Ok(same_place(&found, place)),
            Ok(None) => Ok(false),
            Err(refusal) => Err(fault_of(refusal)),
        }
    }

    fn place_of(&mut self, key: &Key) -> Result<Option<Place>, ScanFault> {
        match find(self.disk, self.index, key) {
            Ok(found) => Ok(found),
            Err(refusal) => Err(fault_of(refusal)),
        }
    }

    fn read(&mut self, place: &Place, digest: &[u8; 32], buf: &mut [u8]) -> Result<(), ScanFault> {
        match read_copy(self.disk, &mut Afresh, place, digest, buf) {
            Ok(()) => Ok(()),
            Err(refusal) => Err(fault_of(refusal)),
        }
    }

    fn faults(&self) -> u64 {
        self.disk.faults()
    }
}
