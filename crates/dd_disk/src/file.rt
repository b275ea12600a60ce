// A file of the operating system. Nothing is proved of what it holds: it tells no content, and a crash may leave
// any bytes of its size.
ghost use Rattle.std.specs.Prelude.{◌≡◌, length, None, []};
ghost use Rattle.base_model.specs.Fault.{HasCause};

use crate::{Disk, DiskFault};
use std::fs::File;
use std::io;
use std::os::unix::fs::FileExt;

/// A disk over a file, which tells nothing.
#[derive(Drop)]
pub struct FileDisk {
    file: File,
    size: u64,
    faults: u64,
    moment: u64,
}

impl FileDisk {
    /// A disk of the first `size` bytes of a file.
    pub fn new(file: File, size: u64) -> FileDisk
        ensures size { (⟦<FileDisk as Disk>⟧.view result).size ≡ size }
        ensures faults { (⟦<FileDisk as Disk>⟧.view result).faults ≡ 0 }
    {
        FileDisk {
            file,
            size,
            faults: 0,
            moment: 0,
        }
    }
}

// The answer of the system, a fault counted.
fn counted(faults: &mut u64, answer: io::Result<()>) -> Result<(), DiskFault>
    ensures { HasCause faults.old faults.new result }
{
    match answer {
        Ok(()) => Ok(()),
        Err(_) => {
            *faults = faults.saturating_add(1);
            Err(DiskFault)
        }
    }
}

impl Disk for FileDisk {
    ghost use Rattle.dd_disk.specs.Untold.{no_content};

    ghost view = { λ d. record {
      size = d.size;
      content = None;
      images = λ c. length c ≡ d.size;
      clock = d.moment;
      images_since = λ _ c. length c ≡ d.size;
      read_returned = λ _ _ _. Unit {0};
      faults = d.faults;
      loans = [];
      sized = λ bytes known. no_content bytes known;
      image_sized = λ c same. same;
      as_read = λ bytes known. no_content bytes known;
      counts_now = λ t c le now. now;
      only_now = λ c before left. left;
      earlier = λ t u c le left. left;
      returned_earlier = λ t u at bytes le returned. tt;
    } };

    fn size(&self) -> u64 {
        self.size
    }

    fn read(&mut self, at: u64, into: &mut [u8]) -> Result<(), DiskFault> {
        self.moment = self.moment.saturating_add(1);
        counted(&mut self.faults, self.file.read_exact_at(into, at))
    }

    fn read_ahead(&self, at: u64, into: &mut [u8]) -> bool {
        self.file.read_exact_at(into, at).is_ok()
    }

    fn write(&mut self, at: u64, from: &[u8]) -> Result<(), DiskFault> {
        self.moment = self.moment.saturating_add(1);
        counted(&mut self.faults, self.file.write_all_at(from, at))
    }

    fn sync(&mut self) -> Result<(), DiskFault> {
        self.moment = self.moment.saturating_add(1);
        counted(&mut self.faults, self.file.sync_all())
    }

    fn faults(&self) -> u64 {
        self.faults
    }

    fn moment(&self) -> u64 {
        self.moment
    }
}
