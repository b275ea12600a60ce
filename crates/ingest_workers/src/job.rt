//! Jobs.
ghost use Rattle.std.specs.Prelude.{◌≡◌, ◌<◌, ◌%◌, IfOk, string_bytes};
ghost use Rattle.ingest_workers.specs.Jobs.{temp_name, work_name};

use namespace::Root;
use refusals::Refusal;
use std::alloc::{AllocError, Global};

/// To store a generated file under a name that is deleted again, and under one that stays, and to read it once. The file is that of the
/// job's number: `load_stream::LoadStream` says which bytes it has.
#[derive(Clone, Copy)]
pub struct Job {
    /// Names the file, `temp.N` and `work.N`, and says which worker does the job. Jobs of one number have the same names.
    pub number: u64,
    /// The seed of the file's bytes.
    pub seed: u64,
    /// How many bytes the file has. Above 1,099,511,627,776 the job ends, as a file may not be so long.
    pub length: u64,
}

/// How a job ended: the file is stored as `work.N`, and has this root; or something was refused, or there was no memory, and of a file that
/// was under way it was asked that it be given up. What was stored before that stays.
#[derive(Clone, Copy)]
pub enum JobEnd {
    Stored(Root),
    Refused(Refusal),
}

impl Job {
    /// Which of so many workers does it.
    pub(crate) fn worker_of(&self, count: usize) -> usize
        requires { 0 < count }
        ensures value { result ≡ self.now.number % count }
        ensures below { result < count }
    {
        (self.number % count as u64) as usize
    }

    /// The name that is deleted again. It fails for want of memory alone.
    pub(crate) fn temp_name(&self, alloc: Global) -> Result<String, AllocError>
        ensures { IfOk result (λ name. string_bytes name ≡ temp_name self.now.number) }
    {
        format!(in alloc; "temp.{}", self.number)
    }

    /// The name that stays. It fails for want of memory alone.
    pub(crate) fn work_name(&self, alloc: Global) -> Result<String, AllocError>
        ensures { IfOk result (λ name. string_bytes name ≡ work_name self.now.number) }
    {
        format!(in alloc; "work.{}", self.number)
    }
}
