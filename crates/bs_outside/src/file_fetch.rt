//! A plan is followed a file at a time, up to the first that stops it.
ghost use Rattle.std.specs.Prelude.{◌≡◌};
ghost use Rattle.bs_outside.specs.declared.file_fetch.JobFault.TheVariants.{NoMemory as FaultNoMemory};
ghost use Rattle.bs_outside.specs.declared.file_fetch.Refusal.TheVariants.{NoMemory as ReadNoMemory};
ghost use Rattle.bs_outside.specs.Walks.{FetchedTo, IsTooLong, settled};

use crate::file::File;
use crate::shelf::{Fetch, Shelf};
use bs_bits::NoMemory;
use std::alloc::{AllocError, Global};

/// Why a job stops before it is ready.
#[derive(Drop)]
pub enum JobFault {
    NoMemory,
    /// A fetch of the file failed.
    Faulted(File),
    /// The file is refused, for this reason.
    Refused(File, Vec<u8>),
}

impl From<AllocError> for JobFault {
    ghost from_gives = { λ _ stop. stop ≡ FaultNoMemory };

    fn from(_refused: AllocError) -> JobFault {
        JobFault::NoMemory
    }
}

impl From<NoMemory> for JobFault {
    ghost from_gives = { λ _ stop. stop ≡ FaultNoMemory };

    fn from(_wanting: NoMemory) -> JobFault {
        JobFault::NoMemory
    }
}

/// Why a reader refuses the bytes of a file.
#[derive(Drop)]
pub enum Refusal {
    NoMemory,
    /// The words behind the file's name in the refusal line.
    Why(Vec<u8>),
}

impl From<AllocError> for Refusal {
    ghost from_gives = { λ _ refusal. refusal ≡ ReadNoMemory };

    fn from(_refused: AllocError) -> Refusal {
        Refusal::NoMemory
    }
}

impl From<NoMemory> for Refusal {
    ghost from_gives = { λ _ refusal. refusal ≡ ReadNoMemory };

    fn from(_wanting: NoMemory) -> Refusal {
        Refusal::NoMemory
    }
}

/// What a reader's answer is to the job: a refusal is one of this file.
pub fn settle<T>(file: File, read: Result<T, Refusal>) -> Result<T, JobFault>
    ensures { result ≡ settled file read }
{
    match read {
        Ok(value) => Ok(value),
        Err(Refusal::NoMemory) => Err(JobFault::NoMemory),
        Err(Refusal::Why(why)) => Err(JobFault::Refused(file, why)),
    }
}

/// The bytes of a file, within its limit.
pub fn fetch_file<S: Shelf>(
    alloc: Global,
    shelf: &mut S,
    file: File,
    name: &str,
) -> Result<Vec<u8>, JobFault>
    ensures { FetchedTo S.held S.faults S.leads shelf.old shelf.new file name.now result }
{
    let mut bytes = Vec::new(alloc);
    match shelf.fetch(name, file.limit(), &mut bytes) {
        Fetch::Done => Ok(bytes),
        Fetch::Failed => Err(JobFault::Faulted(file)),
        Fetch::TooLong => too_long(alloc, file),
        Fetch::NoMemory => Err(JobFault::NoMemory),
    }
}

/// The refusal of a file that is longer than its limit.
fn too_long<T>(alloc: Global, file: File) -> Result<T, JobFault>
    ensures { IsTooLong file result }
{
    Err(JobFault::Refused(file, b"TooLong".to_vec(alloc)?))
}
