//! A file's bytes, from what opening it gave: to the end, or one byte past the limit.
ghost use Rattle.std.specs.Prelude.{◌≡◌, ◌≢◌, ◌<◌, ◌≤◌, ◌+◌, length, None, IfOk, IfErr, MatchResult};
ghost use Rattle.std.specs.Io.{appended_bytes};
ghost use Rattle.std.specs.Io.KnownBytes.{Consumes};
ghost use Rattle.bs_outside.specs.Fetching.{Fetches};
ghost use Rattle.bs_outside.specs.Opening.{AnswersOpening, fetch_faults, ReadsNone, ReadsPiece};

use crate::shelf::Fetch;
use std::io;
use std::io::{ErrorKind, Read};

/// The most bytes that one read asks for.
const PIECE: usize = 8192;

/// One read of at most so many bytes, which are appended. Of one that fails the kind is kept.
#[inline(never)]
fn read_piece<R: Read>(
    reader: &mut R,
    most: usize,
    into: &mut Vec<u8>,
    reason: &mut Option<ErrorKind>,
) -> Result<usize, Fetch>
    requires some { 0 < most }
    requires within { most ≤ 8192 }
    ensures { MatchResult result
        (λ count. ReadsPiece (R.remaining reader.old) (R.remaining reader.new) into.old.items into.new.items most count)
        (λ answer. ReadsNone (R.remaining reader.old) (R.remaining reader.new) into.old.items into.new.items answer) }
{
    let mut piece = [0u8; PIECE];
    let count = match reader.read(&mut piece[..most]) {
        Ok(count) => count,
        Err(error) => {
            *reason = Some(error.kind());
            return Err(Fetch::Failed);
        }
    };
    match into.extend_from_slice(&piece[..count]) {
        Ok(()) => Ok(count),
        Err(_) => Err(Fetch::NoMemory),
    }
}

/// Appends what a reader gives, to its end, or one byte past the limit. A read that fails is the last.
#[tactic(auto, using(crate::proofs::ReadLemmas::reading_starts))]
fn read_whole<R: Read>(
    reader: &mut R,
    limit: u64,
    into: &mut Vec<u8>,
    reason: &mut Option<ErrorKind>,
) -> Fetch
    ensures bytes { Fetches (R.remaining reader.old) limit into.old.items into.new.items result }
    ensures taken { result ≢ Fetch.NoMemory → Consumes (R.remaining reader.old) (R.remaining reader.new) (appended_bytes into.old.items into.new.items) }
    ensures within { length into.new.items ≤ length into.old.items + (limit + 1) }
{
    let mut left = limit;
    loop {
        let most = left.min(8191) as usize + 1;
        match read_piece(reader, most, into, reason) {
            Ok(0) => return Fetch::Done,
            Ok(count) if count as u64 > left => return Fetch::TooLong,
            Ok(count) => left -= count as u64,
            Err(answer) => return answer,
        }
    }
}

/// The answer where a file does not open.
fn unopened(error: &io::Error, reason: &mut Option<ErrorKind>) -> Fetch
    ensures { AnswersOpening error.now result }
{
    *reason = Some(error.kind());
    if let ErrorKind::OutOfMemory = error.kind() {
        Fetch::NoMemory
    } else {
        Fetch::Failed
    }
}

/// The bytes of a file that was to be opened.
fn read_opened<R: Read + Drop>(
    opened: io::Result<R>,
    limit: u64,
    into: &mut Vec<u8>,
    reason: &mut Option<ErrorKind>,
) -> Fetch
    ensures bytes { IfOk opened (λ file. Fetches (R.remaining file) limit into.old.items into.new.items result) }
    ensures opening { IfErr opened (λ error. AnswersOpening error result) }
    ensures untold { Fetches None limit into.old.items into.new.items result }
    ensures within { length into.new.items ≤ length into.old.items + (limit + 1) }
{
    match opened {
        Ok(mut file) => read_whole(&mut file, limit, into, reason),
        Err(error) => unopened(&error, reason),
    }
}

/// A fetch of what opening a file gave. A fault raises the count, and its kind is kept.
pub fn fetch_with_reason<R: Read + Drop>(
    opened: io::Result<R>,
    faults: &mut u64,
    reason: &mut Option<ErrorKind>,
    limit: u64,
    into: &mut Vec<u8>,
) -> Fetch
    ensures bytes { IfOk opened (λ file. Fetches (R.remaining file) limit into.old.items into.new.items result) }
    ensures opening { IfErr opened (λ error. AnswersOpening error result) }
    ensures untold { Fetches None limit into.old.items into.new.items result }
    ensures within { length into.new.items ≤ length into.old.items + (limit + 1) }
    ensures counts { faults.new ≡ fetch_faults faults.old result }
    ensures later { faults.old ≤ faults.new }
{
    let answer = read_opened(opened, limit, into, reason);
    if let Fetch::Failed = answer {
        *faults = faults.saturating_add(1);
    }
    answer
}

/// A fetch of what opening a file gave. A fault raises the count.
pub fn fetch_opened<R: Read + Drop>(
    opened: io::Result<R>,
    faults: &mut u64,
    limit: u64,
    into: &mut Vec<u8>,
) -> Fetch
    ensures bytes { IfOk opened (λ file. Fetches (R.remaining file) limit into.old.items into.new.items result) }
    ensures opening { IfErr opened (λ error. AnswersOpening error result) }
    ensures untold { Fetches None limit into.old.items into.new.items result }
    ensures within { length into.new.items ≤ length into.old.items + (limit + 1) }
    ensures counts { faults.new ≡ fetch_faults faults.old result }
    ensures later { faults.old ≤ faults.new }
{
    let mut reason = None;
    fetch_with_reason(opened, faults, &mut reason, limit, into)
}
