//! A shelf and a sink in memory, with faults on demand: what tests and worked examples run on.
ghost use Rattle.std.specs.Prelude.{◌≡◌, ◌≢◌, ◌≤◌, length, Some, IfOk, [], vec_len, vec_capacity};
ghost use Rattle.bs_outside.specs.Cuts.{cut_of};
ghost use Rattle.bs_outside.specs.Fetching.{Fetches};
ghost use Rattle.bs_outside.specs.Files.{place_of};

use crate::shelf::{Fetch, Shelf};
use crate::sink::{Put, Sink};
use bs_bits::NoMemory;
use std::alloc::Global;

/// Files in memory. It tells what it holds: of two files with one name the first. It keeps one count of faults for each
/// file, and one for all names that are not there.
#[derive(Drop)]
pub struct MemShelf {
    files: Vec<(String, Vec<u8>)>,
    fail: Vec<u64>,
    calls: u64,
    counts: Vec<u64>,
    other: u64,
    ghost counted: { length counts.items ≡ length files.items },
}

impl MemShelf {
    ghost use Rattle.std.specs.Prelude.{ℕ, List};
    ghost use Rattle.bs_outside.specs.Memory.{mem_calls, mem_fail, mem_faults, mem_files};

    /// A shelf of named files. Call number n, from 1, fails where n is in `fail`, and where the name is not there.
    pub fn new(
        alloc: Global,
        files: Vec<(String, Vec<u8>)>,
        fail: Vec<u64>,
    ) -> Result<MemShelf, NoMemory>
        ensures files { IfOk result (λ shelf. mem_files shelf ≡ files.items) }
        ensures fail { IfOk result (λ shelf. mem_fail shelf ≡ fail.items) }
        ensures calls { IfOk result (λ shelf. mem_calls shelf ≡ 0) }
        ensures faults { IfOk result (λ shelf. (name : List ℕ) → mem_faults shelf name ≡ 0) }
    {
        let counts = vec![in alloc; 0u64; files.len()]?;
        Ok(MemShelf {
            files,
            fail,
            calls: 0,
            counts,
            other: 0,
        })
    }
}

/// The place of the first file of that name.
pub fn find_file(files: &[(String, Vec<u8>)], name: &str) -> Option<usize>
    ensures { result ≡ place_of files.now name.now }
{
    files.iter().position(|file| file.0.as_str() == name)
}

/// A fetch that can't fail.
pub fn hand_over(bytes: &[u8], limit: u64, into: &mut Vec<u8>) -> Fetch
    ensures bytes { Fetches (Some bytes.now) limit into.old.items into.new.items result }
    ensures sure { result ≢ Fetch.Failed }
{
    if bytes.len() as u64 <= limit {
        match into.extend_from_slice(bytes) {
            Ok(()) => Fetch::Done,
            Err(_) => Fetch::NoMemory,
        }
    } else {
        match into.extend_from_slice(bytes) {
            Ok(()) => Fetch::TooLong,
            Err(_) => Fetch::NoMemory,
        }
    }
}

impl Shelf for MemShelf {
    ghost use Rattle.std.specs.Prelude.{◌↔◌, ◌⊎◌, ◌+◌, ◌-◌, ◌^◌, ℕ, List, min, None};
    ghost use Rattle.bs_outside.specs.Calls.{fetch_call};
    ghost use Rattle.bs_outside.specs.Fetching.{CountsFaults};
    ghost use Rattle.bs_outside.specs.Memory.{IsDue, mem_calls, mem_fail, mem_files};
    ghost use Rattle.bs_outside.specs.Memory.{counts_one, mem_faults, mem_held, mem_leads};

    ghost held = { mem_held };

    ghost faults = { mem_faults };

    ghost leads = { mem_leads };

    fn fetch(&mut self, name: &str, limit: u64, into: &mut Vec<u8>) -> Fetch
        ensures bytes { Fetches (mem_held self.old name.now) limit into.old.items into.new.items result }
        ensures held { (other : List ℕ) → mem_held self.new other ≡ mem_held self.old other }
        ensures cause { CountsFaults (mem_faults self.old) (mem_faults self.new) name.now result }
        ensures call { mem_leads self.old (fetch_call name.now limit result into.old.items into.new.items) self.new }

        // Which calls fail, and which count rises then.
        ensures fails { (result ≡ Fetch.Failed) ↔ (IsDue self.old ⊎ (mem_held self.old name.now ≡ None)) }
        ensures counts { result ≡ Fetch.Failed → (other : List ℕ) → mem_faults self.new other ≡ counts_one self.old name.now other }

        // What the next calls rest on.
        ensures calls { mem_calls self.new ≡ min (mem_calls self.old + 1) (2 ^ 64 - 1) }
        ensures fail { mem_fail self.new ≡ mem_fail self.old }
        ensures files { mem_files self.new ≡ mem_files self.old }
    {
        self.calls = self.calls.saturating_add(1);
        let fails = self.fail.contains(&self.calls);
        match find_file(&self.files, name) {
            Some(at) if fails => {
                self.counts[at] = self.counts[at].saturating_add(1);
                Fetch::Failed
            }
            Some(at) => hand_over(&self.files[at].1, limit, into),
            None => {
                self.other = self.other.saturating_add(1);
                Fetch::Failed
            }
        }
    }
}

/// A sink in memory with a room that is made at once. It tells what was written.
#[derive(Drop)]
pub struct MemSink {
    room: usize,
    fail: Vec<(u64, usize)>,
    calls: u64,
    written: Vec<u8>,
    faults: u64,
    ghost fits: { vec_len written ≤ room },
    ghost reserved: { room ≤ vec_capacity written },
}

impl MemSink {
    ghost use Rattle.bs_outside.specs.Memory.{sink_bytes, sink_calls, sink_fail, sink_faults, sink_room};

    /// A sink for `room` bytes. The first pair (n, m) of `fail` with that n makes call number n, from 1, fail once it
    /// took m bytes.
    pub fn new(alloc: Global, room: usize, fail: Vec<(u64, usize)>) -> Result<MemSink, NoMemory>
        ensures written { IfOk result (λ sink. sink_bytes sink ≡ []) }
        ensures faults { IfOk result (λ sink. sink_faults sink ≡ 0) }
        ensures calls { IfOk result (λ sink. sink_calls sink ≡ 0) }
        ensures room { IfOk result (λ sink. sink_room sink ≡ room) }
        ensures fail { IfOk result (λ sink. sink_fail sink ≡ fail.items) }
    {
        Ok(MemSink {
            room,
            fail,
            calls: 0,
            written: Vec::with_capacity(alloc, room)?,
            faults: 0,
        })
    }

    /// What was written.
    pub fn bytes(&self) -> &[u8]
        ensures { result.now ≡ sink_bytes self.now }
    {
        &self.written
    }
}

/// How many bytes the call of that number takes at most, where it is to fail.
fn cut_at(fail: &[(u64, usize)], call: u64) -> Option<usize>
    ensures { result ≡ cut_of fail.now call }
{
    fail.iter().find(|pair| pair.0 == call).map(|pair| pair.1)
}

impl Sink for MemSink {
    ghost use Rattle.std.specs.Prelude.{◌+◌, ◌-◌, ◌^◌, min};
    ghost use Rattle.bs_outside.specs.Putting.{Puts};
    ghost use Rattle.bs_outside.specs.Calls.{put_call};
    ghost use Rattle.bs_outside.specs.Memory.{next_answer, sink_bytes, sink_calls, sink_fail, sink_faults, sink_leads, sink_room};

    ghost written = { λ sink. Some (sink_bytes sink) };

    ghost faults = { sink_faults };

    ghost leads = { sink_leads };

    fn put(&mut self, bytes: &[u8]) -> Put
        ensures puts { Puts (Some (sink_bytes self.old)) (Some (sink_bytes self.new)) (sink_faults self.old) (sink_faults self.new) bytes.now result }
        ensures call { sink_leads self.old (put_call bytes.now result) self.new }
        ensures exact { result ≡ next_answer self.old (length bytes.now) }

        // What the next calls rest on.
        ensures calls { sink_calls self.new ≡ min (sink_calls self.old + 1) (2 ^ 64 - 1) }
        ensures room { sink_room self.new ≡ sink_room self.old }
        ensures fail { sink_fail self.new ≡ sink_fail self.old }
    {
        self.calls = self.calls.saturating_add(1);
        let left = self.room - self.written.len();
        let cut = cut_at(&self.fail, self.calls);
        let fits = bytes.len().min(left);
        let count = match cut {
            Some(most) => fits.min(most),
            None => fits,
        };
        if self.written.extend_from_slice(&bytes[..count]).is_err() {
            unreachable!()
        }
        if cut.is_some() || count < bytes.len() {
            self.faults = self.faults.saturating_add(1);
            return Put::Failed(count);
        }
        Put::Done
    }
}
