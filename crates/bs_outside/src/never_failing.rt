//! A shelf and a sink that never fail where a name is there: for texts that the program made itself.
ghost use Rattle.std.specs.Prelude.{◌≡◌, ℕ, List, None};
ghost use Rattle.bs_outside.specs.Fetching.{CountsFaults, Fetches};
ghost use Rattle.bs_outside.specs.Putting.{Puts};

use crate::memory::{find_file, hand_over};
use crate::shelf::{Fetch, Shelf};
use crate::sink::{Put, Sink};

/// Files in memory. It tells what it holds, and its counts of faults never change: 0 for a name that is there, and the
/// greatest `u64` for any other name.
#[derive(Drop)]
pub struct SureShelf {
    files: Vec<(String, Vec<u8>)>,
}

impl SureShelf {
    ghost use Rattle.bs_outside.specs.Memory.{sure_files};

    /// A shelf of named files. Of two with one name the first counts.
    pub fn new(files: Vec<(String, Vec<u8>)>) -> SureShelf
        ensures { sure_files result ≡ files.items }
    {
        SureShelf { files }
    }
}

impl Shelf for SureShelf {
    ghost use Rattle.std.specs.Prelude.{◌↔◌};
    ghost use Rattle.bs_outside.specs.Calls.{fetch_call};
    ghost use Rattle.bs_outside.specs.Memory.{sure_faults, sure_files, sure_held, sure_leads};

    ghost held = { sure_held };

    ghost faults = { sure_faults };

    ghost leads = { sure_leads };

    fn fetch(&mut self, name: &str, limit: u64, into: &mut Vec<u8>) -> Fetch
        ensures bytes { Fetches (sure_held self.old name.now) limit into.old.items into.new.items result }
        ensures held { (other : List ℕ) → sure_held self.new other ≡ sure_held self.old other }
        ensures cause { CountsFaults (sure_faults self.old) (sure_faults self.new) name.now result }
        ensures call { sure_leads self.old (fetch_call name.now limit result into.old.items into.new.items) self.new }
        ensures fails { (result ≡ Fetch.Failed) ↔ (sure_held self.old name.now ≡ None) }
        ensures files { sure_files self.new ≡ sure_files self.old }
    {
        match find_file(&self.files, name) {
            Some(at) => hand_over(&self.files[at].1, limit, into),
            None => Fetch::Failed,
        }
    }
}

/// A sink that takes every byte and keeps none.
#[derive(Drop)]
pub struct SureSink;

impl SureSink {
    /// The sink; there is one value of it, whose count of faults is always 0.
    pub fn new() -> SureSink {
        SureSink
    }
}

impl Sink for SureSink {
    ghost use Rattle.bs_outside.specs.Calls.{put_call};
    ghost use Rattle.bs_outside.specs.declared.sink.Put.TheVariants.{Done};

    ghost written = { λ _. None };

    ghost faults = { λ _. 0 };

    ghost leads = { λ _ call _. call.answer ≡ Done };

    fn put(&mut self, bytes: &[u8]) -> Put
        ensures puts { Puts None None 0 0 bytes.now result }
        ensures call { (put_call bytes.now result).answer ≡ Put.Done }
        ensures sure { result ≡ Put.Done }
    {
        let _dropped = bytes;
        Put::Done
    }
}
