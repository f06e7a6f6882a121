//! A shelf that gives each file once, as a named pipe does: for tests that no file is fetched a second time.
ghost use Rattle.std.specs.Prelude.{◌≡◌, ℕ, None};
ghost use Rattle.bs_outside.specs.Fetching.{Fetches};

use crate::memory::{find_file, hand_over};
use crate::shelf::{Fetch, Shelf};
use std::marker::Model;

/// Files in memory, each of which is given once. It doesn't tell what it holds, and one count of faults stands for every name. Contracts
/// see that count.
#[derive(Drop)]
pub struct OnceShelf {
    files: Vec<(String, Vec<u8>)>,
    faults: u64,
}

impl Model for OnceShelf {
    ghost use Rattle.std.specs.Prelude.{ℕ};

    ghost Value = { ℕ };

    ghost view = { λ shelf. shelf.faults };
}

impl OnceShelf {
    /// A shelf of named files. Of two with one name each is given once.
    pub fn new(files: Vec<(String, Vec<u8>)>) -> OnceShelf
        ensures { result ≡ 0 }
    {
        OnceShelf { files, faults: 0 }
    }
}

/// The bytes of a file that is given away.
#[tactic(auto, using(crate::proofs::Held::fetches_untold))]
fn hand_away(file: (String, Vec<u8>), limit: u64, into: &mut Vec<u8>) -> Fetch
    ensures { Fetches None limit into.old.items into.new.items result }
{
    hand_over(&file.1, limit, into)
}

/// The bytes of the first file of that name, which is then gone.
fn give(files: &mut Vec<(String, Vec<u8>)>, name: &str, limit: u64, into: &mut Vec<u8>) -> Fetch
    ensures { Fetches None limit into.old.items into.new.items result }
{
    match find_file(files, name) {
        Some(at) => hand_away(files.swap_remove(at), limit, into),
        None => Fetch::Failed,
    }
}

impl Shelf for OnceShelf {
    ghost use Rattle.bs_outside.specs.Opening.{fetch_faults};

    ghost held = { λ _ _. None };

    // One count stands for every name.
    ghost faults = { λ shelf _. shelf };

    ghost leads = { λ before call now. now ≡ fetch_faults before call.answer };

    fn fetch(&mut self, name: &str, limit: u64, into: &mut Vec<u8>) -> Fetch {
        let answer = give(&mut self.files, name, limit, into);
        if let Fetch::Failed = answer {
            self.faults = self.faults.saturating_add(1);
        }
        answer
    }
}
