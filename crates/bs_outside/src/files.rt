//! Real files, at the trusted edge: the runtime's answers are all that is known of them.
ghost use Rattle.std.specs.Prelude.{◌≡◌, None};

use crate::reading::fetch_with_reason;
use crate::shelf::{Fetch, Shelf};
use std::fs::File;
use std::io::ErrorKind;
use std::marker::Model;
use std::rt::Files;

/// The files of the file system. It doesn't tell what it holds, and one count of faults stands for every name. Contracts see
/// that count. It keeps the kind of its last fault.
#[derive(Drop)]
pub struct FileShelf<'a, R: Files> {
    rt: &'a R,
    faults: u64,
    reason: Option<ErrorKind>,
}

impl<'a, R: Files> Model for FileShelf<'a, R> {
    ghost use Rattle.std.specs.Prelude.{ℕ};

    ghost Value = { ℕ };

    ghost view = { λ shelf. shelf.faults };
}

impl<'a, R: Files> FileShelf<'a, R> {
    /// The files that the runtime reaches, with no fault counted.
    pub fn new(rt: &'a R) -> FileShelf<'a, R>
        ensures { result ≡ 0 }
    {
        FileShelf {
            rt,
            faults: 0,
            reason: None,
        }
    }
}

impl<'a, R: Files> Shelf for FileShelf<'a, R> {
    ghost use Rattle.bs_outside.specs.Opening.{fetch_faults};

    ghost held = { λ _ _. None };

    // One count stands for every name.
    ghost faults = { λ shelf _. shelf };

    ghost leads = { λ before call now. now ≡ fetch_faults before call.answer };

    fn fetch(&mut self, name: &str, limit: u64, into: &mut Vec<u8>) -> Fetch {
        fetch_with_reason(
            File::open(self.rt, name),
            &mut self.faults,
            &mut self.reason,
            limit,
            into,
        )
    }

    fn reason(&self) -> Option<ErrorKind> {
        self.reason
    }
}
