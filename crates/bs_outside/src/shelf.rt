//! Files by name, as the program sees them.
ghost use Rattle.std.specs.Prelude.{◌≡◌, ℕ, List};
ghost use Rattle.std.specs.declared.option.Option.{Option};
ghost use Rattle.bs_outside.specs.Calls.{fetch_call, FetchCall};
ghost use Rattle.bs_outside.specs.Fetching.{CountsFaults, Fetches};

use std::io::ErrorKind;

/// How a fetch ended.
#[derive(Clone, Copy, Debug, PartialEq, Eq)]
pub enum Fetch {
    /// All bytes of the name were appended.
    Done,
    /// The file isn't there or couldn't be read.
    Failed,
    /// The file has more bytes than the limit, and more than that many were appended.
    TooLong,
    /// Memory ran out.
    NoMemory,
}

/// Files by name. No count of faults ever falls, and none rises in a call that doesn't answer `Failed`.
pub trait Shelf {
    /// The bytes of a name, where the shelf tells them.
    ghost held: { Self → List ℕ → Option (List ℕ) };

    /// How often a fetch of a name has failed.
    ghost faults: { Self → List ℕ → ℕ };

    /// A call leads from the shelf as it was to the shelf as it is. So a clause can name the calls that were made, in their
    /// order (`InTurn`).
    ghost leads: { Self → FetchCall → Self → Type 0 };

    /// Appends the bytes of a name to `into`, read to the end, or more than `limit` of them. It fails only where the
    /// count of that name rises or stands at the greatest `u64`. After `Failed` and `NoMemory` the old content still
    /// stands in front, and some bytes may follow it.
    fn fetch(&mut self, name: &str, limit: u64, into: &mut Vec<u8>) -> Fetch
        ensures bytes { Fetches (held self.old name.now) limit into.old.items into.new.items result }
        ensures held { (other : List ℕ) → held self.new other ≡ held self.old other }
        ensures cause { CountsFaults (faults self.old) (faults self.new) name.now result }
        ensures call { leads self.old (fetch_call name.now limit result into.old.items into.new.items) self.new };

    /// The kind of the last fault, where it is known: for a person, and no clause speaks of it.
    fn reason(&self) -> Option<ErrorKind> {
        None
    }
}
