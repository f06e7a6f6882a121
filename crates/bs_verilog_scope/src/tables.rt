//! What is said of names, and which names are marked: each a map that has no names but those that were put into it.
ghost use Rattle.std.specs.Prelude.{◌≡◌, ℕ, [], OnOk};
ghost use Rattle.bs_verilog_scope.specs.Checking.{looked, marked, with_entry, with_mark};

use bs_bits::NoMemory;
use bs_verilog_syntax::Says;
use indexmap::{IndexMap, IndexSet};
use std::alloc::Global;
use std::marker::Model;

/// What is said of each name that a module declares, by the name's number.
#[derive(Drop)]
pub struct Scope {
    says: IndexMap<u32, Says>,
}

impl Model for Scope {
    ghost use Rattle.bs_verilog_scope.specs.Checking.{Entries};

    ghost Value = { Entries };

    ghost view = { λ scope. scope.says.entries };
}

impl Scope {
    /// Nothing is said of any name.
    pub fn new(alloc: Global) -> Scope
        ensures { result ≡ [] }
    {
        Scope {
            says: IndexMap::new(alloc),
        }
    }

    /// What is said of the name with a number.
    pub fn get(&self, id: u32) -> Option<Says>
        ensures { result ≡ looked self.now id }
    {
        self.says.get(&id).copied()
    }

    /// Says this of the name with a number, in place of what was said before.
    pub fn put(&mut self, id: u32, says: Says) -> Result<(), NoMemory>
        ensures { OnOk result ((k : ℕ) → looked self.new k ≡ with_entry (looked self.old) id says k) }
    {
        self.says.insert(id, says)?;
        Ok(())
    }
}

/// The marked names, by their numbers.
#[derive(Drop)]
pub struct NameMarks {
    ids: IndexSet<u32>,
}

impl Model for NameMarks {
    ghost use Rattle.std.specs.Prelude.{List, ℕ};

    ghost Value = { List ℕ };

    ghost view = { λ marks. marks.ids.keys };
}

impl NameMarks {
    /// No name is marked.
    pub fn new(alloc: Global) -> NameMarks
        ensures { result ≡ [] }
    {
        NameMarks {
            ids: IndexSet::new(alloc),
        }
    }

    /// Whether the name with a number is marked.
    pub fn has(&self, id: u32) -> bool
        ensures { result ≡ marked self.now id }
    {
        self.ids.contains(&id)
    }

    /// Marks the name with a number.
    pub fn put(&mut self, id: u32) -> Result<(), NoMemory>
        ensures { OnOk result ((k : ℕ) → marked self.new k ≡ with_mark (marked self.old) id k) }
    {
        self.ids.insert(id)?;
        Ok(())
    }
}
