//! The new references that a compaction gave.
ghost use Rattle.std.specs.Prelude.{◌≡◌, ◌<◌, ◌≤◌, [], ◌∷◌, ◌++◌, length, All, IsOk, OnOk, OnErr};
ghost use Rattle.bs_arena.specs.Renaming.{IsPlaceOf, new_name};

use crate::reference::Ref;
use bs_clause::NoMemory;
use std::alloc::Global;
use std::marker::Model;

/// The old and the new reference of each clause that was live at the last compaction. Contracts
/// see these pairs, and how many there is room for.
#[derive(Drop)]
pub struct Renaming {
    names: Vec<(Ref, Ref)>,
}

impl Model for Renaming {
    ghost use Rattle.std.specs.Prelude.{vec_capacity};
    ghost use Rattle.bs_arena.specs.Renaming.{NewNames, IsAscending};

    ghost Value = { NewNames };

    ghost view = { λ map. record { names = map.names.items; spare = vec_capacity map.names } };

    ghost invariant = { λ map. IsAscending map.names.items };
}

impl Renaming {
    /// A renaming before any compaction.
    pub fn new(alloc: Global) -> Renaming
        ensures { result.names ≡ [] }
    {
        Renaming {
            names: Vec::new(alloc),
        }
    }

    /// Makes room for a compaction of this many live clauses.
    pub fn reserve(&mut self, count: usize) -> Result<(), NoMemory>
        ensures room { OnOk result (count ≤ self.new.spare) }
        ensures kept { self.old.spare ≤ self.new.spare }
        ensures succeeds { count ≤ self.old.spare → IsOk result }
        ensures names { self.new.names ≡ self.old.names }
        ensures err { OnErr result (self.new ≡ self.old) }
    {
        self.names.reserve(count.saturating_sub(self.names.len()))?;
        Ok(())
    }

    /// How many live clauses a compaction into this renaming may meet.
    pub fn spare(&self) -> usize
        ensures { result ≡ self.now.spare }
    {
        self.names.capacity()
    }

    /// The clause's new reference, or None where it was not live at the last compaction.
    pub fn get(&self, r: Ref) -> Option<Ref>
        ensures { result ≡ new_name self.now.names r }
    {
        let mut low = 0;
        let mut high = self.names.len();
        while low < high {
            let middle = low + (high - low) / 2;
            if self.names[middle].0.at() < r.at() {
                low = middle + 1;
            } else {
                high = middle;
            }
        }
        self.name_at(low, r)
    }

    // The new reference in the pair at a place, if the old one is there.
    fn name_at(&self, place: usize, r: Ref) -> Option<Ref>
        requires { IsPlaceOf self.now.names r place }
        ensures { result ≡ new_name self.now.names r }
    {
        if place < self.names.len() && self.names[place].0.at() == r.at() {
            Some(self.names[place].1)
        } else {
            None
        }
    }

    /// Forgets the last compaction.
    pub(crate) fn clear(&mut self)
        ensures names { self.new.names ≡ [] }
        ensures spare { self.new.spare ≡ self.old.spare }
    {
        self.names.clear();
    }

    /// Notes the new reference of one more clause, whose old one is beyond those before it.
    pub(crate) fn push(&mut self, old: Ref, new: Ref)
        requires room { length self.old.names < self.old.spare }
        requires beyond { All (λ name. name.0 < old) self.old.names }
        ensures names { self.new.names ≡ self.old.names ++ (old, new) ∷ [] }
        ensures spare { self.old.spare ≤ self.new.spare }
    {
        self.names.push_reserved((old, new));
    }
}
