//! The watch lists: for each literal the clauses that watch it.
ghost use Rattle.std.specs.Prelude.{◌≡◌, ◌<◌, ◌==◌, [], ◌∷◌, ◌++◌, length, take, replicate, slice_get, slice_set, Some, IfOk, OnOk, OnErr, map, swap_remove};
ghost use Rattle.bs_clause.specs.Literal.{code_of};
ghost use Rattle.bs_watch.specs.Lists.{row, with_row, with_watcher, renamed_lists};

use crate::renaming::rename_rows;
use bs_arena::{Ref, Renaming};
use bs_clause::{Lit, NoMemory};
use std::alloc::Global;
use std::marker::Model;

/// A clause in a watch list, with one of its literals, the blocker: where that is true, the clause
/// need not be read.
#[derive(Clone, Copy)]
pub struct Watcher {
    pub clause: Ref,
    pub blocker: Lit,
}

/// For each code the watchers of its literal.
#[derive(Drop)]
pub struct WatchLists {
    rows: Vec<Vec<Watcher>>,
}

impl Model for WatchLists {
    ghost use Rattle.std.specs.Prelude.{List, map};
    ghost use Rattle.bs_watch.specs.declared.lists.Watcher.{Watcher};

    ghost Value = { List (List Watcher) };

    ghost view = { λ l. map (λ v. v.items) l.rows.items };
}

impl WatchLists {
    /// So many empty lists.
    pub fn new(alloc: Global, count: usize) -> Result<WatchLists, NoMemory>
        ensures { IfOk result (λ l. l ≡ replicate count []) }
    {
        let mut rows = Vec::new(alloc);
        for _ in 0..count {
            rows.push(Vec::new(alloc))?;
        }
        Ok(WatchLists { rows })
    }

    /// The number of lists.
    pub fn rows(&self) -> usize
        ensures { result ≡ length self.now }
    {
        self.rows.len()
    }

    /// Two more lists, which are empty.
    pub fn grow(&mut self, alloc: Global) -> Result<(), NoMemory>
        ensures ok { OnOk result (self.new ≡ self.old ++ [] ∷ [] ∷ []) }
        ensures err { OnErr result (self.new ≡ self.old) }
    {
        self.rows.reserve(2)?;
        let _ = self.rows.push(Vec::new(alloc));
        let _ = self.rows.push(Vec::new(alloc));
        Ok(())
    }

    /// Gives up all lists but the first so many.
    pub fn cut(&mut self, count: usize)
        ensures { self.new ≡ take count self.old }
    {
        self.rows.truncate(count);
    }

    /// Makes room for more watchers in the list of a code, if there is one.
    pub fn reserve(&mut self, code: usize, more: usize) -> Result<(), NoMemory>
        ensures { self.new ≡ self.old }
    {
        if code < self.rows.len() {
            self.rows[code].reserve(more)?;
        }
        Ok(())
    }

    /// The number of watchers of a literal.
    pub fn len(&self, l: Lit) -> usize
        requires { code_of l < length self.now }
        ensures { result ≡ length (row self.now l) }
    {
        self.rows[l.code() as usize].len()
    }

    /// Whether a literal has no watcher.
    pub fn is_empty(&self, l: Lit) -> bool
        ensures { result ≡ (length (row self.now l) == 0) }
    {
        match self.rows.get(l.code() as usize) {
            Some(watchers) => watchers.is_empty(),
            None => true,
        }
    }

    /// A watcher of a literal.
    pub fn get(&self, l: Lit, at: usize) -> Watcher
        requires code { code_of l < length self.now }
        requires at { at < length (row self.now l) }
        ensures { slice_get (row self.now l) at ≡ Some result }
    {
        self.rows[l.code() as usize][at]
    }

    /// One more watcher of a literal.
    pub fn push(&mut self, l: Lit, watcher: Watcher) -> Result<(), NoMemory>
        requires { code_of l < length self.old }
        ensures ok { OnOk result (self.new ≡ with_watcher self.old l watcher) }
        ensures err { OnErr result (self.new ≡ self.old) }
    {
        self.rows[l.code() as usize].push(watcher)?;
        Ok(())
    }

    /// Another watcher in the place of one.
    pub fn set(&mut self, l: Lit, at: usize, watcher: Watcher)
        requires code { code_of l < length self.old }
        requires at { at < length (row self.old l) }
        ensures { self.new ≡ with_row self.old l (slice_set (row self.old l) at watcher) }
    {
        self.rows[l.code() as usize][at] = watcher;
    }

    /// Takes a watcher out; the last one takes its place.
    pub fn remove(&mut self, l: Lit, at: usize) -> Watcher
        requires code { code_of l < length self.old }
        requires at { at < length (row self.old l) }
        ensures { self.new ≡ with_row self.old l (swap_remove (row self.old l) at result) }
    {
        self.rows[l.code() as usize].swap_remove(at)
    }

    /// Each clause has its new reference.
    pub fn rename(&mut self, names: &Renaming)
        ensures { self.new ≡ renamed_lists names.now.names self.old }
    {
        rename_rows(&mut self.rows, names);
    }
}
