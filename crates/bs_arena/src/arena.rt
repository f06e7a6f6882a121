//! The arena, a list of live clauses in one vector.
ghost use Rattle.std.specs.Prelude.{◌≡◌, ◌+◌, ◌<◌, ◌≤◌, ◌==◌, not, [], ◌∷◌, ◌++◌, map, length, filter, if◌then◌else◌, zip, option_map, Some, None};
ghost use Rattle.std.specs.Prelude.{Contains, IsSome, is_some, IsOk, OnOk, OnErr, IfOk};
ghost use Rattle.bs_clause.specs.Literal.{AreCodes, code_of};
ghost use Rattle.bs_arena.specs.Arena.{IsContent, Keeps, KeepsOthers, held_at, literals_at, live_words, meaning, swapped};
ghost use Rattle.bs_arena.specs.Renaming.{IsRenaming};

use crate::compaction::move_together;
use crate::header::{
    HEADER, LIVE, codes_at, id_at, is_live_at, push_clause, reserve_words, size_at,
};
use crate::reference::{Ref, WORD_LIMIT};
use crate::renaming::Renaming;
use bs_clause::{Lit, NoMemory};
use std::alloc::Global;
use std::marker::Model;

/// The clauses of a run, one after another in one vector of words. Contracts see the live clauses
/// in order, each with its reference, its id and its literals, the references of all clauses since
/// the last compaction, and how many words are in use and how many more there is room for. There are never more than `WORD_LIMIT` words.
#[derive(Drop)]
pub struct Arena {
    words: Vec<u32>,
    live: usize,
    count: usize,
}

impl Model for Arena {
    ghost use Rattle.std.specs.Prelude.{length, vec_capacity, vec_len};
    ghost use Rattle.bs_arena.specs.Arena.{Content, clauses_of, places_of, spare_of, IsArena};

    ghost Value = { Content };

    ghost view = { λ a. record { clauses = clauses_of a.words.items; places = places_of a.words.items; words = vec_len a.words; spare = spare_of (vec_capacity a.words) (vec_len a.words) } };

    ghost invariant = { λ a. IsArena a.words.items a.live a.count };
}

impl Arena {
    /// An arena without clauses.
    pub fn new(alloc: Global) -> Arena
        ensures clauses { result.clauses ≡ [] }
        ensures places { result.places ≡ [] }
        ensures words { result.words ≡ 0 }
    {
        Arena {
            words: Vec::new(alloc),
            live: 0,
            count: 0,
        }
    }

    /// Makes room for this many more words. It answers out of memory also where there would be more than `WORD_LIMIT`.
    pub fn reserve(&mut self, words: usize) -> Result<(), NoMemory>
        ensures room { OnOk result (words ≤ self.new.spare) }
        ensures kept { self.old.spare ≤ self.new.spare }
        ensures succeeds { words ≤ self.old.spare → IsOk result }
        ensures clauses { self.new.clauses ≡ self.old.clauses }
        ensures places { self.new.places ≡ self.old.places }
        ensures words { self.new.words ≡ self.old.words }
        ensures err { OnErr result (self.new ≡ self.old) }
    {
        reserve_words(&mut self.words, words)
    }

    /// How many more words there is room for.
    pub fn spare(&self) -> usize
        ensures { result ≡ self.now.spare }
    {
        self.words.capacity().min(WORD_LIMIT) - self.words.len()
    }

    /// The words in use, those of dead clauses among them.
    pub fn words(&self) -> usize
        ensures { result ≡ self.now.words }
    {
        self.words.len()
    }

    /// The words of the live clauses.
    pub fn live(&self) -> usize
        ensures { result ≡ live_words self.now.clauses }
    {
        self.live
    }

    /// The number of live clauses.
    pub fn count(&self) -> usize
        ensures { result ≡ length self.now.clauses }
    {
        self.count
    }

    /// Appends a clause, which takes four words and one for each literal. It answers out of memory also where there
    /// would be more than `WORD_LIMIT` words.
    pub fn add(&mut self, id: u64, lits: &[Lit]) -> Result<Ref, NoMemory>
        ensures clauses { IfOk result (λ r. self.new.clauses ≡ self.old.clauses ++ record { ref = r; id = id; literals = lits.now } ∷ []) }
        ensures places { IfOk result (λ r. self.new.places ≡ self.old.places ++ r ∷ []) }
        ensures found { IfOk result (λ r. held_at self.new.clauses r ≡ Some (record { ref = r; id = id; literals = lits.now })) }
        ensures fresh { IfOk result (λ r. held_at self.old.clauses r ≡ None) }
        ensures keeps { Keeps self.old.clauses self.new.clauses }
        ensures words { OnOk result (self.new.words ≡ self.old.words + length lits.now + 4) }
        ensures spare { self.old.spare ≤ self.new.spare + length lits.now + 4 }
        ensures succeeds { length lits.now + 4 ≤ self.old.spare → IsOk result }
        ensures err { OnErr result (self.new ≡ self.old) }
    {
        reserve_words(&mut self.words, lits.len() + HEADER)?;
        let at = self.words.len();
        push_clause(&mut self.words, id, lits);
        self.live += lits.len() + HEADER;
        self.count += 1;
        Ok(Ref::new(at))
    }

    /// The codes of a live clause's literals, lent from the vector.
    pub fn lits(&self, r: Ref) -> &[u32]
        requires { IsSome (held_at self.now.clauses r) }
        ensures literals { result.now ≡ map code_of (literals_at self.now.clauses r) }
        ensures codes { AreCodes result.now }
    {
        codes_at(self.words.as_slice(), r.at())
    }

    /// The id of a live clause.
    pub fn id(&self, r: Ref) -> u64
        requires { IsSome (held_at self.now.clauses r) }
        ensures { option_map (λ h. h.id) (held_at self.now.clauses r) ≡ Some result }
    {
        id_at(self.words.as_slice(), r.at())
    }

    /// Exchanges two literals of a live clause. Their places count from 0.
    pub fn swap(&mut self, r: Ref, i: usize, j: usize)
        requires live { IsSome (held_at self.old.clauses r) }
        requires first { i < length (literals_at self.old.clauses r) }
        requires second { j < length (literals_at self.old.clauses r) }
        ensures clauses { self.new.clauses ≡ map (λ h. if h.ref == r then swapped h i j else h) self.old.clauses }
        ensures places { self.new.places ≡ self.old.places }
        ensures found { held_at self.new.clauses r ≡ option_map (λ h. swapped h i j) (held_at self.old.clauses r) }
        ensures others { KeepsOthers self.old.clauses self.new.clauses r }
        ensures words { self.new.words ≡ self.old.words }
        ensures spare { self.new.spare ≡ self.old.spare }
    {
        self.words.swap(r.at() + HEADER + i, r.at() + HEADER + j);
    }

    /// Whether a clause is live that was so at some time since the last compaction.
    pub fn is_live(&self, r: Ref) -> bool
        requires { Contains self.now.places r }
        ensures { result ≡ is_some (held_at self.now.clauses r) }
    {
        is_live_at(self.words.as_slice(), r.at())
    }

    /// Takes a live clause out. Its words stay in use until the next compaction.
    pub fn kill(&mut self, r: Ref)
        requires { IsSome (held_at self.old.clauses r) }
        ensures clauses { self.new.clauses ≡ filter (λ h. not (h.ref == r)) self.old.clauses }
        ensures places { self.new.places ≡ self.old.places }
        ensures gone { held_at self.new.clauses r ≡ None }
        ensures others { KeepsOthers self.old.clauses self.new.clauses r }
        ensures words { self.new.words ≡ self.old.words }
        ensures spare { self.new.spare ≡ self.old.spare }
    {
        let size = size_at(self.words.as_slice(), r.at());
        self.words[r.at() + LIVE] = 0;
        self.live -= size;
        self.count -= 1;
    }

    /// Moves the live clauses together, in place and in one pass, so that no dead word is left.
    /// The renaming then gives the new reference of each clause.
    pub fn compact(&mut self, renaming: &mut Renaming)
        requires { length self.old.clauses ≤ renaming.old.spare }
        ensures clauses { map meaning self.new.clauses ≡ map meaning self.old.clauses }
        ensures places { self.new.places ≡ map (λ h. h.ref) self.new.clauses }
        ensures names { renaming.new.names ≡ zip (map (λ h. h.ref) self.old.clauses) (map (λ h. h.ref) self.new.clauses) }
        ensures renames { IsRenaming self.old.clauses self.new.clauses renaming.new.names }
        ensures words { self.new.words ≡ live_words self.new.clauses }
        ensures room { self.new.words + self.new.spare ≡ self.old.words + self.old.spare }
        ensures spare { renaming.old.spare ≤ renaming.new.spare }
    {
        move_together(&mut self.words, renaming);
    }

    /// What holds of every arena: references ascend, and each clause is one that can be added.
    pub fn holds_clauses(&self)
        ensures { IsContent self.now }
    {
        let _ = &self.words;
    }
}
