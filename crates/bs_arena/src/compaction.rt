//! Compaction: the live clauses move together.
ghost use Rattle.std.specs.Prelude.{◌≡◌, ◌≤◌, length, map, zip, vec_len, vec_capacity};
ghost use Rattle.bs_arena.specs.Words.{spelling_of};
ghost use Rattle.bs_arena.specs.Arena.{IsWellFormed, clauses_of, kept_in};
ghost use Rattle.bs_arena.specs.Renaming.{IsRenaming};

use crate::header::{is_live_at, size_at};
use crate::reference::{Ref, WORD_LIMIT};
use crate::renaming::Renaming;

/// Moves the words of the live clauses to the front, and cuts the rest off.
pub fn move_together(words: &mut Vec<u32>, renaming: &mut Renaming)
    requires form { IsWellFormed words.old.items }
    requires few { vec_len words.old ≤ WORD_LIMIT }
    requires room { length (clauses_of words.old.items) ≤ renaming.old.spare }
    ensures words { words.new.items ≡ spelling_of (kept_in words.old.items) }
    ensures len { vec_len words.new ≤ vec_len words.old }
    ensures capacity { vec_capacity words.new ≡ vec_capacity words.old }
    ensures names { renaming.new.names ≡ zip (map (λ h. h.ref) (clauses_of words.old.items)) (map (λ h. h.ref) (clauses_of words.new.items)) }
    ensures renames { IsRenaming (clauses_of words.old.items) (clauses_of words.new.items) renaming.new.names }
    ensures spare { renaming.old.spare ≤ renaming.new.spare }
{
    renaming.clear();
    let (mut from, mut to) = (0, 0);
    'clauses: while from < words.len() {
        let size = size_at(words.as_slice(), from);
        if is_live_at(words.as_slice(), from) {
            words.copy_within(from..from + size, to);
            renaming.push(Ref::new(from), Ref::new(to));
            to += size;
        }
        from += size;
    }
    words.truncate(to);
}
