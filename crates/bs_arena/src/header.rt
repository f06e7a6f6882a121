//! How a clause stands in the words: a header of four words, and the codes of its literals.
ghost use Rattle.std.specs.Prelude.{◌≡◌, ℕ, List, ◌+◌, ◌*◌, ◌^◌, ◌<◌, ◌≤◌, ◌==◌, ◌++◌, true, map, length, slice_index, vec_len, vec_capacity, All};
ghost use Rattle.std.specs.Prelude.{IsOk, OnOk, OnErr};
ghost use Rattle.bs_clause.specs.Literal.{code_of, IsCode};
ghost use Rattle.bs_arena.specs.Arena.{spare_of};
ghost use Rattle.bs_arena.specs.Words.{Stored, spelling, IsClauseAt};

use crate::reference::WORD_LIMIT;
use bs_clause::{Lit, NoMemory};

/// The words before a clause's literals: the lower and the upper half of the id, the number of
/// literals, and 1 for a live clause or 0 for a dead one.
pub const HEADER: usize = 4;

/// Where the number of literals stands in the header.
/// Behind the two halves of the id.
pub const LENGTH: usize = 2;

/// Where the header says whether the clause is live.
/// The last word before the literals.
pub const LIVE: usize = 3;

/// Makes room for this many more words, where there are then at most `WORD_LIMIT`.
pub fn reserve_words(words: &mut Vec<u32>, count: usize) -> Result<(), NoMemory>
    requires { vec_len words.old ≤ WORD_LIMIT }
    ensures items { words.new.items ≡ words.old.items }
    ensures len { vec_len words.new ≡ vec_len words.old }
    ensures room { OnOk result (count ≤ spare_of (vec_capacity words.new) (vec_len words.old)) }
    ensures fits { OnOk result (vec_len words.old + count ≤ vec_capacity words.new) }
    ensures few { OnOk result (vec_len words.old + count ≤ WORD_LIMIT) }
    ensures kept { vec_capacity words.old ≤ vec_capacity words.new }
    ensures succeeds { count ≤ spare_of (vec_capacity words.old) (vec_len words.old) → IsOk result }
    ensures err { OnErr result (vec_capacity words.new ≡ vec_capacity words.old) }
{
    if WORD_LIMIT - words.len() < count {
        return Err(NoMemory);
    }
    words.reserve(count)?;
    Ok(())
}

/// Puts the words of a live clause at the end.
pub fn push_clause(words: &mut Vec<u32>, id: u64, literals: &[Lit])
    requires short { length literals.now < 2 ^ 32 }
    requires room { vec_len words.old + length literals.now + 4 ≤ vec_capacity words.old }
    ensures words { words.new.items ≡ words.old.items ++ spelling (record { id = id; live = true; codes = map code_of literals.now }) }
    ensures capacity { vec_capacity words.old ≤ vec_capacity words.new }
    ensures len { vec_len words.new ≡ vec_len words.old + length literals.now + 4 }
    ensures codes { All (λ l. IsCode (code_of l)) literals.now }
{
    let _ = words.push((id % 0x1_0000_0000) as u32);
    let _ = words.push((id / 0x1_0000_0000) as u32);
    let _ = words.push(literals.len() as u32);
    let _ = words.push(1);
    push_codes(words, literals);
}

fn push_codes(words: &mut Vec<u32>, literals: &[Lit])
    requires { vec_len words.old + length literals.now ≤ vec_capacity words.old }
    ensures words { words.new.items ≡ words.old.items ++ map code_of literals.now }
    ensures capacity { vec_capacity words.old ≤ vec_capacity words.new }
    ensures len { vec_len words.new ≡ vec_len words.old + length literals.now }
    ensures codes { All (λ l. IsCode (code_of l)) literals.now }
{
    for l in literals {
        let _ = words.push(l.code());
    }
}

/// The number of words of the clause at a place.
pub fn size_at(words: &[u32], at: usize) -> usize
    requires { at + 3 < length words.now }
    ensures { result ≡ slice_index words.now (at + 2) + 4 }
{
    words[at + LENGTH] as usize + HEADER
}

/// Whether the clause at a place is live.
pub fn is_live_at(words: &[u32], at: usize) -> bool
    requires { at + 3 < length words.now }
    ensures { result ≡ (slice_index words.now (at + 3) == 1) }
{
    words[at + LIVE] == 1
}

/// The id of the clause at a place.
pub fn id_at(words: &[u32], at: usize) -> u64
    requires { at + 3 < length words.now }
    ensures { result ≡ slice_index words.now at + 2 ^ 32 * slice_index words.now (at + 1) }
{
    u64::from(words[at]) + 0x1_0000_0000 * u64::from(words[at + 1])
}

/// The literal codes of the clause at a place.
pub fn codes_at(words: &[u32], at: usize) -> &[u32]
    requires { IsClauseAt words.now at }
    ensures { (before rest : List ℕ) (c : Stored) → at ≡ length before → words.now ≡ before ++ spelling c ++ rest → result.now ≡ c.codes }
{
    let count = words[at + LENGTH] as usize;
    &words[at + HEADER..at + HEADER + count]
}
