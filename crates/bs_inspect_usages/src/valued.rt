//! Which options have values: a word that lacks its option's value, or gives one to an option without any.
ghost use Rattle.std.specs.Prelude.{◌≡◌, ◌++◌, IfOk};
ghost use Rattle.bs_inspect_usages.specs.Usages.{has_needless, is_no_value, is_worded, lack_text, lacks_value, needless_text, option_name};

use crate::usage::option_name;
use bs_bits::{NoMemory, push_piece};
use bs_inspect_notes::{is_one_of, push_word};
use bs_vcd_header::is_text;
use std::alloc::Global;

/// The options whose value is a word.
const WORDED: [&[u8]; 5] = [b"--only", b"--clock", b"--scope", b"--map", b"--signature"];

/// The options without a value.
const BARE: [&[u8]; 4] = [b"--all", b"--csv", b"--flops", b"--partial"];

/// Whether a word is all of an option whose value is a word.
pub fn is_worded(word: &[u8]) -> bool
    ensures { result ≡ is_worded word.now }
{
    is_one_of(word, &WORDED)
}

/// Whether what stands behind a word is no value: nothing, or what begins with `-`.
fn is_no_value(next: &[u8]) -> bool
    ensures { result ≡ is_no_value next.now }
{
    let none = next.len() == 0;
    let dashed = next.starts_with(b"-".as_slice());
    none || dashed
}

/// Whether a word is all of an option whose value is a word, and no value stands behind it.
pub fn lacks_value(word: &[u8], next: &[u8]) -> bool
    ensures { result ≡ lacks_value word.now next.now }
{
    let worded = is_worded(word);
    let none = is_no_value(next);
    worded && none
}

/// Whether a word gives a value to an option without one.
pub fn has_needless(word: &[u8]) -> bool
    ensures { result ≡ has_needless word.now }
{
    let name = option_name(word);
    let bare = is_one_of(name, &BARE);
    let whole = is_text(name, word);
    bare && !whole
}

/// What is said of a word with its number, whose option has no value.
#[tactic(auto, unfolding(crate::specs::Usages::lack_text))]
pub fn lack_sentence(alloc: Global, number: u64, word: &[u8]) -> Result<Vec<u8>, NoMemory>
    ensures { IfOk result (λ said. said.items ≡ lack_text number word.now) }
{
    let mut said = Vec::new(alloc);
    push_word(&mut said, number, word)?;
    push_piece(
        &mut said,
        b", has no value; one that begins with `-` stands in the same word, behind a `=`",
    )?;
    Ok(said)
}

/// What is said of a word with its number, whose option takes no value.
#[tactic(auto, unfolding(crate::specs::Usages::needless_text))]
pub fn needless_sentence(alloc: Global, number: u64, word: &[u8]) -> Result<Vec<u8>, NoMemory>
    ensures { IfOk result (λ said. said.items ≡ needless_text number word.now) }
{
    let mut said = Vec::new(alloc);
    push_word(&mut said, number, word)?;
    push_piece(&mut said, b", gives a value to an option that takes none")?;
    Ok(said)
}
