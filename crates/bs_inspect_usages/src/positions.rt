//! How many words by position each command takes, and the one that is a number.
ghost use Rattle.std.specs.Prelude.{◌≡◌, ◌++◌, [], codes, decimal, length, map, slice_index_or, string_bytes, IfOk, OnOk};
ghost use Rattle.bs_bits.specs.Lines.{number_in};
ghost use Rattle.bs_top_words.specs.Asked.{shown};
ghost use Rattle.bs_inspect_usages.specs.Usages.{counted_text, given_of, is_bad_run, is_miscounted, lies_outside, placed_text, places_of, run_bounds, run_text, stand_by, stand_sentence, third_text};

use crate::given::given_words;
use crate::reason::{Bounds, bounds_in, copy_of, is_between, push_bounds};
use bs_bits::{NoMemory, push_number, push_piece, read_number};
use bs_inspect_notes::push_name;
use bs_stim::MAX_RUNS;
use bs_top_words::Given;
use bs_vcd_header::is_text;
use std::alloc::Global;

/// As many words as there may be.
pub const MANY: u64 = 18_446_744_073_709_551_615;

/// How many words by position each command takes.
const PLACES: [((&str, &str), Bounds); 26] = [
    (("flops", ""), Bounds { least: 1, most: 1 }),
    (
        ("keys", ""),
        Bounds {
            least: 2,
            most: MANY,
        },
    ),
    (
        ("seen", ""),
        Bounds {
            least: 2,
            most: MANY,
        },
    ),
    (("inputs", ""), Bounds { least: 1, most: 1 }),
    (("stats", ""), Bounds { least: 1, most: 1 }),
    (("trace", ""), Bounds { least: 2, most: 2 }),
    (("steps", ""), Bounds { least: 1, most: 1 }),
    (("candidates", ""), Bounds { least: 2, most: 2 }),
    (("wave", ""), Bounds { least: 2, most: 2 }),
    (("gtkw", ""), Bounds { least: 3, most: 3 }),
    (("page", ""), Bounds { least: 2, most: 2 }),
    (
        ("stimulus", ""),
        Bounds {
            least: 2,
            most: MAX_RUNS as u64 + 1,
        },
    ),
    (
        ("check", ""),
        Bounds {
            least: 3,
            most: MAX_RUNS as u64 + 2,
        },
    ),
    (("dump", ""), Bounds { least: 2, most: 2 }),
    (("signature", ""), Bounds { least: 2, most: 2 }),
    (("unscan", ""), Bounds { least: 3, most: 3 }),
    (("bench", ""), Bounds { least: 4, most: 4 }),
    (("cnf", ""), Bounds { least: 3, most: 3 }),
    (("lrat", ""), Bounds { least: 3, most: 3 }),
    (("reach-cnf", ""), Bounds { least: 3, most: 3 }),
    (("reach-lrat", ""), Bounds { least: 3, most: 3 }),
    (("novel", ""), Bounds { least: 3, most: 3 }),
    (("near", ""), Bounds { least: 3, most: 3 }),
    (("why", ""), Bounds { least: 3, most: 3 }),
    (("help", ""), Bounds { least: 0, most: 0 }),
    (("version", ""), Bounds { least: 0, most: 0 }),
];

/// The numbers that RUN of `novel` may be.
const RUNS: Bounds = Bounds {
    least: 1,
    most: MAX_RUNS as u64,
};

// ---- their number

/// Whether a number lies outside of bounds, where there are any.
fn lies_outside(bounds: Option<Bounds>, count: u64) -> bool
    ensures { result ≡ lies_outside bounds count }
{
    match bounds {
        Some(bounds) => !is_between(bounds, Some(count)),
        None => false,
    }
}

/// How many words by position a command takes.
fn places_of(command: &[u8]) -> Option<Bounds>
    ensures { result ≡ places_of command.now }
{
    bounds_in(command, b"", &PLACES)
}

/// Whether a command takes another number of words by position.
fn is_miscounted(command: &[u8], count: usize) -> bool
    ensures { result ≡ is_miscounted command.now count }
{
    lies_outside(places_of(command), count as u64)
}

/// What is said of their number.
#[tactic(auto, unfolding(crate::specs::Usages::counted_text))]
fn counted_sentence(alloc: Global, count: u64) -> Result<Vec<u8>, NoMemory>
    ensures { IfOk result (λ said. said.items ≡ counted_text count) }
{
    let mut said = b"the number of words by position behind the command is ".to_vec(alloc)?;
    push_number(&mut said, count)?;
    push_piece(
        &mut said,
        b"; a file name with a space in it stands in quotes, and --only takes every word up to the next option",
    )?;
    Ok(said)
}

// ---- RUN of `novel`

/// Whether a command is `novel`, and its third word by position is the number of no run.
fn is_bad_run(command: &[u8], third: &[u8]) -> bool
    ensures { result ≡ is_bad_run command.now third.now }
{
    let novel = is_text(command, b"novel");
    let right = is_between(RUNS, read_number(third));
    novel && !right
}

/// What is said of that word.
#[tactic(auto, unfolding(crate::specs::Usages::run_text))]
fn run_sentence(alloc: Global, third: &[u8]) -> Result<Vec<u8>, NoMemory>
    ensures { IfOk result (λ said. said.items ≡ run_text third.now) }
{
    let mut said = b"RUN, ".to_vec(alloc)?;
    push_name(&mut said, third)?;
    push_bounds(&mut said, RUNS)?;
    Ok(said)
}

// ---- the words by position

/// The words by position and the options behind a command, where these can be told apart.
fn given_of(alloc: Global, words: &[String]) -> Result<Option<Given<'_>>, NoMemory>
    ensures { IfOk result (λ given. shown given ≡ given_of (map string_bytes words.now)) }
{
    let [_, rest @ ..] = words else {
        return Ok(None);
    };
    let given = given_words(alloc, rest)?;
    Ok(given)
}

/// How many words there are.
#[tactic(auto, using(crate::proofs::PlaceLemmas::count_is))]
fn count_in(positions: &[&str]) -> usize
    ensures { result ≡ length (map (λ s. s.now) positions.now) }
{
    positions.len()
}

/// The third word, and an empty one where there are fewer.
#[tactic(auto, using(crate::proofs::PlaceLemmas::third_there, crate::proofs::PlaceLemmas::third_at, crate::proofs::PlaceLemmas::third_past))]
fn third_in<'a>(positions: &[&'a str]) -> &'a [u8]
    ensures { result.now ≡ slice_index_or (map (λ s. s.now) positions.now) 2 [] }
{
    if 2 < positions.len() {
        positions[2].as_bytes()
    } else {
        b""
    }
}

/// What is said where no word is wrong by itself, and their number is right.
fn stand_words() -> &'static str
    ensures { result.now ≡ stand_sentence }
{
    "the words do not stand as this command takes them: its files in this order, and each option that it takes as often as it may stand; --only takes every word up to the next option"
}

/// The same, as a note has it.
fn stand_sentence(alloc: Global) -> Result<Vec<u8>, NoMemory>
    ensures { IfOk result (λ said. said.items ≡ stand_sentence) }
{
    let said = copy_of(alloc, stand_words())?;
    Ok(said)
}

/// What is said by the third word by position.
#[tactic(auto, using(crate::proofs::PlaceLemmas::run_said, crate::proofs::PlaceLemmas::stand_said))]
fn third_sentence(alloc: Global, command: &[u8], third: &[u8]) -> Result<Vec<u8>, NoMemory>
    ensures { IfOk result (λ said. said.items ≡ third_text command.now third.now) }
{
    if is_bad_run(command, third) {
        run_sentence(alloc, third)
    } else {
        stand_sentence(alloc)
    }
}

/// What is said by the number of words by position, and the third of them.
#[tactic(auto, using(crate::proofs::PlaceLemmas::count_said, crate::proofs::PlaceLemmas::third_said))]
fn count_sentence(
    alloc: Global,
    command: &[u8],
    count: usize,
    third: &[u8],
) -> Result<Vec<u8>, NoMemory>
    ensures { IfOk result (λ said. said.items ≡ placed_text command.now count third.now) }
{
    if is_miscounted(command, count) {
        counted_sentence(alloc, count as u64)
    } else {
        third_sentence(alloc, command, third)
    }
}

/// What is said by the words by position.
fn positions_sentence(
    alloc: Global,
    command: &[u8],
    positions: &[&str],
) -> Result<Vec<u8>, NoMemory>
    ensures { IfOk result (λ said. said.items ≡ placed_text command.now (length (map (λ s. s.now) positions.now)) (slice_index_or (map (λ s. s.now) positions.now) 2 [])) }
{
    let count = count_in(positions);
    let third = third_in(positions);
    let said = count_sentence(alloc, command, count, third)?;
    Ok(said)
}

/// What is said of words of a command that are right by themselves.
#[tactic(auto, using(crate::proofs::PlaceLemmas::given_said, crate::proofs::PlaceLemmas::none_said))]
pub fn placed_sentence(alloc: Global, command: &[u8], words: &[String]) -> Result<Vec<u8>, NoMemory>
    ensures { IfOk result (λ said. said.items ≡ stand_by command.now (given_of (map string_bytes words.now))) }
{
    let Some(given) = given_of(alloc, words)? else {
        let said = stand_sentence(alloc)?;
        return Ok(said);
    };
    let said = positions_sentence(alloc, command, given.positions.as_slice())?;
    Ok(said)
}
