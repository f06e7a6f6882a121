//! The lines of a report, each read by itself.
ghost use Rattle.std.specs.Prelude.{◌≡◌, ◌≤◌, ◌^◌, ◌==◌, length, IfOk, IfSome, MatchOption, Some, None};
ghost use Rattle.std.specs.Str.{bytes_eq};
ghost use Rattle.bs_log.specs.LineReading.{id_in};
ghost use Rattle.bs_report.specs.Forms.{at_end as at_end_of, before_in, behind, bits_behind, bits_in, bits_next, budgets_in, cand_in, count_in};
ghost use Rattle.bs_report.specs.Forms.{depth_in, end_in, end_of, finished_end, hit_in, moment_in, number_behind, number_within, older_in};
ghost use Rattle.bs_report.specs.Forms.{run_cycle_in, seen_behind, seen_in, source_in, stop_in, stop_of};

use crate::limits::{MAX_CANDIDATES, MAX_CONFLICTS, MAX_STEPS};
use crate::report::{Before, Budgets, Cand, HitLine, ListEnd, Stop};
use bs_bits::{Bits, NoMemory, Words, read_number};
use bs_scan::Seen;
use bs_stim::{MAX_CYCLES, MAX_RUNS};
use std::alloc::Global;

/// Whether the two are the same bytes.
pub fn is_text(line: &[u8], text: &[u8]) -> bool
    ensures { result ≡ bytes_eq line.now text.now }
{
    line == text
}

/// The number from `low` to `high` that a word is.
pub fn read_within(low: u64, high: u64, word: &[u8]) -> Option<u64>
    ensures value { result ≡ number_within low high word.now }
    ensures range { IfSome result (λ n. (low ≤ n) × (n ≤ high)) }
{
    match read_number(word) {
        None => None,
        Some(number) => {
            if low <= number && number <= high {
                Some(number)
            } else {
                None
            }
        }
    }
}

/// The word behind this one, which comes first.
pub fn word_behind<'a>(words: &mut Words<'a>, tag: &[u8]) -> Option<&'a [u8]>
    ensures { MatchOption result (behind tag.now words.old ≡ None) (λ word. behind tag.now words.old ≡ Some (word.now, words.new)) }
{
    let first = words.next()?;
    if is_text(first, tag) {
        words.next()
    } else {
        None
    }
}

/// The number behind this word.
pub fn read_behind<'a>(words: &mut Words<'a>, tag: &[u8], low: u64, high: u64) -> Option<u64>
    ensures value { MatchOption result (number_behind tag.now low high words.old ≡ None) (λ n. number_behind tag.now low high words.old ≡ Some (n, words.new)) }
    ensures range { IfSome result (λ n. (low ≤ n) × (n ≤ high)) }
{
    let word = word_behind(words, tag)?;
    read_within(low, high, word)
}

/// The bits behind this word.
fn read_bits_behind<'a>(
    alloc: Global,
    words: &mut Words<'a>,
    tag: &[u8],
) -> Result<Option<Bits>, NoMemory>
    ensures { IfOk result (λ found. MatchOption found (bits_behind tag.now words.old ≡ None) (λ bits. bits_behind tag.now words.old ≡ Some (bits, words.new))) }
{
    match word_behind(words, tag) {
        None => Ok(None),
        Some(word) => Bits::read_text(alloc, word),
    }
}

/// What is seen behind this word.
fn read_seen_behind<'a>(
    alloc: Global,
    words: &mut Words<'a>,
    tag: &[u8],
) -> Result<Option<Seen>, NoMemory>
    ensures { IfOk result (λ found. MatchOption found (seen_behind tag.now words.old ≡ None) (λ seen. seen_behind tag.now words.old ≡ Some (seen, words.new))) }
{
    match word_behind(words, tag) {
        None => Ok(None),
        Some(word) => Seen::read_text(alloc, word),
    }
}

/// The bits that the next word is.
fn read_bits_next<'a>(alloc: Global, words: &mut Words<'a>) -> Result<Option<Bits>, NoMemory>
    ensures { IfOk result (λ found. MatchOption found (bits_next words.old ≡ None) (λ bits. bits_next words.old ≡ Some (bits, words.new))) }
{
    match words.next() {
        None => Ok(None),
        Some(word) => Bits::read_text(alloc, word),
    }
}

/// The value, where no word is left.
pub fn at_end<'a, T: Drop>(words: &mut Words<'a>, value: T) -> Option<T>
    ensures { result ≡ at_end_of words.old value }
{
    if words.end() { Some(value) } else { None }
}

/// The depth that the first line names.
pub fn read_depth(line: &[u8]) -> Option<u8>
    ensures { result ≡ depth_in line.now }
{
    if is_text(line, b"backspace 1") {
        Some(1)
    } else if is_text(line, b"backspace 2") {
        Some(2)
    } else {
        None
    }
}

/// The number in a line of this word and a number below 2^64.
pub fn read_count(line: &[u8], tag: &[u8]) -> Option<u64>
    ensures { result ≡ count_in tag.now line.now }
{
    let mut words = Words::of(line);
    let word = word_behind(&mut words, tag)?;
    let count = read_number(word)?;
    at_end(&mut words, count)
}

/// The bits in a line of this word and bits.
pub fn read_bits(alloc: Global, line: &[u8], tag: &[u8]) -> Result<Option<Bits>, NoMemory>
    ensures { IfOk result (λ bits. bits ≡ bits_in tag.now line.now) }
{
    let mut words = Words::of(line);
    match read_bits_behind(alloc, &mut words, tag)? {
        None => Ok(None),
        Some(bits) => Ok(at_end(&mut words, bits)),
    }
}

/// What is seen in a line of this word and bits, of which some may not be known.
pub fn read_seen(alloc: Global, line: &[u8], tag: &[u8]) -> Result<Option<Seen>, NoMemory>
    ensures { IfOk result (λ seen. seen ≡ seen_in tag.now line.now) }
{
    let mut words = Words::of(line);
    match read_seen_behind(alloc, &mut words, tag)? {
        None => Ok(None),
        Some(seen) => Ok(at_end(&mut words, seen)),
    }
}

/// The budgets that a line says.
pub fn read_budgets(line: &[u8]) -> Option<Budgets>
    ensures { result ≡ budgets_in line.now }
{
    let mut words = Words::of(line);
    let steps = read_behind(&mut words, b"asked", 1, MAX_STEPS)?;
    let candidates = read_behind(&mut words, b"candidates", 1, MAX_CANDIDATES)?;
    let conflicts = read_behind(&mut words, b"conflicts", 1, MAX_CONFLICTS)?;
    at_end(
        &mut words,
        Budgets {
            steps,
            candidates,
            conflicts,
        },
    )
}

/// The older signature that a line says, or that there is none.
pub fn read_older(alloc: Global, line: &[u8]) -> Result<Option<Option<Bits>>, NoMemory>
    ensures { IfOk result (λ older. older ≡ older_in line.now) }
{
    if is_text(line, b"older none") {
        return Ok(Some(None));
    }
    match read_bits(alloc, line, b"older")? {
        None => Ok(None),
        Some(bits) => Ok(Some(Some(bits))),
    }
}

/// The state and the input of the words behind `from`.
fn read_source<'a>(alloc: Global, words: &mut Words<'a>) -> Result<Option<Before>, NoMemory>
    ensures { IfOk result (λ before. before ≡ source_in words.old) }
{
    let Some(state) = read_bits_next(alloc, words)? else {
        return Ok(None);
    };
    let Some(input) = read_bits_behind(alloc, words, b"input")? else {
        return Ok(None);
    };
    Ok(at_end(words, Before { state, input }))
}

/// The state before a candidate that the words behind its input say, or that none is named.
fn read_before<'a>(
    alloc: Global,
    depth: u8,
    words: &mut Words<'a>,
) -> Result<Option<Option<Before>>, NoMemory>
    ensures { IfOk result (λ before. before ≡ before_in depth words.old) }
{
    let Some(word) = words.next() else {
        return Ok(Some(None));
    };
    if depth == 1 {
        return Ok(None);
    }
    if !is_text(word, b"from") {
        return Ok(None);
    }
    match read_source(alloc, words)? {
        None => Ok(None),
        Some(before) => Ok(Some(Some(before))),
    }
}

/// The candidate that a line says.
pub fn read_cand(alloc: Global, depth: u8, line: &[u8]) -> Result<Option<Cand>, NoMemory>
    ensures { IfOk result (λ cand. cand ≡ cand_in depth line.now) }
{
    let mut words = Words::of(line);
    let Some(state) = read_bits_behind(alloc, &mut words, b"cand")? else {
        return Ok(None);
    };
    let Some(input) = read_bits_behind(alloc, &mut words, b"input")? else {
        return Ok(None);
    };
    match read_before(alloc, depth, &mut words)? {
        None => Ok(None),
        Some(before) => Ok(Some(Cand {
            state,
            input,
            before,
        })),
    }
}

/// The id that a word is.
fn read_id(word: &[u8]) -> Option<u64>
    ensures { result ≡ id_in word.now }
{
    match read_number(word) {
        None => None,
        Some(number) => { if number == 0 { None } else { Some(number) } }
    }
}

/// The finished end with the id that is the next word, behind this one.
fn read_finished<'a>(word: &[u8], words: &mut Words<'a>) -> Option<ListEnd>
    ensures { result ≡ finished_end word.now words.old }
{
    if !is_text(word, b"finished") {
        return None;
    }
    let id = words.next()?;
    let id = read_id(id)?;
    at_end(words, ListEnd::Finished(id))
}

/// The end of a list that this word and those behind it say.
fn read_end_of<'a>(word: &[u8], words: &mut Words<'a>) -> Option<ListEnd>
    ensures { result ≡ end_of word.now words.old }
{
    if is_text(word, b"candidates") {
        at_end(words, ListEnd::Candidates)
    } else if is_text(word, b"conflicts") {
        at_end(words, ListEnd::Conflicts)
    } else {
        read_finished(word, words)
    }
}

/// The end of a list that a line says.
pub fn read_end(line: &[u8]) -> Option<ListEnd>
    ensures { result ≡ end_in line.now }
{
    let mut words = Words::of(line);
    let word = word_behind(&mut words, b"list")?;
    read_end_of(word, &mut words)
}

/// The run and the cycle of a hit.
fn read_run_cycle<'a>(words: &mut Words<'a>) -> Option<(u32, u32)>
    ensures { MatchOption result (run_cycle_in words.old ≡ None) (λ at. run_cycle_in words.old ≡ Some (at, words.new)) }
{
    let run = read_behind(words, b"hit", 1, MAX_RUNS as u64)?;
    let cycle = words.next()?;
    let cycle = read_within(0, MAX_CYCLES as u64, cycle)?;
    Some((run as u32, cycle as u32))
}

/// The hit of these words.
fn read_moment<'a>(alloc: Global, words: &mut Words<'a>) -> Result<Option<HitLine>, NoMemory>
    ensures { IfOk result (λ hit. hit ≡ moment_in words.old) }
{
    let Some((run, cycle)) = read_run_cycle(words) else {
        return Ok(None);
    };
    let Some(state) = words.next() else {
        return Ok(None);
    };
    let Some(state) = Bits::read_text(alloc, state)? else {
        return Ok(None);
    };
    Ok(at_end(words, HitLine { run, cycle, state }))
}

/// The hit that a line says, or that there is none.
pub fn read_hit(alloc: Global, line: &[u8]) -> Result<Option<Option<HitLine>>, NoMemory>
    ensures { IfOk result (λ hit. hit ≡ hit_in line.now) }
{
    if is_text(line, b"nohit") {
        return Ok(Some(None));
    }
    let mut words = Words::of(line);
    match read_moment(alloc, &mut words)? {
        None => Ok(None),
        Some(hit) => Ok(Some(Some(hit))),
    }
}

/// The cause that a word names.
fn read_stop_of(word: &[u8]) -> Option<Stop>
    ensures { result ≡ stop_of word.now }
{
    if is_text(word, b"reset") {
        Some(Stop::Reset)
    } else if is_text(word, b"length") {
        Some(Stop::Length)
    } else if is_text(word, b"nohit") {
        Some(Stop::Nohit)
    } else if is_text(word, b"empty") {
        Some(Stop::Empty)
    } else if is_text(word, b"candidates") {
        Some(Stop::Candidates)
    } else if is_text(word, b"conflicts") {
        Some(Stop::Conflicts)
    } else {
        None
    }
}

/// The cause that a line says.
pub fn read_stop(line: &[u8]) -> Option<Stop>
    ensures { result ≡ stop_in line.now }
{
    let mut words = Words::of(line);
    let word = word_behind(&mut words, b"stop")?;
    let stop = read_stop_of(word)?;
    at_end(&mut words, stop)
}
