//! Notes on the values of a simulator.
ghost use Rattle.std.specs.Prelude.{◌≡◌, ◌<◌, ◌++◌, length, map, not, option_map, IfOk, IfSome, OnOk, decimal};
ghost use Rattle.std.specs.List.{position};
ghost use Rattle.bs_vcd_header.specs.Tokens.{is_white};
ghost use Rattle.bs_inspect_notes.specs.Simulations.{any_sentence, begins, clock_piece, clock_sentence, clock_text, cycles_text, data_clock_text, data_sentence, early_text, ended_text, foreign, has_scope, input_hint, input_sentence, input_text, late_sentence, late_text, own_sentence, path_sentence, scope_sentence, scoped_sentence, short_text, subject_piece, time_text, unknown_hint, unknown_sentence, unknown_text};

use crate::listing::{is_one_of, push_name, push_some_listing, push_some_near};
use crate::name::{Subject, subject_word};
use bs_bits::{NoMemory, push_number, push_piece};
use bs_note_files::{file_note, pair_note};
use std::alloc::Global;

// ---- a file of another kind

/// The bytes with which a file begins that gzip compressed.
const GZIP: [u8; 2] = [31, 139];

/// The type and the length of the first block of an FST.
const FST: [u8; 9] = [0, 0, 0, 0, 0, 0, 0, 1, 73];

/// Whether a byte is white space.
fn is_white(byte: u8) -> bool
    ensures { result ≡ is_white byte }
{
    byte == b' ' || (9 <= byte && byte <= 13)
}

/// The place of the first byte that is not white space.
fn first_black(text: &[u8]) -> Option<usize>
    ensures is { result ≡ position (λ b. not (is_white b)) text.now }
    ensures there { IfSome result (λ at. at < length text.now) }
{
    text.iter().position(|byte| !is_white(*byte))
}

/// Whether the first word of a text begins with `$`.
fn begins(text: &[u8]) -> bool
    ensures { result ≡ begins text.now }
{
    match first_black(text) {
        Some(at) => text[at] == b'$',
        None => false,
    }
}

/// What a file is that is no VCD at sight.
pub fn foreign(text: &[u8]) -> Option<&'static str>
    ensures { option_map (λ s. s.now) result ≡ foreign text.now }
{
    if text.starts_with(GZIP.as_slice()) {
        return Some(
            "this is compressed by gzip: unpack it first, as by `gzip -dc FILE > FILE.vcd`",
        );
    }
    if text.starts_with(FST.as_slice()) {
        return Some("this is an FST and no VCD: convert it first, as by `fst2vcd FILE > FILE.vcd`");
    }
    if begins(text) {
        None
    } else {
        Some("this is no VCD: its first word does not begin with `$`")
    }
}

/// A note on a text that ends too early.
pub fn ended_note(alloc: Global, path: &str) -> Result<Vec<u8>, NoMemory>
    ensures { IfOk result (λ note. note.items ≡ ended_text path.now) }
{
    let mut note = file_note(
        alloc,
        path,
        b"the text ends in its declarations, in a comment or behind a value",
    )?;
    push_piece(
        &mut note,
        b"note: was it cut short? `$enddefinitions $end` stands before the first time\n",
    )?;
    Ok(note)
}

// ---- the clock

/// Whether there is a scope with a path.
#[tactic(auto, using(crate::proofs::NearLemmas::any_path))]
fn has_scope(path: &[u8], paths: &[&[u8]]) -> bool
    ensures { result ≡ has_scope path.now (map (λ p. p.now) paths.now) }
{
    is_one_of(path, paths)
}

/// Appends that none is the clock.
fn push_clock(
    alloc: Global,
    said: &mut Vec<u8>,
    clock: &str,
    names: &[&[u8]],
) -> Result<(), NoMemory>
    ensures { OnOk result (said.new.items ≡ said.old.items ++ clock_piece clock.now (map (λ n. n.now) names.now)) }
{
    let name = clock.as_bytes();
    push_piece(said, b" is the clock ")?;
    push_name(said, name)?;
    push_some_near(alloc, said, name, names)?;
    Ok(())
}

/// What is said where no variable is the clock.
fn any_sentence(alloc: Global, clock: &str, names: &[&[u8]]) -> Result<Vec<u8>, NoMemory>
    ensures { IfOk result (λ said. said.items ≡ any_sentence clock.now (map (λ n. n.now) names.now)) }
{
    let mut said = b"no variable of one bit".to_vec(alloc)?;
    push_clock(alloc, &mut said, clock, names)?;
    Ok(said)
}

/// What is said where none of a scope is.
fn scope_sentence(
    alloc: Global,
    path: &str,
    clock: &str,
    names: &[&[u8]],
) -> Result<Vec<u8>, NoMemory>
    ensures { IfOk result (λ said. said.items ≡ scope_sentence path.now clock.now (map (λ n. n.now) names.now)) }
{
    let mut said = b"no variable of one bit in the scope ".to_vec(alloc)?;
    push_name(&mut said, path.as_bytes())?;
    push_clock(alloc, &mut said, clock, names)?;
    Ok(said)
}

/// What is said where there is no such scope.
fn path_sentence(alloc: Global, path: &str, paths: &[&[u8]]) -> Result<Vec<u8>, NoMemory>
    ensures { IfOk result (λ said. said.items ≡ path_sentence path.now (map (λ n. n.now) paths.now)) }
{
    let mut said = b"there is no scope ".to_vec(alloc)?;
    push_name(&mut said, path.as_bytes())?;
    push_some_near(alloc, &mut said, path.as_bytes(), paths)?;
    Ok(said)
}

/// What is said of a clock that is none in a scope.
fn scoped_sentence(
    alloc: Global,
    path: &str,
    clock: &str,
    paths: &[&[u8]],
    names: &[&[u8]],
) -> Result<Vec<u8>, NoMemory>
    ensures { IfOk result (λ said. said.items ≡ scoped_sentence path.now clock.now (map (λ p. p.now) paths.now) (map (λ n. n.now) names.now)) }
{
    if has_scope(path.as_bytes(), paths) {
        scope_sentence(alloc, path, clock, names)
    } else {
        path_sentence(alloc, path, paths)
    }
}

/// What is said of a clock that is none.
fn clock_sentence(
    alloc: Global,
    scope: Option<&str>,
    clock: &str,
    paths: &[&[u8]],
    names: &[&[u8]],
) -> Result<Vec<u8>, NoMemory>
    ensures { IfOk result (λ said. said.items ≡ clock_sentence (option_map (λ s. s.now) scope.entry) clock.now (map (λ p. p.now) paths.now) (map (λ n. n.now) names.now)) }
{
    match scope {
        Some(path) => scoped_sentence(alloc, path, clock, paths, names),
        None => any_sentence(alloc, clock, names),
    }
}

/// A note on a clock that is none: the nearest names, the scopes that there are, and the variables of the one that is asked for.
pub fn clock_note(
    alloc: Global,
    file: &str,
    scope: Option<&str>,
    clock: &str,
    paths: &[&[u8]],
    names: &[&[u8]],
) -> Result<Vec<u8>, NoMemory>
    ensures { IfOk result (λ note. note.items ≡ clock_text file.now (option_map (λ s. s.now) scope.entry) clock.now (map (λ p. p.now) paths.now) (map (λ n. n.now) names.now)) }
{
    let said = clock_sentence(alloc, scope, clock, paths, names)?;
    let mut note = file_note(alloc, file, &said)?;
    push_some_listing(&mut note, "the scopes:", paths)?;
    push_some_listing(&mut note, "the variables there:", names)?;
    Ok(note)
}

// ---- the inputs, or the flip-flops

/// Appends the word of a subject and a key.
#[tactic(auto, unfolding(crate::specs::Simulations::subject_piece))]
fn push_subject(said: &mut Vec<u8>, subject: Subject, key: &[u8]) -> Result<(), NoMemory>
    ensures { OnOk result (said.new.items ≡ said.old.items ++ subject_piece subject key.now) }
{
    push_piece(said, subject_word(subject))?;
    push_piece(said, b" ")?;
    push_name(said, key)
}

/// What is said of a data input, or a flip-flop, that no variable is.
#[tactic(auto, unfolding(crate::specs::Simulations::input_sentence))]
fn input_sentence(
    alloc: Global,
    subject: Subject,
    key: &[u8],
    name: &[u8],
    names: &[&[u8]],
) -> Result<Vec<u8>, NoMemory>
    ensures { IfOk result (λ said. said.items ≡ input_sentence subject key.now name.now (map (λ n. n.now) names.now)) }
{
    let mut said = b"no variable in the clock's scope is the ".to_vec(alloc)?;
    push_subject(&mut said, subject, key)?;
    push_piece(&mut said, b", by the name ")?;
    push_name(&mut said, name)?;
    push_some_near(alloc, &mut said, name, names)?;
    Ok(said)
}

/// What to do about one that no variable is.
fn input_hint(subject: Subject) -> &'static [u8]
    ensures { result.now ≡ input_hint subject }
{
    match subject {
        Subject::Inputs => {
            b"note: the design's scope stands behind --scope; where names are others, a file of lines KEY NAME behind --map\n"
        }
        Subject::Flops => {
            b"note: the design's scope stands behind --scope; where names are others, a file of lines KEY NAME behind --map; a memory's word is dumped where `$dumpvars` names it\n"
        }
    }
}

/// A note on a data input, or a flip-flop, that no variable is.
pub fn input_note(
    alloc: Global,
    subject: Subject,
    file: &str,
    key: &[u8],
    name: &[u8],
    names: &[&[u8]],
) -> Result<Vec<u8>, NoMemory>
    ensures { IfOk result (λ note. note.items ≡ input_text subject file.now key.now name.now (map (λ n. n.now) names.now)) }
{
    let said = input_sentence(alloc, subject, key, name, names)?;
    let mut note = file_note(alloc, file, &said)?;
    push_piece(&mut note, input_hint(subject))?;
    Ok(note)
}

/// Appends words and a number.
fn push_numbered(said: &mut Vec<u8>, words: &[u8], number: u64) -> Result<(), NoMemory>
    ensures { OnOk result (said.new.items ≡ said.old.items ++ (words.now ++ decimal number)) }
{
    push_piece(said, words)?;
    push_number(said, number)?;
    Ok(())
}

/// What is said of a data input, or a flip-flop, whose bit is not known.
#[tactic(auto, unfolding(crate::specs::Simulations::unknown_sentence))]
fn unknown_sentence(
    alloc: Global,
    subject: Subject,
    key: &[u8],
    time: u64,
) -> Result<Vec<u8>, NoMemory>
    ensures { IfOk result (λ said. said.items ≡ unknown_sentence subject key.now time) }
{
    let mut said = b"the ".to_vec(alloc)?;
    push_subject(&mut said, subject, key)?;
    push_numbered(
        &mut said,
        b" is neither 0 nor 1 before the rising edge at time ",
        time,
    )?;
    Ok(said)
}

/// What to do about such a bit.
fn unknown_hint(subject: Subject) -> &'static [u8]
    ensures { result.now ≡ unknown_hint subject }
{
    match subject {
        Subject::Inputs => {
            b"note: drive each data input before the clock rises first: a run begins at reset, and its front cannot be left out\n"
        }
        Subject::Flops => {
            b"note: take a later cycle, or begin with an initial value; of the last cycle the time is that of the last change; `backspace dump .. RUN CYCLE` has the state of a recorded run, and `--partial` writes `-` for what is not known\n"
        }
    }
}

/// A note on a data input, or a flip-flop, whose bit is not known.
pub fn unknown_note(
    alloc: Global,
    subject: Subject,
    file: &str,
    key: &[u8],
    time: u64,
) -> Result<Vec<u8>, NoMemory>
    ensures { IfOk result (λ note. note.items ≡ unknown_text subject file.now key.now time) }
{
    let said = unknown_sentence(alloc, subject, key, time)?;
    let mut note = file_note(alloc, file, &said)?;
    push_piece(&mut note, unknown_hint(subject))?;
    Ok(note)
}

// ---- the clock's edges

/// A note on values that have too few edges for a cycle.
pub fn short_note(alloc: Global, file: &str, count: u64) -> Result<Vec<u8>, NoMemory>
    ensures { IfOk result (λ note. note.items ≡ short_text file.now count) }
{
    let mut said = b"so often does the clock rise: ".to_vec(alloc)?;
    push_number(&mut said, count)?;
    push_piece(&mut said, b"; there is no such cycle")?;
    let mut note = file_note(alloc, file, &said)?;
    push_piece(
        &mut note,
        b"note: cycles count from 0, and each edge ends one; is this the netlist's clock?\n",
    )?;
    Ok(note)
}

/// A note on a time behind the last one of values.
pub fn time_note(alloc: Global, file: &str, last: u64) -> Result<Vec<u8>, NoMemory>
    ensures { IfOk result (λ note. note.items ≡ time_text file.now last) }
{
    let mut said = b"the last time of the text is ".to_vec(alloc)?;
    push_number(&mut said, last)?;
    push_piece(&mut said, b"; there is no such time")?;
    let mut note = file_note(alloc, file, &said)?;
    push_piece(
        &mut note,
        b"note: times count in the unit that `$timescale` names, as behind `#` in the text\n",
    )?;
    Ok(note)
}

/// A note on states that stand before values, which begin at a time.
pub fn early_note(alloc: Global, file: &str, begin: u64) -> Result<Vec<u8>, NoMemory>
    ensures { IfOk result (λ note. note.items ≡ early_text file.now begin) }
{
    let mut said = b"the values begin at time ".to_vec(alloc)?;
    push_number(&mut said, begin)?;
    push_piece(
        &mut said,
        b", and the states before that are not in the text",
    )?;
    let mut note = file_note(alloc, file, &said)?;
    push_piece(
        &mut note,
        b"note: a dump with a signature wants them: take a later cycle, or begin to dump at time 0\n",
    )?;
    Ok(note)
}

/// A note on values that have too many edges.
pub fn cycles_note(alloc: Global, file: &str) -> Result<Vec<u8>, NoMemory>
    ensures { IfOk result (λ note. note.items ≡ cycles_text file.now) }
{
    let mut note = file_note(
        alloc,
        file,
        b"the clock rises more than 65536 times, the most cycles of a run",
    )?;
    push_piece(
        &mut note,
        b"note: is this the netlist's clock? a run begins at reset: shorten the way to the failure, or end the run earlier\n",
    )?;
    Ok(note)
}

// ---- values that begin late

/// What is said of a run whose values begin late.
#[tactic(auto, unfolding(crate::specs::Simulations::late_sentence))]
fn late_sentence(alloc: Global, name: &[u8], time: u64) -> Result<Vec<u8>, NoMemory>
    ensures { IfOk result (λ said. said.items ≡ late_sentence name.now time) }
{
    let mut said = b"the values of the run ".to_vec(alloc)?;
    push_name(&mut said, name)?;
    push_numbered(&mut said, b" begin at time ", time)?;
    Ok(said)
}

/// A note on a run with this name whose values begin at a time behind 0.
pub fn late_note(alloc: Global, name: &[u8], time: u64) -> Result<Vec<u8>, NoMemory>
    ensures { IfOk result (λ note. note.items ≡ late_text name.now time) }
{
    let said = late_sentence(alloc, name, time)?;
    let note = pair_note(
        alloc,
        &said,
        b"edges before that are not in them, and a run begins at reset: begin to dump at time 0, or be sure that the clock did not rise before",
    )?;
    Ok(note)
}

// ---- a clock that is data

/// What is said of a clock that is a data input.
#[tactic(auto, unfolding(crate::specs::Simulations::data_sentence))]
fn data_sentence(alloc: Global, clock: &str) -> Result<Vec<u8>, NoMemory>
    ensures { IfOk result (λ said. said.items ≡ data_sentence clock.now) }
{
    let mut said = b"the clock ".to_vec(alloc)?;
    push_name(&mut said, clock.as_bytes())?;
    push_piece(
        &mut said,
        b" is a data input of the netlist, and each of its rising edges was taken for a cycle",
    )?;
    Ok(said)
}

/// Which clock a netlist has.
#[tactic(auto, unfolding(crate::specs::Simulations::own_sentence))]
fn own_sentence(alloc: Global, key: &str) -> Result<Vec<u8>, NoMemory>
    ensures { IfOk result (λ said. said.items ≡ own_sentence key.now) }
{
    let mut said = b"the netlist's clock is ".to_vec(alloc)?;
    push_name(&mut said, key.as_bytes())?;
    Ok(said)
}

/// A note on a clock that is a data input, where that of the netlist has this key.
pub fn data_clock_note(alloc: Global, clock: &str, key: &str) -> Result<Vec<u8>, NoMemory>
    ensures { IfOk result (λ note. note.items ≡ data_clock_text clock.now key.now) }
{
    let said = data_sentence(alloc, clock)?;
    let own = own_sentence(alloc, key)?;
    let note = pair_note(alloc, &said, &own)?;
    Ok(note)
}
