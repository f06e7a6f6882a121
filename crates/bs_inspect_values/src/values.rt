//! The values of a simulator, or the diagnostic of their text.
ghost use Rattle.std.specs.Prelude.{◌≡◌, ◌<◌, ◌≤◌, length, map, option_map, All, IfOk, Ok as TheOk, false};
ghost use Rattle.bs_bits.specs.Reading.{Answers};
ghost use Rattle.bs_vcd_header.specs.declared.fault.VcdFault.TheVariants.{NoMemory as VcdWant};
ghost use Rattle.bs_vcd_header.specs.Header.{declared_in};
ghost use Rattle.bs_vcd.specs.Stimulus.{stimulus_in};
ghost use Rattle.bs_inspect_notes.specs.Simulations.{cycles_text, off_saying, unknown_text, word_saying};
ghost use Rattle.bs_note_files.specs.Notes.{said};
ghost use Rattle.bs_outside.specs.declared.limits.TheConstants.{MAX_VCD_BYTES};
ghost use Rattle.bs_outside.specs.declared.file_fetch.Refusal.TheVariants.{NoMemory as Want};
ghost use Rattle.bs_outside.specs.Plan.{exactly, Says};
ghost use Rattle.bs_outside.specs.Diagnostic.{note_refusal, noted, word_refusal, worded};
ghost use Rattle.bs_outside.specs.Walks.{Reads};
ghost use Rattle.bs_top_files.specs.Causes.{CheckSays, HasNote, IsNoteAtLine, NoteSays};
ghost use Rattle.bs_top_files.specs.Refusals.{HasWords};
ghost use Rattle.bs_inspect_values.specs.Saying.{clock_said, declarations, fault_case, input_said, taken_in, vcd_reason, whole_states};
ghost use Rattle.bs_inspect_values.specs.Dumped.{states_read};
ghost use Rattle.bs_inspect_values.specs.Simulated.{few_lines, lines_read};
ghost use Rattle.bs_inspect_values.specs.Words.{cycles_words, key_at, vcd_words};

use crate::keys::maybe_bytes;
use crate::lines::line_note;
use crate::refusals::{key_at, vcd_refusal};
use bs_bits::{Bits, List, NoMemory};
use bs_inspect_notes::{
    Subject, clock_note, cycles_note, early_note, ended_note, foreign, input_note, short_note,
    time_note, unknown_note,
};
use bs_net_names::key_parts;
use bs_note_files::{Message, file_note};
use bs_outside::{Unread, both};
use bs_stim::MAX_CYCLES;
use bs_vcd::{MarkedStates, SampledLines, When, marked_states, states, stimulus};
use bs_vcd_header::{HeaderDeclarations, VcdFault, declared, names_of, scope_of, scopes_of};
use std::alloc::Global;

/// The file of a simulator's values, the name of the clock in it, and the path of a scope, where one is asked for.
#[derive(Clone, Copy)]
pub struct Sampling<'a> {
    pub vcd: &'a str,
    pub clock: &'a str,
    pub scope: Option<&'a str>,
}

// ---- the notes

/// What is said of a line whose word cannot stand there.
fn word_saying() -> Message<'static>
    ensures { said result ≡ word_saying }
{
    Message {
        sentence: b"a word of this line cannot stand there, or the command that ends here",
        label: b"a value is `0ID`, `1ID`, `xID`, `zID` or `bBITS ID`, a time `#N`, and times rise",
    }
}

/// A note on a line whose word cannot stand there.
fn word_note(alloc: Global, path: &str, text: &[u8], number: u64) -> Result<Vec<u8>, NoMemory>
    ensures { IfOk result (λ note. IsNoteAtLine path.now text.now number word_saying note.items) }
{
    let message = word_saying();
    let note = line_note(alloc, path, text, number, message)?;
    Ok(note)
}

/// What is said of a line in which the dump is switched off.
fn off_saying() -> Message<'static>
    ensures { said result ≡ off_saying }
{
    Message {
        sentence: b"the dump is switched off here: cycles behind this line are not in the text",
        label: b"take `$dumpoff` out of the bench",
    }
}

/// A note on a line in which the dump is switched off.
fn off_note(alloc: Global, path: &str, text: &[u8], number: u64) -> Result<Vec<u8>, NoMemory>
    ensures { IfOk result (λ note. IsNoteAtLine path.now text.now number off_saying note.items) }
{
    let message = off_saying();
    let note = line_note(alloc, path, text, number, message)?;
    Ok(note)
}

/// A note on a clock that is none of what is declared.
fn clock_on(
    alloc: Global,
    sampling: Sampling<'_>,
    declared: &HeaderDeclarations<'_>,
) -> Result<Vec<u8>, NoMemory>
    ensures { IfOk result (λ note. note.items ≡ clock_said sampling.entry.vcd.now (option_map (λ s. s.now) sampling.entry.scope) sampling.entry.clock.now (declared_in declared.now)) }
{
    let given = maybe_bytes(sampling.scope);
    let scopes = scopes_of(alloc, declared)?;
    let names = names_of(alloc, given, declared)?;
    let paths = scopes.as_slice();
    let all = names.as_slice();
    let note = clock_note(
        alloc,
        sampling.vcd,
        sampling.scope,
        sampling.clock,
        paths,
        all,
    )?;
    Ok(note)
}

/// A note on a clock that is none of the text's variables.
#[tactic(auto, using(crate::proofs::ValueLemmas::clock_by_declared))]
fn clock_in(alloc: Global, text: &[u8], sampling: Sampling<'_>) -> Result<Vec<u8>, NoMemory>
    requires { length text.now ≤ MAX_VCD_BYTES }
    ensures { IfOk result (λ note. note.items ≡ clock_said sampling.entry.vcd.now (option_map (λ s. s.now) sampling.entry.scope) sampling.entry.clock.now (declarations text.now)) }
{
    match declared(alloc, text) {
        Ok(declared) => {
            let note = clock_on(alloc, sampling, &declared);
            note
        }
        Err(_) => Err(NoMemory),
    }
}

/// A note on an input that is none of what is declared.
fn input_on(
    alloc: Global,
    subject: Subject,
    key: &[u8],
    name: &[u8],
    sampling: Sampling<'_>,
    declared: &HeaderDeclarations<'_>,
) -> Result<Vec<u8>, NoMemory>
    ensures { IfOk result (λ note. note.items ≡ input_said subject sampling.entry.vcd.now key.now name.now (option_map (λ s. s.now) sampling.entry.scope) sampling.entry.clock.now (declared_in declared.now)) }
{
    let bytes = sampling.clock.as_bytes();
    let clock = key_parts(bytes);
    let given = maybe_bytes(sampling.scope);
    let scope = scope_of(given, clock, declared);
    let names = names_of(alloc, scope, declared)?;
    let all = names.as_slice();
    let note = input_note(alloc, subject, sampling.vcd, key, name, all)?;
    Ok(note)
}

/// A note on an input that is none of the text's variables.
fn input_in(
    alloc: Global,
    subject: Subject,
    text: &[u8],
    keys: &[&[u8]],
    names: &[&[u8]],
    sampling: Sampling<'_>,
    input: u64,
) -> Result<Vec<u8>, NoMemory>
    requires { length text.now ≤ MAX_VCD_BYTES }
    ensures { IfOk result (λ note. note.items ≡ input_said subject sampling.entry.vcd.now (key_at (map (λ k. k.now) keys.now) input) (key_at (map (λ n. n.now) names.now) input) (option_map (λ s. s.now) sampling.entry.scope) sampling.entry.clock.now (declarations text.now)) }
{
    let key = key_at(keys, input);
    let name = key_at(names, input);
    match declared(alloc, text) {
        Ok(declared) => {
            let note = input_on(alloc, subject, key, name, sampling, &declared);
            note
        }
        Err(_) => Err(NoMemory),
    }
}

/// A note on an input whose bit is not known.
fn unknown_in(
    alloc: Global,
    subject: Subject,
    path: &str,
    keys: &[&[u8]],
    input: u64,
    time: u64,
) -> Result<Vec<u8>, NoMemory>
    ensures { IfOk result (λ note. note.items ≡ unknown_text subject path.now (key_at (map (λ k. k.now) keys.now) input) time) }
{
    let key = key_at(keys, input);
    let note = unknown_note(alloc, subject, path, key, time)?;
    Ok(note)
}

/// The note on a fault of the text of a VCD.
fn fault_note(
    alloc: Global,
    subject: Subject,
    text: &[u8],
    keys: &[&[u8]],
    names: &[&[u8]],
    sampling: Sampling<'_>,
    fault: VcdFault,
) -> Result<Vec<u8>, NoMemory>
    requires { length text.now ≤ MAX_VCD_BYTES }
    ensures { IfOk result (λ note. NoteSays (fault_case (vcd_words (map (λ k. k.now) keys.now) fault) subject sampling.entry.vcd.now text.now (map (λ k. k.now) keys.now) (map (λ n. n.now) names.now) (option_map (λ s. s.now) sampling.entry.scope) sampling.entry.clock.now fault) note.items) }
{
    match fault {
        VcdFault::Line(line) => word_note(alloc, sampling.vcd, text, line),
        VcdFault::Ended => ended_note(alloc, sampling.vcd),
        VcdFault::NoClock => clock_in(alloc, text, sampling),
        VcdFault::NoInput(i) => input_in(alloc, subject, text, keys, names, sampling, i),
        VcdFault::Unknown(i, time) => unknown_in(alloc, subject, sampling.vcd, keys, i, time),
        VcdFault::NoCycle(count) => short_note(alloc, sampling.vcd, count),
        VcdFault::DumpOff(line) => off_note(alloc, sampling.vcd, text, line),
        VcdFault::NoTime(last) => time_note(alloc, sampling.vcd, last),
        VcdFault::Late(begin) => early_note(alloc, sampling.vcd, begin),
        VcdFault::NoMemory => Err(NoMemory),
    }
}

/// The note on values that are refused: that the file is no VCD at sight, or on the fault.
#[tactic(auto, using(crate::proofs::ValueLemmas::says_foreign, crate::proofs::ValueLemmas::says_fault))]
fn vcd_note(
    alloc: Global,
    subject: Subject,
    text: &[u8],
    keys: &[&[u8]],
    names: &[&[u8]],
    sampling: Sampling<'_>,
    fault: VcdFault,
) -> Result<Vec<u8>, NoMemory>
    requires { length text.now ≤ MAX_VCD_BYTES }
    ensures { IfOk result (λ note. Says NoteSays (vcd_reason subject sampling.entry.vcd.now text.now (map (λ k. k.now) keys.now) (map (λ n. n.now) names.now) (option_map (λ s. s.now) sampling.entry.scope) sampling.entry.clock.now fault) note.items) }
{
    match foreign(text) {
        Some(sentence) => file_note(alloc, sampling.vcd, sentence.as_bytes()),
        None => fault_note(alloc, subject, text, keys, names, sampling, fault),
    }
}

// ---- the readers

/// The diagnostic of values that are refused.
#[tactic(auto, using(bs_top_files::proofs::NotingLemmas::both_words, bs_top_files::proofs::NotingLemmas::both_note, bs_top_files::proofs::NotingLemmas::both_want))]
pub fn vcd_diagnostic(
    alloc: Global,
    subject: Subject,
    text: &[u8],
    keys: &[&[u8]],
    names: &[&[u8]],
    sampling: Sampling<'_>,
    fault: VcdFault,
) -> Unread
    requires { length text.now ≤ MAX_VCD_BYTES }
    ensures words { HasWords (vcd_words (map (λ k. k.now) keys.now) fault) (word_refusal result) }
    ensures want { fault ≡ VcdWant → word_refusal result ≡ Want }
    ensures note { HasNote (vcd_reason subject sampling.entry.vcd.now text.now (map (λ k. k.now) keys.now) (map (λ n. n.now) names.now) (option_map (λ s. s.now) sampling.entry.scope) sampling.entry.clock.now fault) (note_refusal result) }
    ensures none { fault ≡ VcdWant → note_refusal result ≡ Want }
{
    let words = vcd_refusal(alloc, fault, keys);
    let note = vcd_note(alloc, subject, text, keys, names, sampling, fault);
    both(words, note)
}

/// The diagnostic of values that have too many edges.
#[tactic(auto, using(bs_top_files::proofs::NotingLemmas::both_words, bs_top_files::proofs::NotingLemmas::both_these))]
fn cycles_diagnostic(alloc: Global, path: &str) -> Unread
    ensures words { HasWords cycles_words (word_refusal result) }
    ensures note { HasNote (exactly (cycles_text path.now)) (note_refusal result) }
{
    let words = bs_top_files::worded(alloc, b"TooManyCycles");
    let note = cycles_note(alloc, path);
    both(words, note)
}

/// Lines, where there are no more than a run may have, or the diagnostic of them.
#[tactic(auto, using(crate::proofs::ValueLemmas::few_worded, crate::proofs::ValueLemmas::few_said))]
fn few_or_diagnostic(
    alloc: Global,
    path: &str,
    sampled: SampledLines,
) -> Result<SampledLines, Unread>
    ensures words { Reads CheckSays (λ sampled. sampled) (few_lines path.now (TheOk sampled)) (worded result) }
    ensures note { Reads NoteSays (λ sampled. sampled) (few_lines path.now (TheOk sampled)) (noted result) }
{
    if sampled.lines.len() > MAX_CYCLES as usize {
        return Err(cycles_diagnostic(alloc, path));
    }
    Ok(sampled)
}

/// The inputs just before each rising edge of a clock.
fn sampled(
    alloc: Global,
    text: &[u8],
    names: &[&[u8]],
    sampling: Sampling<'_>,
) -> Result<SampledLines, VcdFault>
    requires { length text.now ≤ MAX_VCD_BYTES }
    ensures { Answers VcdWant (λ sampled. sampled) result (stimulus_in text.now (option_map (λ s. s.now) sampling.entry.scope) sampling.entry.clock.now (map (λ n. n.now) names.now)) }
{
    let scope = maybe_bytes(sampling.scope);
    let clock = sampling.clock.as_bytes();
    stimulus(alloc, text, scope, clock, names)
}

/// The inputs just before each rising edge of a clock, by the names of the inputs, which have these keys in the netlist; or the
/// diagnostic of their text.
pub fn lines_or_diagnostic(
    alloc: Global,
    text: &[u8],
    keys: &[&[u8]],
    names: &[&[u8]],
    sampling: Sampling<'_>,
) -> Result<SampledLines, Unread>
    requires { length text.now ≤ MAX_VCD_BYTES }
    ensures words { Reads CheckSays (λ sampled. sampled) (lines_read sampling.entry.vcd.now (map (λ k. k.now) keys.now) (map (λ n. n.now) names.now) (option_map (λ s. s.now) sampling.entry.scope) sampling.entry.clock.now text.now) (worded result) }
    ensures note { Reads NoteSays (λ sampled. sampled) (lines_read sampling.entry.vcd.now (map (λ k. k.now) keys.now) (map (λ n. n.now) names.now) (option_map (λ s. s.now) sampling.entry.scope) sampling.entry.clock.now text.now) (noted result) }
{
    match sampled(alloc, text, names, sampling) {
        Ok(sampled) => few_or_diagnostic(alloc, sampling.vcd, sampled),
        Err(fault) => Err(vcd_diagnostic(
            alloc,
            Subject::Inputs,
            text,
            keys,
            names,
            sampling,
            fault,
        )),
    }
}

/// States of which each bit is known.
fn whole_states(alloc: Global, states: List<Bits>) -> MarkedStates
    ensures { result ≡ whole_states states }
{
    MarkedStates {
        states,
        marks: Bits::new(alloc),
        lacks: 0,
    }
}

/// The states of a cycle and of so many before it, each bit of which is known.
fn known_states(
    alloc: Global,
    text: &[u8],
    scope: Option<&[u8]>,
    clock: &[u8],
    names: &[&[u8]],
    at: When,
    back: u64,
) -> Result<MarkedStates, VcdFault>
    requires { length text.now ≤ MAX_VCD_BYTES }
    ensures is { Answers VcdWant (λ taken. taken) result (taken_in false text.now (option_map (λ path. path.now) scope.entry) clock.now (map (λ n. n.now) names.now) at back) }
    ensures some { IfOk result (λ taken. 0 < length taken.states) }
    ensures wide { IfOk result (λ taken. All (λ s. length s ≡ length names.now) taken.states) }
{
    let states = states(alloc, text, scope, clock, names, at, back)?;
    Ok(whole_states(alloc, states))
}

/// The states of a cycle and of so many before it, where bits of the last may be unknown if that is asked for.
fn taken_by(
    alloc: Global,
    text: &[u8],
    scope: Option<&[u8]>,
    clock: &[u8],
    names: &[&[u8]],
    at: When,
    back: u64,
    partial: bool,
) -> Result<MarkedStates, VcdFault>
    requires { length text.now ≤ MAX_VCD_BYTES }
    ensures is { Answers VcdWant (λ taken. taken) result (taken_in partial text.now (option_map (λ path. path.now) scope.entry) clock.now (map (λ n. n.now) names.now) at back) }
    ensures some { IfOk result (λ taken. 0 < length taken.states) }
    ensures wide { IfOk result (λ taken. All (λ s. length s ≡ length names.now) taken.states) }
{
    if partial {
        marked_states(alloc, text, scope, clock, names, at, back)
    } else {
        known_states(alloc, text, scope, clock, names, at, back)
    }
}

/// The same in a scope, where one is asked for.
fn taken(
    alloc: Global,
    text: &[u8],
    names: &[&[u8]],
    sampling: Sampling<'_>,
    at: When,
    back: u64,
    partial: bool,
) -> Result<MarkedStates, VcdFault>
    requires { length text.now ≤ MAX_VCD_BYTES }
    ensures is { Answers VcdWant (λ taken. taken) result (taken_in partial text.now (option_map (λ s. s.now) sampling.entry.scope) sampling.entry.clock.now (map (λ n. n.now) names.now) at back) }
    ensures some { IfOk result (λ taken. 0 < length taken.states) }
    ensures wide { IfOk result (λ taken. All (λ s. length s ≡ length names.now) taken.states) }
{
    let scope = maybe_bytes(sampling.scope);
    let clock = sampling.clock.as_bytes();
    taken_by(alloc, text, scope, clock, names, at, back, partial)
}

/// The states of a cycle and of so many before it, by the names of the flip-flops, which have these keys in the netlist; or the
/// diagnostic of their text. Bits of the last may be unknown where that is asked for.
pub fn states_or_diagnostic(
    alloc: Global,
    text: &[u8],
    keys: &[&[u8]],
    names: &[&[u8]],
    sampling: Sampling<'_>,
    at: When,
    back: u64,
    partial: bool,
) -> Result<MarkedStates, Unread>
    requires { length text.now ≤ MAX_VCD_BYTES }
    ensures words { Reads CheckSays (λ taken. taken) (states_read sampling.entry.vcd.now (map (λ k. k.now) keys.now) (map (λ n. n.now) names.now) (option_map (λ s. s.now) sampling.entry.scope) sampling.entry.clock.now at back partial text.now) (worded result) }
    ensures note { Reads NoteSays (λ taken. taken) (states_read sampling.entry.vcd.now (map (λ k. k.now) keys.now) (map (λ n. n.now) names.now) (option_map (λ s. s.now) sampling.entry.scope) sampling.entry.clock.now at back partial text.now) (noted result) }
    ensures some { IfOk result (λ taken. 0 < length taken.states) }
    ensures wide { IfOk result (λ taken. All (λ s. length s ≡ length names.now) taken.states) }
{
    match taken(alloc, text, names, sampling, at, back, partial) {
        Ok(taken) => Ok(taken),
        Err(fault) => Err(vcd_diagnostic(
            alloc,
            Subject::Flops,
            text,
            keys,
            names,
            sampling,
            fault,
        )),
    }
}
