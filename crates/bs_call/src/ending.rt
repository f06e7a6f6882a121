//! The notes on work that is done: on the stop of a run, on a search without an execution, and on a report that is not valid.
ghost use Rattle.std.specs.Prelude.{◌≡◌, ◌≢◌, ◌≤◌, ◌++◌, codes, decimal, false, length};
ghost use Rattle.bs_call.specs.Endings.{followed_text, is_hit, is_searched, miss_text_of, moments, own_text, partly_text, rejected_text_if, run_text};
ghost use Rattle.bs_call.specs.Endings.{searched_text, stopped_text, whole_text};
ghost use Rattle.bs_call.specs.Looks.{looked_text};
ghost use Rattle.bs_call.specs.Note.{Due, DueText, SureText};

use crate::note::{Note, note_made};
use crate::partial_dump::partly_note;
use crate::recorded_state::looked_note;
use bs_chip::Chip;
use bs_note_calls::{Brief, Miss, brief_plain, miss_note, rejected_note, stop_note};
use bs_report::Stop;
use bs_scan::Dump;
use bs_stim::Runs;
use std::alloc::Global;

/// The number of moments of recorded runs.
#[tactic(auto, using(crate::proofs::EndingLemmas::one_more))]
fn moments(runs: &Runs) -> u64
    ensures { result ≡ moments runs.now }
{
    let mut count = 0u64;
    'runs: for index in 0..runs.count() {
        count += u64::from(runs.cycles(index + 1)) + 1;
    }
    count
}

/// A sentence on how many moments were searched.
fn searched_sentence(count: u64) -> Brief
    ensures text { result ≡ codes "so many moments of recorded runs were searched, each cycle of each run from 0: " ++ decimal count }
    ensures short { length result ≤ 120 }
{
    let mut said = Brief::of(
        b"so many moments of recorded runs were searched, each cycle of each run from 0: ",
    );
    said.push_number(count);
    said
}

/// That sentence as a note.
fn searched_note(count: u64) -> Brief
    ensures text { result ≡ searched_text count }
    ensures short { length result ≤ 127 }
{
    let said = searched_sentence(count);
    brief_plain(said.bytes())
}

/// A text, and that sentence.
fn searched_on(text: Brief, runs: &Runs) -> Brief
    requires { length text ≤ 675 }
    ensures text { result ≡ text ++ searched_text (moments runs.now) }
    ensures short { length result ≤ 802 }
{
    let mut note = text;
    let more = searched_note(moments(runs));
    note.push(more.bytes());
    note
}

/// The text of a stop, and what follows it.
fn followed(text: Brief, runs: &Runs, stop: Stop) -> Brief
    requires { length text ≤ 675 }
    ensures text { result ≡ followed_text runs.now stop text }
    ensures short { length result ≤ 802 }
{
    match stop {
        Stop::Nohit => searched_on(text, runs),
        Stop::Reset => text,
        Stop::Length => text,
        Stop::Empty => text,
        Stop::Candidates => text,
        Stop::Conflicts => text,
    }
}

/// Whether the runs are searched for the dump.
fn is_searched(steps: u64, stop: Stop) -> bool
    ensures { result ≡ is_searched steps stop }
{
    match stop {
        Stop::Reset => false,
        Stop::Length => false,
        Stop::Nohit => steps == 1,
        Stop::Empty => steps == 1,
        Stop::Candidates => steps == 1,
        Stop::Conflicts => steps == 1,
    }
}

/// The note on a stop in the first step, which says this, once the runs were searched.
#[tactic(auto, using(crate::proofs::NoteLemmas::text_due))]
fn looked(alloc: Global, chip: &mut Chip<'_>, dump: &Dump, said: &[u8]) -> Note
    requires { length dump.now.state.bits ≡ length chip.old.recording.circuit.flops }
    ensures { Due (λ note. note ≡ looked_text chip.old.recording dump.now said.now) result }
{
    note_made(looked_note(alloc, chip, dump, said))
}

/// The text of a stop, and what the recorded runs tell of the dump where they are searched for it.
#[tactic(auto, using(crate::proofs::EndingLemmas::looked_so, crate::proofs::EndingLemmas::unlooked_so, crate::proofs::EndingLemmas::searched_wants, crate::proofs::EndingLemmas::brief_sure))]
fn stopped(
    alloc: Global,
    chip: &mut Chip<'_>,
    dump: &Dump,
    steps: u64,
    stop: Stop,
    text: Brief,
) -> Note
    requires { length dump.now.state.bits ≡ length chip.old.recording.circuit.flops }
    ensures text { Due (λ note. note ≡ stopped_text chip.old.recording dump.now steps stop text) result }
    ensures sure { is_searched steps stop ≡ false → result ≢ Note.Wanting }
{
    if is_searched(steps, stop) {
        return looked(alloc, chip, dump, text.bytes());
    }
    Note::Brief(text)
}

/// The note on a stop, from the text of its own.
fn noted(
    alloc: Global,
    chip: &mut Chip<'_>,
    dump: &Dump,
    runs: &Runs,
    steps: u64,
    stop: Stop,
    text: Brief,
) -> Note
    requires width { length dump.now.state.bits ≡ length chip.old.recording.circuit.flops }
    requires short { length text ≤ 675 }
    ensures text { Due (λ note. note ≡ stopped_text chip.old.recording dump.now steps stop (followed_text runs.now stop text)) result }
    ensures sure { is_searched steps stop ≡ false → result ≢ Note.Wanting }
{
    let text = followed(text, runs, stop);
    stopped(alloc, chip, dump, steps, stop, text)
}

/// The note on why a run stopped from a dump of which all is known.
#[tactic(auto, using(crate::proofs::EndingLemmas::run_silent, crate::proofs::EndingLemmas::run_due, crate::proofs::EndingLemmas::silent_sure))]
fn whole_said(
    alloc: Global,
    chip: &mut Chip<'_>,
    dump: &Dump,
    runs: &Runs,
    steps: u64,
    stop: Stop,
    cut: bool,
    lists: u64,
) -> Note
    requires { length dump.now.state.bits ≡ length chip.old.recording.circuit.flops }
    ensures text { DueText (whole_text chip.old.recording dump.now runs.now steps stop cut lists) result }
    ensures sure { is_searched steps stop ≡ false → result ≢ Note.Wanting }
{
    match stop_note(steps, stop, cut, lists) {
        Some(text) => noted(alloc, chip, dump, runs, steps, stop, text),
        None => Note::Silent,
    }
}

/// The text of a stop, and what follows it, if there is one.
#[tactic(auto, using(crate::proofs::EndingLemmas::own_some, crate::proofs::EndingLemmas::own_none))]
fn own_said(runs: &Runs, steps: u64, stop: Stop, cut: bool, lists: u64) -> Brief
    ensures text { result ≡ own_text runs.now steps stop cut lists }
    ensures short { length result ≤ 802 }
{
    match stop_note(steps, stop, cut, lists) {
        Some(text) => followed(text, runs, stop),
        None => Brief::of(b""),
    }
}

/// Whether a candidate of the first step was hit.
fn is_hit(steps: u64, stop: Stop) -> bool
    ensures { result ≡ is_hit steps stop }
{
    let searched = is_searched(steps, stop);
    0 < steps && !searched
}

/// The note on why a run stopped from a dump of which some flip-flops are not known.
fn partly_said(dump: &Dump, runs: &Runs, steps: u64, stop: Stop, cut: bool, lists: u64) -> Brief
    ensures { result ≡ own_text runs.now steps stop cut lists ++ partly_text dump.now (is_hit steps stop) }
{
    let mut note = own_said(runs, steps, stop, cut, lists);
    let known = partly_note(dump, is_hit(steps, stop));
    note.push(known.bytes());
    note
}

/// The note on why a run from a dump stopped after so many steps, where it did not come to reset, and how many flip-flops of the dump
/// are known, where some are not. The chip is that of the runs. `cut` is whether the search for a recorded moment was cut in the last
/// step, `lists` how many of the steps' lists were cut. Memory may run out for the note only where the runs are searched.
#[tactic(auto, using(crate::proofs::EndingLemmas::run_whole, crate::proofs::EndingLemmas::run_partly, crate::proofs::EndingLemmas::brief_sure))]
pub fn run_said(
    alloc: Global,
    chip: &mut Chip<'_>,
    dump: &Dump,
    runs: &Runs,
    steps: u64,
    stop: Stop,
    cut: bool,
    lists: u64,
) -> Note
    requires { length dump.now.state.bits ≡ length chip.old.recording.circuit.flops }
    ensures text { DueText (run_text chip.old.recording dump.now runs.now steps stop cut lists) result }
    ensures sure { is_searched steps stop ≡ false → result ≢ Note.Wanting }
{
    if dump.state.is_whole() {
        return whole_said(alloc, chip, dump, runs, steps, stop, cut, lists);
    }
    Note::Brief(partly_said(dump, runs, steps, stop, cut, lists))
}

/// The note on a search, where it has no execution. It takes no memory.
#[tactic(auto, using(crate::proofs::EndingLemmas::miss_made))]
pub fn miss_said(miss: Option<Miss>) -> Note
    ensures { SureText (miss_text_of miss) result }
{
    match miss {
        Some(miss) => Note::Brief(miss_note(miss)),
        None => Note::Silent,
    }
}

/// The note on an audit, where the report is not valid. It takes no memory.
#[tactic(auto, using(crate::proofs::EndingLemmas::rejected_made))]
pub fn rejected_said(rejected: bool) -> Note
    ensures { SureText (rejected_text_if rejected) result }
{
    if rejected {
        Note::Brief(rejected_note())
    } else {
        Note::Silent
    }
}
