//! Whether the runs have a moment, and whether a waveform is small enough, or the diagnostic of it.
ghost use Rattle.std.specs.Prelude.{◌≡◌, true, IfOk};
ghost use Rattle.bs_scan.specs.Moments.{IsMoment};
ghost use Rattle.bs_stim.specs.Runs.{inputs_of};
ghost use Rattle.bs_note_calls.specs.Faults.{large_text, partial_text, range_text};
ghost use Rattle.bs_outside.specs.Plan.{exactly};
ghost use Rattle.bs_outside.specs.Diagnostic.{note_refusal, noted, word_refusal, worded};
ghost use Rattle.bs_outside.specs.Walks.{Reads};
ghost use Rattle.bs_top_files.specs.Causes.{CheckSays, HasNote, NoteSays};
ghost use Rattle.bs_top_files.specs.Readings.{drawable_in, moment_in, size_in};
ghost use Rattle.bs_top_files.specs.Refusals.{HasWords, partial_words, range_words, too_large_words};

use crate::readings::{has_moment, is_drawable, is_known};
use crate::refusals::{partial_refusal, range_refusal, too_large_refusal};
use bs_net::Netlist;
use bs_note_calls::{large_note, partial_note, range_note};
use bs_outside::{Unread, both};
use bs_report::Report;
use bs_scan::Moment;
use bs_stim::Runs;
use std::alloc::Global;

/// The diagnostic of a moment that no run has.
#[tactic(auto, using(crate::proofs::NotingLemmas::both_words, crate::proofs::NotingLemmas::both_these))]
fn range_diagnostic(alloc: Global, runs: &Runs, run: u64) -> Unread
    ensures words { HasWords range_words (word_refusal result) }
    ensures note { HasNote (exactly (range_text runs.now run)) (note_refusal result) }
{
    let words = range_refusal(alloc);
    let note = range_note(alloc, runs, run);
    both(words, note)
}

/// A moment of the runs, or a diagnostic where no run has it.
#[tactic(auto, using(crate::proofs::NotingLemmas::words_not, crate::proofs::NotingLemmas::note_not))]
pub fn moment_or_diagnostic(
    alloc: Global,
    runs: &Runs,
    run: u64,
    cycle: u64,
) -> Result<Moment, Unread>
    ensures words { Reads CheckSays (λ moment. moment) (moment_in runs.now run cycle) (worded result) }
    ensures note { Reads NoteSays (λ moment. moment) (moment_in runs.now run cycle) (noted result) }
    ensures recorded { IfOk result (λ moment. IsMoment (inputs_of runs.now) moment) }
{
    if !has_moment(runs, run, cycle) {
        return Err(range_diagnostic(alloc, runs, run));
    }
    Ok(Moment {
        run: run as u32,
        cycle: cycle as u32,
    })
}

/// The diagnostic of a report whose trace has too large a waveform.
#[tactic(auto, using(crate::proofs::NotingLemmas::both_words, crate::proofs::NotingLemmas::both_these))]
fn size_diagnostic(alloc: Global, path: &str) -> Unread
    ensures words { HasWords too_large_words (word_refusal result) }
    ensures note { HasNote (exactly (large_text path.now)) (note_refusal result) }
{
    let words = too_large_refusal(alloc);
    let note = large_note(alloc, path);
    both(words, note)
}

/// The diagnostic of a report whose trace is a state that is known in part.
#[tactic(auto, using(crate::proofs::NotingLemmas::both_words, crate::proofs::NotingLemmas::both_these))]
pub fn partial_diagnostic(alloc: Global, path: &str) -> Unread
    ensures words { HasWords partial_words (word_refusal result) }
    ensures note { HasNote (exactly (partial_text path.now)) (note_refusal result) }
{
    let words = partial_refusal(alloc);
    let note = partial_note(alloc, path);
    both(words, note)
}

/// Whether a waveform of the report's trace is small enough, or the diagnostic of it.
#[tactic(auto, using(crate::proofs::NotingLemmas::words_not, crate::proofs::NotingLemmas::note_not))]
fn drawable_or_diagnostic(
    alloc: Global,
    path: &str,
    net: &Netlist,
    report: &Report,
) -> Result<(), Unread>
    ensures words { Reads CheckSays (λ _. true) (drawable_in path.now net.now.raw report.now) (worded result) }
    ensures note { Reads NoteSays (λ _. true) (drawable_in path.now net.now.raw report.now) (noted result) }
{
    if is_drawable(net, report) {
        Ok(())
    } else {
        Err(size_diagnostic(alloc, path))
    }
}

/// Whether the report's trace has a waveform, or the diagnostic of it.
#[tactic(auto, using(crate::proofs::NotingLemmas::reads_where, crate::proofs::NotingLemmas::words_not, crate::proofs::NotingLemmas::note_not))]
pub fn size_or_diagnostic(
    alloc: Global,
    path: &str,
    net: &Netlist,
    report: &Report,
) -> Result<(), Unread>
    ensures words { Reads CheckSays (λ _. true) (size_in path.now net.now.raw report.now) (worded result) }
    ensures note { Reads NoteSays (λ _. true) (size_in path.now net.now.raw report.now) (noted result) }
{
    if is_known(report) {
        drawable_or_diagnostic(alloc, path, net, report)
    } else {
        Err(partial_diagnostic(alloc, path))
    }
}
