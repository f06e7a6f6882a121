//! Whether a report fits a netlist, and whether names are those of a netlist, or the diagnostic of them.
ghost use Rattle.std.specs.Prelude.{◌≡◌, ◌+◌, None, length, true, map, All, IfOk};
ghost use Rattle.bs_net.specs.Netlist.{circuit};
ghost use Rattle.bs_outside.specs.Plan.{exactly};
ghost use Rattle.bs_outside.specs.Diagnostic.{note_refusal, noted, word_refusal, worded};
ghost use Rattle.bs_outside.specs.Walks.{Reads};
ghost use Rattle.bs_top_files.specs.Causes.{CheckSays, HasNote, NoteSays};
ghost use Rattle.bs_top_files.specs.Refusals.{HasWords};
ghost use Rattle.bs_inspect_notes.specs.Names.{name_text};
ghost use Rattle.bs_inspect_report_texts.specs.Fits.{fit_fault};
ghost use Rattle.bs_inspect_files.specs.Fits.{fit_in, fit_of, is_enough, known_in};
ghost use Rattle.bs_inspect_values.specs.Saying.{all_keys};
ghost use Rattle.bs_inspect_files.specs.Words.{name_words};

use crate::fit_fault::fault_diagnostic;
use crate::refusals::name_refusal;
use bs_bits::NoMemory;
use bs_inspect_notes::name_note;
use bs_inspect_report::first_unknown;
use bs_inspect_report_texts::fit_fault;
use bs_inspect_values::all_bytes;
use bs_net::Netlist;
use bs_outside::{Unread, both};
use bs_report::Report;
use bs_top_files::{is_known, partial_diagnostic};
use std::alloc::Global;

// ---- a report and a netlist

/// Whether a report fits a netlist, or the diagnostic of it.
#[tactic(auto, using(bs_inspect_report_texts::proofs::FitLemmas::states_fit, bs_inspect_report_texts::proofs::FitLemmas::inputs_fit, crate::proofs::FitLemmas::fault_words, crate::proofs::FitLemmas::fault_note))]
fn fits_or_diagnostic(
    alloc: Global,
    path: &str,
    net: &Netlist,
    report: &Report,
) -> Result<(), Unread>
    requires { length report.now.states ≡ length report.now.inputs + 1 }
    ensures words { Reads CheckSays (λ _. true) (fit_of path.now (fit_fault net.now.raw report.now)) (worded result) }
    ensures note { Reads NoteSays (λ _. true) (fit_of path.now (fit_fault net.now.raw report.now)) (noted result) }
    ensures states { IfOk result (λ _. All (λ s. length s ≡ length (circuit net.now).flops) report.now.states) }
    ensures inputs { IfOk result (λ _. All (λ x. length x ≡ length (circuit net.now).inputs) report.now.inputs) }
    ensures fits { IfOk result (λ _. None ≡ fit_fault net.now.raw report.now) }
{
    match fit_fault(alloc, net, report) {
        Ok(None) => Ok(()),
        Ok(Some(fault)) => Err(fault_diagnostic(alloc, path, fault)),
        Err(_) => Err(Unread::NoMemory),
    }
}

/// Whether a trace is known as far as it has to be: all of it, where it may not be known in part.
fn is_enough(partial: bool, report: &Report) -> bool
    ensures { result ≡ is_enough partial report.now }
{
    partial || is_known(report)
}

/// Whether a report fits a netlist, whose trace may be known in part or not, or the diagnostic of it.
#[tactic(auto, using(bs_top_files::proofs::NotingLemmas::reads_where, bs_top_files::proofs::NotingLemmas::words_not, bs_top_files::proofs::NotingLemmas::note_not))]
pub fn fit_or_diagnostic(
    alloc: Global,
    partial: bool,
    path: &str,
    net: &Netlist,
    report: &Report,
) -> Result<(), Unread>
    requires { length report.now.states ≡ length report.now.inputs + 1 }
    ensures words { Reads CheckSays (λ _. true) (fit_in partial path.now net.now.raw report.now) (worded result) }
    ensures note { Reads NoteSays (λ _. true) (fit_in partial path.now net.now.raw report.now) (noted result) }
    ensures states { IfOk result (λ _. All (λ s. length s ≡ length (circuit net.now).flops) report.now.states) }
    ensures inputs { IfOk result (λ _. All (λ x. length x ≡ length (circuit net.now).inputs) report.now.inputs) }
    ensures fits { IfOk result (λ _. None ≡ fit_fault net.now.raw report.now) }
{
    if is_enough(partial, report) {
        fits_or_diagnostic(alloc, path, net, report)
    } else {
        Err(partial_diagnostic(alloc, path))
    }
}

// ---- names that are asked for

/// A note on a name that is none of a netlist.
fn unknown_note(alloc: Global, net: &Netlist, name: &str) -> Result<Vec<u8>, NoMemory>
    ensures { IfOk result (λ note. note.items ≡ name_text name.now (all_keys net.now.raw)) }
{
    let keys = all_bytes(alloc, net)?;
    let all = keys.as_slice();
    let bytes = name.as_bytes();
    let note = name_note(alloc, bytes, all)?;
    Ok(note)
}

/// The diagnostic of a name that is none of a netlist.
#[tactic(auto, using(bs_top_files::proofs::NotingLemmas::both_words, bs_top_files::proofs::NotingLemmas::both_these))]
fn unknown_diagnostic(alloc: Global, net: &Netlist, name: &str) -> Unread
    ensures words { HasWords (name_words name.now) (word_refusal result) }
    ensures note { HasNote (exactly (name_text name.now (all_keys net.now.raw))) (note_refusal result) }
{
    let words = name_refusal(alloc, name);
    let note = unknown_note(alloc, net, name);
    both(words, note)
}

/// Whether a netlist has these names, or the diagnostic of the first that it has not.
#[tactic(auto, using(crate::proofs::FitLemmas::known_words, crate::proofs::FitLemmas::known_note))]
pub fn known_or_diagnostic(alloc: Global, net: &Netlist, only: &[&str]) -> Result<(), Unread>
    ensures words { Reads CheckSays (λ _. true) (known_in net.now.raw (map (λ s. s.now) only.now)) (worded result) }
    ensures note { Reads NoteSays (λ _. true) (known_in net.now.raw (map (λ s. s.now) only.now)) (noted result) }
{
    match first_unknown(alloc, net, only) {
        Ok(None) => Ok(()),
        Ok(Some(name)) => Err(unknown_diagnostic(alloc, net, name)),
        Err(_) => Err(Unread::NoMemory),
    }
}
