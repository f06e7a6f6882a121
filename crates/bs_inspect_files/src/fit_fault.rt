//! Why a report does not fit a netlist: the words of the refusal, and the note on it.
ghost use Rattle.std.specs.Prelude.{◌≡◌, IfOk};
ghost use Rattle.bs_outside.specs.Plan.{exactly};
ghost use Rattle.bs_outside.specs.Diagnostic.{note_refusal, word_refusal};
ghost use Rattle.bs_top_files.specs.Causes.{HasNote};
ghost use Rattle.bs_top_files.specs.Refusals.{HasWords};
ghost use Rattle.bs_inspect_files.specs.Fits.{fault_words};
ghost use Rattle.bs_inspect_files.specs.Saying.{break_text, candidate_text, fault_text};

use bs_bits::{NoMemory, push_number, push_piece};
use bs_inspect_notes::{state_note, trace_note};
use bs_inspect_report_texts::FitFault;
use bs_inspect_values::numbered;
use bs_note_files::file_note;
use bs_outside::{Refusal, Unread, both};
use std::alloc::Global;

/// The words of a fault.
fn fault_refusal(alloc: Global, fault: FitFault) -> Refusal
    ensures { HasWords (fault_words fault) result }
{
    match fault {
        FitFault::State(place) => numbered(alloc, b"TraceState ", place as u64),
        FitFault::Input(place) => numbered(alloc, b"TraceInput ", place as u64),
        FitFault::Astray(place) => numbered(alloc, b"TraceStep ", place as u64),
        FitFault::Candidate(number) => numbered(alloc, b"Candidate ", number as u64),
    }
}

/// A note on a state of a report's trace that does not lead to the next one.
fn break_note(alloc: Global, path: &str, place: u64) -> Result<Vec<u8>, NoMemory>
    ensures { IfOk result (λ note. note.items ≡ break_text path.now place) }
{
    let mut said = b"state ".to_vec(alloc)?;
    push_number(&mut said, place)?;
    push_piece(
        &mut said,
        b" of the trace does not lead to the next one under its input",
    )?;
    let mut note = file_note(alloc, path, &said)?;
    push_piece(
        &mut note,
        b"note: is it the report of this very netlist? `backspace audit` says where a report fails\n",
    )?;
    Ok(note)
}

/// A note on a candidate of a report's first step that does not lead to its present state.
fn candidate_note(alloc: Global, path: &str, number: u64) -> Result<Vec<u8>, NoMemory>
    ensures { IfOk result (λ note. note.items ≡ candidate_text path.now number) }
{
    let mut said = b"candidate ".to_vec(alloc)?;
    push_number(&mut said, number)?;
    push_piece(
        &mut said,
        b" of step 1 does not lead to the present state under its input",
    )?;
    let mut note = file_note(alloc, path, &said)?;
    push_piece(
        &mut note,
        b"note: is it the report of this very netlist? `backspace audit` says where a report fails\n",
    )?;
    Ok(note)
}

/// The note on a fault.
fn fault_note(alloc: Global, path: &str, fault: FitFault) -> Result<Vec<u8>, NoMemory>
    ensures { IfOk result (λ note. note.items ≡ fault_text path.now fault) }
{
    match fault {
        FitFault::State(place) => state_note(alloc, path, place as u64),
        FitFault::Input(place) => trace_note(alloc, path, place as u64),
        FitFault::Astray(place) => break_note(alloc, path, place as u64),
        FitFault::Candidate(number) => candidate_note(alloc, path, number as u64),
    }
}

/// The diagnostic of a report that does not fit.
#[tactic(auto, using(bs_top_files::proofs::NotingLemmas::both_words, bs_top_files::proofs::NotingLemmas::both_these))]
pub(crate) fn fault_diagnostic(alloc: Global, path: &str, fault: FitFault) -> Unread
    ensures words { HasWords (fault_words fault) (word_refusal result) }
    ensures note { HasNote (exactly (fault_text path.now fault)) (note_refusal result) }
{
    let words = fault_refusal(alloc, fault);
    let note = fault_note(alloc, path, fault);
    both(words, note)
}
