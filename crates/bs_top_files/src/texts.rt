//! A signature, a stimulus, a dump or a report, or the diagnostic of its text: the words of the refusal line and the note on it.
ghost use Rattle.std.specs.Prelude.{◌≡◌, ◌≤◌, ◌+◌, length, IfOk};
ghost use Rattle.bs_net.specs.Netlist.{circuit};
ghost use Rattle.bs_report.specs.declared.fault.ReportFault.TheVariants.{NoMemory as ReportWant};
ghost use Rattle.bs_report.specs.declared.limits.TheConstants.{MAX_STEPS};
ghost use Rattle.bs_scan.specs.Crash.{DumpFits};
ghost use Rattle.bs_scan.specs.declared.fault.ChoiceFault.TheVariants.{NoMemory as ChoiceWant};
ghost use Rattle.bs_scan.specs.declared.fault.DumpFault.TheVariants.{NoMemory as DumpWant};
ghost use Rattle.bs_stim.specs.declared.fault.StimFault.TheVariants.{NoMemory as StimWant};
ghost use Rattle.bs_outside.specs.declared.limits.TheConstants.{MAX_REPORT_BYTES, MAX_SIGNATURE_BYTES, MAX_STIMULUS_BYTES};
ghost use Rattle.bs_outside.specs.declared.file_fetch.Refusal.TheVariants.{NoMemory as Want};
ghost use Rattle.bs_outside.specs.Plan.{Says};
ghost use Rattle.bs_outside.specs.Diagnostic.{note_refusal, noted, word_refusal, worded};
ghost use Rattle.bs_outside.specs.Walks.{Reads};
ghost use Rattle.bs_top_files.specs.Causes.{CheckSays, HasNote, NoteSays, dump_reason, report_reason, signature_reason, stimulus_reason};
ghost use Rattle.bs_top_files.specs.Entry.{input_width};
ghost use Rattle.bs_top_files.specs.Readings.{dump_in, report_read, signature_in, stimulus_in, widths_of};
ghost use Rattle.bs_top_files.specs.Refusals.{HasWords, dump_words, report_words, signature_words, stimulus_words};

use crate::readings::read_choice;
use crate::refusals::{dump_refusal, report_refusal, signature_refusal, stimulus_refusal};
use bs_bits::NoMemory;
use bs_net::Netlist;
use bs_note_files::{
    Widths, dump_note, mistaken, mistaken_note, report_note, signature_note, stimulus_note,
};
use bs_outside::{File, Unread, both};
use bs_report::{Report, ReportFault};
use bs_scan::{Choice, ChoiceFault, Dump, DumpFault};
use bs_stim::{Runs, StimFault};
use std::alloc::Global;

// ---- the signature

/// The note on a text that is no signature: that it seems to be another file of a job, where it does, or else on its fault.
#[tactic(auto, using(crate::proofs::NotingLemmas::says_mistaken, crate::proofs::NotingLemmas::says_case))]
fn signature_said(
    alloc: Global,
    path: &str,
    text: &[u8],
    net: &Netlist,
    fault: ChoiceFault,
) -> Result<Vec<u8>, NoMemory>
    ensures { IfOk result (λ note. Says NoteSays (signature_reason net.now.raw path.now text.now fault) note.items) }
{
    match mistaken(File::Signature, text) {
        Some(kind) => mistaken_note(alloc, File::Signature, kind, path),
        None => signature_note(alloc, path, text, net, fault),
    }
}

/// The diagnostic of a text that is no signature.
#[tactic(auto, using(crate::proofs::NotingLemmas::both_words, crate::proofs::NotingLemmas::both_note, crate::proofs::NotingLemmas::both_want))]
fn signature_diagnostic(
    alloc: Global,
    path: &str,
    text: &[u8],
    net: &Netlist,
    fault: ChoiceFault,
) -> Unread
    ensures words { HasWords (signature_words fault) (word_refusal result) }
    ensures want { fault ≡ ChoiceWant → word_refusal result ≡ Want }
    ensures note { HasNote (signature_reason net.now.raw path.now text.now fault) (note_refusal result) }
    ensures none { fault ≡ ChoiceWant → note_refusal result ≡ Want }
{
    let words = signature_refusal(alloc, fault);
    let note = signature_said(alloc, path, text, net, fault);
    both(words, note)
}

/// What a signature is taken of, or the diagnostic of its text.
pub fn signature_or_diagnostic(
    alloc: Global,
    path: &str,
    text: &[u8],
    net: &Netlist,
) -> Result<Choice, Unread>
    requires { length text.now ≤ MAX_SIGNATURE_BYTES }
    ensures words { Reads CheckSays (λ choice. choice) (signature_in net.now.raw path.now text.now) (worded result) }
    ensures note { Reads NoteSays (λ choice. choice) (signature_in net.now.raw path.now text.now) (noted result) }
    ensures width { IfOk result (λ choice. choice.width ≡ length (circuit net.now).flops) }
{
    match read_choice(alloc, text, net) {
        Ok(choice) => Ok(choice),
        Err(fault) => Err(signature_diagnostic(alloc, path, text, net, fault)),
    }
}

// ---- the stimulus

/// The note on a text that is no stimulus: that it seems to be another file of a job, where it does, or else on its fault.
#[tactic(auto, using(crate::proofs::NotingLemmas::says_mistaken, crate::proofs::NotingLemmas::says_case))]
fn stimulus_said(
    alloc: Global,
    path: &str,
    text: &[u8],
    width: usize,
    fault: StimFault,
) -> Result<Vec<u8>, NoMemory>
    ensures { IfOk result (λ note. Says NoteSays (stimulus_reason width path.now text.now fault) note.items) }
{
    match mistaken(File::Stimulus, text) {
        Some(kind) => mistaken_note(alloc, File::Stimulus, kind, path),
        None => stimulus_note(alloc, path, text, width, fault),
    }
}

/// The diagnostic of a text that is no stimulus.
#[tactic(auto, using(crate::proofs::NotingLemmas::both_words, crate::proofs::NotingLemmas::both_note, crate::proofs::NotingLemmas::both_want))]
fn stimulus_diagnostic(
    alloc: Global,
    path: &str,
    text: &[u8],
    width: usize,
    fault: StimFault,
) -> Unread
    ensures words { HasWords (stimulus_words fault) (word_refusal result) }
    ensures want { fault ≡ StimWant → word_refusal result ≡ Want }
    ensures note { HasNote (stimulus_reason width path.now text.now fault) (note_refusal result) }
    ensures none { fault ≡ StimWant → note_refusal result ≡ Want }
{
    let words = stimulus_refusal(alloc, fault);
    let note = stimulus_said(alloc, path, text, width, fault);
    both(words, note)
}

/// The runs of a stimulus, or the diagnostic of its text.
pub fn stimulus_or_diagnostic(
    alloc: Global,
    path: &str,
    text: &[u8],
    net: &Netlist,
) -> Result<Runs, Unread>
    requires { length text.now ≤ MAX_STIMULUS_BYTES }
    ensures words { Reads CheckSays (λ runs. runs) (stimulus_in (input_width net.now.raw) path.now text.now) (worded result) }
    ensures note { Reads NoteSays (λ runs. runs) (stimulus_in (input_width net.now.raw) path.now text.now) (noted result) }
    ensures width { IfOk result (λ runs. runs.width ≡ length (circuit net.now).inputs) }
{
    let width = net.data_inputs().len();
    match bs_stim::read(alloc, text, width) {
        Ok(runs) => Ok(runs),
        Err(fault) => Err(stimulus_diagnostic(alloc, path, text, width, fault)),
    }
}

// ---- the dump

/// What a dump is due to have.
fn widths_of(net: &Netlist, choice: &Choice) -> Widths
    ensures { result ≡ widths_of net.now.raw choice.now }
{
    Widths {
        flops: net.width(),
        depth: choice.depth(),
        items: choice.items(),
    }
}

/// The note on a text that is no dump: that it seems to be another file of a job, where it does, or else on its fault.
#[tactic(auto, using(crate::proofs::NotingLemmas::says_mistaken, crate::proofs::NotingLemmas::says_case))]
fn dump_said(
    alloc: Global,
    path: &str,
    text: &[u8],
    widths: Widths,
    fault: DumpFault,
) -> Result<Vec<u8>, NoMemory>
    ensures { IfOk result (λ note. Says NoteSays (dump_reason widths path.now text.now fault) note.items) }
{
    match mistaken(File::Dump, text) {
        Some(kind) => mistaken_note(alloc, File::Dump, kind, path),
        None => dump_note(alloc, path, text, widths, fault),
    }
}

/// The diagnostic of a text that is no dump.
#[tactic(auto, using(crate::proofs::NotingLemmas::both_words, crate::proofs::NotingLemmas::both_note, crate::proofs::NotingLemmas::both_want))]
fn dump_diagnostic(
    alloc: Global,
    path: &str,
    text: &[u8],
    widths: Widths,
    fault: DumpFault,
) -> Unread
    ensures words { HasWords (dump_words fault) (word_refusal result) }
    ensures want { fault ≡ DumpWant → word_refusal result ≡ Want }
    ensures note { HasNote (dump_reason widths path.now text.now fault) (note_refusal result) }
    ensures none { fault ≡ DumpWant → note_refusal result ≡ Want }
{
    let words = dump_refusal(alloc, fault);
    let note = dump_said(alloc, path, text, widths, fault);
    both(words, note)
}

/// A dump, or the diagnostic of its text.
pub fn dump_or_diagnostic(
    alloc: Global,
    path: &str,
    text: &[u8],
    net: &Netlist,
    choice: &Choice,
) -> Result<Dump, Unread>
    ensures words { Reads CheckSays (λ dump. dump) (dump_in net.now.raw choice.now path.now text.now) (worded result) }
    ensures note { Reads NoteSays (λ dump. dump) (dump_in net.now.raw choice.now path.now text.now) (noted result) }
    ensures fits { IfOk result (λ dump. DumpFits (circuit net.now) choice.now dump) }
{
    let widths = widths_of(net, choice);
    match Dump::read(alloc, text, net, choice) {
        Ok(dump) => Ok(dump),
        Err(fault) => Err(dump_diagnostic(alloc, path, text, widths, fault)),
    }
}

// ---- the report

/// The note on a text that is no report: that it seems to be another file of a job, where it does, or else on its fault.
#[tactic(auto, using(crate::proofs::NotingLemmas::says_mistaken, crate::proofs::NotingLemmas::says_case))]
fn report_said(
    alloc: Global,
    path: &str,
    text: &[u8],
    fault: ReportFault,
) -> Result<Vec<u8>, NoMemory>
    ensures { IfOk result (λ note. Says NoteSays (report_reason path.now text.now fault) note.items) }
{
    match mistaken(File::Report, text) {
        Some(kind) => mistaken_note(alloc, File::Report, kind, path),
        None => report_note(alloc, path, text, fault),
    }
}

/// The diagnostic of a text that is no report.
#[tactic(auto, using(crate::proofs::NotingLemmas::both_words, crate::proofs::NotingLemmas::both_note, crate::proofs::NotingLemmas::both_want))]
fn report_diagnostic(alloc: Global, path: &str, text: &[u8], fault: ReportFault) -> Unread
    ensures words { HasWords (report_words fault) (word_refusal result) }
    ensures want { fault ≡ ReportWant → word_refusal result ≡ Want }
    ensures note { HasNote (report_reason path.now text.now fault) (note_refusal result) }
    ensures none { fault ≡ ReportWant → note_refusal result ≡ Want }
{
    let words = report_refusal(alloc, fault);
    let note = report_said(alloc, path, text, fault);
    both(words, note)
}

/// A report, or the diagnostic of its text.
pub fn report_or_diagnostic(alloc: Global, path: &str, text: &[u8]) -> Result<Report, Unread>
    requires { length text.now ≤ MAX_REPORT_BYTES }
    ensures words { Reads CheckSays (λ report. report) (report_read path.now text.now) (worded result) }
    ensures note { Reads NoteSays (λ report. report) (report_read path.now text.now) (noted result) }
    ensures steps { IfOk result (λ report. report.budgets.steps ≤ MAX_STEPS) }
    ensures more { IfOk result (λ report. length report.states ≡ length report.inputs + 1) }
{
    match Report::read(alloc, text) {
        Ok(report) => Ok(report),
        Err(fault) => Err(report_diagnostic(alloc, path, text, fault)),
    }
}
