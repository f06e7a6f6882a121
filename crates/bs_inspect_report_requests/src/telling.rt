//! What is told of a report, as a reply.
ghost use Rattle.std.specs.Prelude.{◌≡◌, map, Some, IfOk, ◌+◌, length, option_map, All};
ghost use Rattle.bs_inspect_plans.specs.Finishes.{finishes, bench_status, bench_text as text_of_bench, evidence_status, evidence_text};
ghost use Rattle.bs_stim.specs.Runs.{inputs_of};
ghost use Rattle.bs_inspect_files.specs.Taken.{bench_files_in, report_files_in, trace_files_in};
ghost use Rattle.bs_inspect_report_texts.specs.Bench.{BenchAnswers};
ghost use Rattle.bs_inspect_report_texts.specs.Faults.{bench_fault_text};
ghost use Rattle.bs_inspect_files.specs.Paged.{page_files_in};
ghost use Rattle.bs_inspect_html.specs.Signed.{file_in};
ghost use Rattle.bs_inspect_view.specs.View.{IsDrawing};
ghost use Rattle.bs_net.specs.Netlist.{circuit, circuit_of};
ghost use Rattle.bs_reach_answer.specs.ReadingLaw.{HasAnswerText};
ghost use Rattle.bs_evidence.specs.Lengths.{IsEvidence as IsLengthEvidence};
ghost use Rattle.bs_reach_answer.specs.Searched.{answer_files_in};
ghost use Rattle.bs_evidence.specs.Evidence.{IsEvidence};
ghost use Rattle.bs_evidence.specs.Words.{flaw_text};
ghost use Rattle.bs_inspect_plans.specs.Asked.{drawing_of, page_for, signature_file, window_of};
ghost use Rattle.bs_inspect_plans.specs.Work.{to_bench, to_evidence, to_lengths, to_lists, to_page, to_save, to_steps, to_steps_table, to_table, to_trace, to_wave};

use bs_evidence::{Evidence, Flaw, Format, evidence_for, evidence_of, flaw_text, length_evidence};
use bs_inspect_files::{BenchFiles, PageFiles, ReportFiles, RunFiles, TraceFiles};
use bs_inspect_html::SignatureFile;
use bs_inspect_page::{PageOptions, page_text};
use bs_inspect_report::{
    Window, recorded_moments, remarks_text, steps_table, steps_text, trace_table, trace_text,
};
use bs_inspect_report_texts::{Bench, BenchFault, bench_fault_text, bench_of, lists_text};
use bs_inspect_usages::TraceWindow;
use bs_inspect_view::{ViewRequest, drawing, save_file};
use bs_outside::{NoMemory, Reply, Status};
use bs_reach::Reach;
use bs_reach_answer::AnswerFiles;
use bs_report::Report;
use bs_scan::Choice;
use bs_top_reach::Target;
use std::alloc::Global;

/// The steps of a report.
pub fn tell_steps(alloc: Global, report: &Report) -> Result<Reply, NoMemory>
    ensures { IfOk result (λ answer. finishes (to_steps report.now) answer.status answer.text.items) }
{
    let text = steps_text(alloc, report)?;
    Ok(Reply {
        status: Status::Done,
        text,
    })
}

/// The steps of a report as a table.
pub fn tell_steps_table(alloc: Global, report: &Report) -> Result<Reply, NoMemory>
    ensures { IfOk result (λ answer. finishes (to_steps_table report.now) answer.status answer.text.items) }
{
    let text = steps_table(alloc, report)?;
    Ok(Reply {
        status: Status::Done,
        text,
    })
}

/// The trace of a report with the names of a netlist.
pub fn tell_trace(
    alloc: Global,
    trace_files: &TraceFiles,
    all: bool,
    asked: TraceWindow,
    only: &[&str],
) -> Result<Reply, NoMemory>
    ensures { IfOk result (λ answer. finishes (to_trace all (window_of asked) (map (λ s. s.now) only.now) (trace_files_in trace_files.now)) answer.status answer.text.items) }
{
    let window = Window {
        from: asked.from,
        to: asked.to,
        last: asked.last,
    };
    let text = trace_text(
        alloc,
        &trace_files.net,
        &trace_files.report,
        all,
        window,
        only,
    )?;
    Ok(Reply {
        status: Status::Done,
        text,
    })
}

/// The trace of a report as a table.
pub fn tell_table(
    alloc: Global,
    trace_files: &TraceFiles,
    asked: TraceWindow,
    only: &[&str],
) -> Result<Reply, NoMemory>
    ensures { IfOk result (λ answer. finishes (to_table (window_of asked) (map (λ s. s.now) only.now) (trace_files_in trace_files.now)) answer.status answer.text.items) }
{
    let window = Window {
        from: asked.from,
        to: asked.to,
        last: asked.last,
    };
    let text = trace_table(alloc, &trace_files.net, &trace_files.report, window, only)?;
    Ok(Reply {
        status: Status::Done,
        text,
    })
}

/// The lists of a report with the names of a netlist.
pub fn tell_lists(alloc: Global, trace_files: &TraceFiles, only: &[&str]) -> Result<Reply, NoMemory>
    ensures { IfOk result (λ answer. finishes (to_lists (map (λ s. s.now) only.now) (trace_files_in trace_files.now)) answer.status answer.text.items) }
{
    let text = lists_text(alloc, &trace_files.net, &trace_files.report, only)?;
    Ok(Reply {
        status: Status::Done,
        text,
    })
}

/// The text of the waveform of a report's trace, with these comments and recorded moments.
fn drawn(
    alloc: Global,
    trace_files: &TraceFiles,
    from: u64,
    all: bool,
    only: &[&str],
    remarks: &[u8],
    moments: &[Option<(u32, u32)>],
) -> Result<Vec<u8>, NoMemory>
    ensures { IfOk result (λ text. IsDrawing trace_files.now.net.raw (drawing_of from all (map (λ s. s.now) only.now) remarks.now moments.now) trace_files.now.report.states trace_files.now.report.inputs text.items) }
{
    let asked = ViewRequest {
        from,
        all,
        only,
        remarks,
        recorded: moments,
    };
    let text = drawing(
        alloc,
        &trace_files.net,
        &trace_files.report.states,
        &trace_files.report.inputs,
        &asked,
    )?;
    Ok(text)
}

/// The waveform of a report's trace from a cycle on, with where its states come from as comments, and the run and the cycle of each.
pub fn tell_wave(
    alloc: Global,
    trace_files: &TraceFiles,
    from: u64,
    all: bool,
    only: &[&str],
) -> Result<Reply, NoMemory>
    ensures { IfOk result (λ answer. finishes (to_wave from all (map (λ s. s.now) only.now) (trace_files_in trace_files.now)) answer.status answer.text.items) }
{
    let remarks = remarks_text(alloc, &trace_files.report)?;
    let moments = recorded_moments(alloc, &trace_files.report)?;
    let text = drawn(
        alloc,
        trace_files,
        from,
        all,
        only,
        remarks.as_slice(),
        moments.as_slice(),
    )?;
    Ok(Reply {
        status: Status::Done,
        text,
    })
}

/// What a viewer is to show of the waveform with a name, which is drawn so.
pub fn tell_save(
    alloc: Global,
    trace_files: &TraceFiles,
    wave: &str,
    from: u64,
    all: bool,
    only: &[&str],
) -> Result<Reply, NoMemory>
    ensures { IfOk result (λ answer. finishes (to_save wave.now from all (map (λ s. s.now) only.now) (trace_files_in trace_files.now)) answer.status answer.text.items) }
{
    let asked = ViewRequest {
        from,
        all,
        only,
        remarks: b"",
        recorded: &[],
    };
    let states = trace_files.report.states.len();
    let text = save_file(alloc, &trace_files.net, wave, &asked, states)?;
    Ok(Reply {
        status: Status::Done,
        text,
    })
}

/// The line of a flaw, as a reply.
fn tell_flaw(alloc: Global, flaw: Flaw) -> Result<Reply, NoMemory>
    ensures status { IfOk result (λ answer. answer.status ≡ Status.Rejected) }
    ensures text { IfOk result (λ answer. answer.text.items ≡ flaw_text flaw) }
{
    let text = flaw_text(alloc, flaw)?;
    Ok(Reply {
        status: Status::Rejected,
        text,
    })
}

/// Evidence, as a reply.
fn tell_found(alloc: Global, evidence: Evidence) -> Result<Reply, NoMemory>
    ensures status { IfOk result (λ answer. answer.status ≡ evidence_status evidence) }
    ensures text { IfOk result (λ answer. answer.text.items ≡ evidence_text evidence) }
{
    match evidence {
        Evidence::Text(text) => Ok(Reply {
            status: Status::Done,
            text,
        }),
        Evidence::Flawed(flaw) => tell_flaw(alloc, flaw),
    }
}

/// The evidence for the list of a step, or for all lists.
fn find_evidence(
    alloc: Global,
    kind: Format,
    report_files: &ReportFiles,
    step: Option<u64>,
) -> Result<Evidence, NoMemory>
    ensures { IfOk result (IsEvidence kind (circuit_of (report_files_in report_files.now).raw) (report_files_in report_files.now).choice (report_files_in report_files.now).report step) }
{
    match step {
        Some(step) => evidence_of(
            alloc,
            kind,
            &report_files.net,
            &report_files.choice,
            &report_files.report,
            step,
        ),
        None => evidence_for(
            alloc,
            kind,
            &report_files.net,
            &report_files.choice,
            &report_files.report,
        ),
    }
}

/// The evidence for the list of a step, or for all lists, or why there is none.
pub fn tell_evidence(
    alloc: Global,
    kind: Format,
    report_files: &ReportFiles,
    step: Option<u64>,
) -> Result<Reply, NoMemory>
    ensures { IfOk result (λ answer. finishes (to_evidence kind step (report_files_in report_files.now)) answer.status answer.text.items) }
{
    let found = find_evidence(alloc, kind, report_files, step)?;
    let reply = tell_found(alloc, found)?;
    Ok(reply)
}

/// The evidence for a length of an answer to a search, or for all that it refutes.
#[tactic(auto, using(crate::proofs::ReportLemmas::room_asked))]
fn find_lengths(
    alloc: Global,
    kind: Format,
    target: &Target,
    answer: &Reach,
    asked: Option<u64>,
) -> Result<Evidence, NoMemory>
    requires text { HasAnswerText answer.now }
    requires cycles { target.now.cycles ≡ answer.now.asked }
    ensures { IfOk result (IsLengthEvidence kind (circuit_of target.now.net.raw) target.now.state answer.now asked) }
{
    let found = length_evidence(alloc, kind, &target.net, &target.state, answer, asked)?;
    Ok(found)
}

/// The evidence for a length of an answer, or for all that it refutes, or why there is none.
pub fn tell_lengths(
    alloc: Global,
    kind: Format,
    answer_files: &AnswerFiles,
    asked: Option<u64>,
) -> Result<Reply, NoMemory>
    requires { HasAnswerText answer_files.now.answer }
    ensures { IfOk result (λ answer. finishes (to_lengths kind asked (answer_files_in answer_files.now)) answer.status answer.text.items) }
{
    let found = find_lengths(
        alloc,
        kind,
        &answer_files.target,
        &answer_files.answer,
        asked,
    )?;
    let reply = tell_found(alloc, found)?;
    Ok(reply)
}

/// A signature under this name, where it was read.
fn named_file<'a>(name: &'a str, choice: &'a Option<Choice>) -> Option<SignatureFile<'a>>
    ensures { option_map file_in result ≡ signature_file (Some name.now) choice.now }
{
    match choice {
        Some(choice) => Some(SignatureFile { name, choice }),
        None => None,
    }
}

/// A signature, where a file of one is asked for.
fn signature_file<'a>(
    name: Option<&'a str>,
    choice: &'a Option<Choice>,
) -> Option<SignatureFile<'a>>
    ensures { option_map file_in result ≡ signature_file (option_map (λ s. s.now) name.entry) choice.now }
{
    match name {
        Some(name) => named_file(name, choice),
        None => None,
    }
}

/// A report as a page.
pub fn tell_page(
    alloc: Global,
    page_files: &PageFiles,
    netlist: &str,
    report: &str,
    signature: Option<&str>,
    only: &[&str],
    most: u64,
) -> Result<Reply, NoMemory>
    ensures { IfOk result (λ answer. finishes (to_page (page_for netlist.now report.now (option_map (λ s. s.now) signature.entry) (page_files_in page_files.now).choice (map (λ s. s.now) only.now) most) (page_files_in page_files.now).trace_files) answer.status answer.text.items) }
{
    let asked = PageOptions {
        netlist,
        report,
        signature: signature_file(signature, &page_files.choice),
        only,
        most,
    };
    let trace_files = &page_files.trace_files;
    let text = page_text(alloc, &trace_files.net, &trace_files.report, &asked)?;
    Ok(Reply {
        status: Status::Done,
        text,
    })
}

/// The line on a bench that there is not, as a reply.
fn tell_no_bench(alloc: Global, fault: BenchFault) -> Result<Reply, NoMemory>
    ensures status { IfOk result (λ answer. answer.status ≡ Status.Rejected) }
    ensures text { IfOk result (λ answer. answer.text.items ≡ bench_fault_text fault) }
{
    let text = bench_fault_text(alloc, fault)?;
    Ok(Reply {
        status: Status::Rejected,
        text,
    })
}

/// A test bench, as a reply.
fn tell_answer(alloc: Global, bench: Bench) -> Result<Reply, NoMemory>
    ensures status { IfOk result (λ answer. answer.status ≡ bench_status bench) }
    ensures text { IfOk result (λ answer. answer.text.items ≡ text_of_bench bench) }
{
    match bench {
        Bench::Text(text) => Ok(Reply {
            status: Status::Done,
            text,
        }),
        Bench::Refused(fault) => tell_no_bench(alloc, fault),
    }
}

/// The test bench of a module.
fn bench_for(
    alloc: Global,
    run_files: &RunFiles,
    report: &Report,
    top: &str,
) -> Result<Bench, NoMemory>
    requires more { length report.now.states ≡ length report.now.inputs + 1 }
    requires inputs { All (λ x. length x ≡ length (circuit run_files.now.net).inputs) report.now.inputs }
    ensures { IfOk result (BenchAnswers run_files.now.net.raw (inputs_of run_files.now.runs) report.now top.now) }
{
    let bench = bench_of(
        alloc,
        &run_files.net,
        &run_files.runs,
        report,
        top.as_bytes(),
    )?;
    Ok(bench)
}

/// The test bench of a module, or why there is none.
#[tactic(auto, using(crate::proofs::ReportLemmas::bench_told))]
pub fn tell_bench(alloc: Global, bench_files: &BenchFiles, top: &str) -> Result<Reply, NoMemory>
    ensures { IfOk result (λ answer. finishes (to_bench top.now (bench_files_in bench_files.now)) answer.status answer.text.items) }
{
    let bench = bench_for(alloc, &bench_files.run_files, &bench_files.report, top)?;
    let reply = tell_answer(alloc, bench)?;
    Ok(reply)
}
