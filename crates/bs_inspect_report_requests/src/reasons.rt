//! What forces the bits of a name in the trace of a report, as a reply.
ghost use Rattle.std.specs.Prelude.{◌≡◌, IfOk, ◌≤◌};
ghost use Rattle.bs_inspect_words.specs.Asked.{why_in};
ghost use Rattle.bs_inspect_plans.specs.Finishes.{finishes, TellsReasons, why_status, why_text as text_of_why};
ghost use Rattle.bs_inspect_files.specs.Taken.{trace_files_in};
ghost use Rattle.bs_inspect_plans.specs.Asked.{question_of};
ghost use Rattle.bs_inspect_plans.specs.Work.{to_why};
ghost use Rattle.bs_inspect_why.specs.Denials.{denial_text};
ghost use Rattle.bs_inspect_why.specs.Question.{question_in};
ghost use Rattle.bs_inspect_why.specs.Why.{Answers};

use bs_inspect_files::TraceFiles;
use bs_inspect_why::{Denial, Question, WhyAnswer, denial_text, why_text};
use bs_inspect_words::WhyRequest;
use bs_outside::{NoMemory, Reply, Status};
use std::alloc::Global;

/// What is asked of a trace.
#[tactic(auto, using(crate::proofs::ReportLemmas::question_is))]
fn question_of<'a>(asked: &WhyRequest<'a>) -> Question<'a>
    ensures is { question_in result ≡ question_of (why_in asked.now) }
    ensures some { 1 ≤ result.depth }
{
    Question {
        name: asked.name,
        at: asked.at,
        depth: asked.depth as u32,
        flops: asked.flops,
        all: asked.all,
        csv: asked.csv,
    }
}

/// The line of a denial, as a reply.
fn tell_denial(alloc: Global, denial: Denial) -> Result<Reply, NoMemory>
    ensures status { IfOk result (λ answer. answer.status ≡ Status.Rejected) }
    ensures text { IfOk result (λ answer. answer.text.items ≡ denial_text denial) }
{
    let text = denial_text(alloc, denial)?;
    Ok(Reply {
        status: Status::Rejected,
        text,
    })
}

/// What forces bits, as a reply.
fn tell_reasons(alloc: Global, why: WhyAnswer) -> Result<Reply, NoMemory>
    ensures status { IfOk result (λ answer. answer.status ≡ why_status why) }
    ensures text { IfOk result (λ answer. answer.text.items ≡ text_of_why why) }
{
    match why {
        WhyAnswer::Text(text) => Ok(Reply {
            status: Status::Done,
            text,
        }),
        WhyAnswer::Denied(denial) => tell_denial(alloc, denial),
    }
}

/// What forces the bits of a name in the trace of a report.
#[tactic(auto, using(crate::proofs::ReportLemmas::leads_on))]
fn reasons_of(
    alloc: Global,
    trace_files: &TraceFiles,
    question: &Question<'_>,
) -> Result<WhyAnswer, NoMemory>
    requires { 1 ≤ question.now.depth }
    ensures { IfOk result (Answers trace_files.now.net.raw trace_files.now.report (question_in question.now)) }
{
    let why = why_text(alloc, &trace_files.net, &trace_files.report, question)?;
    Ok(why)
}

/// What forces the bits of a name in the trace of a report, or why it is not told.
#[tactic(auto, using(crate::proofs::ReportLemmas::reasons_told))]
fn tell_question(
    alloc: Global,
    trace_files: &TraceFiles,
    question: &Question<'_>,
) -> Result<Reply, NoMemory>
    requires { 1 ≤ question.now.depth }
    ensures { IfOk result (λ answer. TellsReasons (question_in question.now) (trace_files_in trace_files.now) answer.status answer.text.items) }
{
    let why = reasons_of(alloc, trace_files, question)?;
    let reply = tell_reasons(alloc, why)?;
    Ok(reply)
}

/// What forces the bits of the name that is asked for, or why it is not told.
#[tactic(auto, using(crate::proofs::ReportLemmas::question_told))]
pub fn tell_why(
    alloc: Global,
    trace_files: &TraceFiles,
    asked: &WhyRequest<'_>,
) -> Result<Reply, NoMemory>
    ensures { IfOk result (λ answer. finishes (to_why (question_of (why_in asked.now)) (trace_files_in trace_files.now)) answer.status answer.text.items) }
{
    let question = question_of(asked);
    let reply = tell_question(alloc, trace_files, &question)?;
    Ok(reply)
}
