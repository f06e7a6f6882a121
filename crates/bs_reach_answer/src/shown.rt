//! The execution of an answer as a report.
ghost use Rattle.std.specs.Prelude.{◌≡◌, IfSome};
ghost use Rattle.bs_reach_answer.specs.ReadingLaw.{HasAnswerText};
ghost use Rattle.bs_reach_answer.specs.Shown.{HasTrace, execution_report, is_reached, report_in};

use bs_bits::{Bits, List};
use bs_log::Log;
use bs_reach::{Outcome, Reach};
use bs_report::{Budgets, Report, Stop};
use std::alloc::Global;

/// A report of no step with the states and inputs of an answer as its trace. Nothing is copied.
fn report_in(alloc: Global, answer: Reach) -> Report
    ensures { result ≡ report_in answer }
{
    let Reach {
        asked: _,
        conflicts,
        outcome: _,
        states,
        inputs,
        log,
    } = answer;
    drop(log);
    Report {
        depth: 1,
        budgets: Budgets {
            steps: 0,
            candidates: 0,
            conflicts,
        },
        steps: List::new(alloc),
        stop: Stop::Reset,
        states,
        inputs,
        free: Bits::new(alloc),
        log: Log::new(alloc),
    }
}

/// Whether the state is reached.
fn is_reached(outcome: Outcome) -> bool
    ensures { result ≡ is_reached outcome }
{
    match outcome {
        Outcome::Reached(_) => true,
        _ => false,
    }
}

/// The execution of an answer, where it has one, as a report that asked for no step: what shows the trace of a report shows it too.
/// Nothing is copied.
#[tactic(auto, using(crate::proofs::ShownAnswerLemmas::reached_shown, crate::proofs::ShownAnswerLemmas::unreached_shown, crate::proofs::ShownAnswerLemmas::shown_trace))]
pub fn execution_report(alloc: Global, answer: Reach) -> Option<Report>
    requires { HasAnswerText answer }
    ensures value { result ≡ execution_report answer }
    ensures trace { IfSome result HasTrace }
{
    if is_reached(answer.outcome) {
        let report = report_in(alloc, answer);
        Some(report)
    } else {
        drop(answer);
        None
    }
}
