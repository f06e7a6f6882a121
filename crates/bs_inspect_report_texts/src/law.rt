//! Which reports have a test bench.
ghost use Rattle.bs_inspect_report_texts.specs.Law.{GoodReportsHaveBenches};

use bs_report::a_trace_ends_an_execution;

/// A good report with a trace of one step or more has a test bench.
#[tactic(auto, using(crate::proofs::LawLemmas::benches_are_had))]
pub fn good_reports_have_benches()
    ensures { GoodReportsHaveBenches }
{
    a_trace_ends_an_execution();
}
