//! The walks over the file of an answer, and over that of a report or an answer: it is fetched and read once.
ghost use Rattle.std.specs.Prelude.{◌≡◌, IfOk};
ghost use Rattle.bs_reach_answer.specs.ReadingLaw.{HasAnswerText};
ghost use Rattle.bs_reach_answer.specs.Shown.{HasTrace};
ghost use Rattle.bs_outside.specs.Telling.{WalksDiagnosed};
ghost use Rattle.bs_top_files.specs.Causes.{CheckSays, NoteSays};
ghost use Rattle.bs_reach_answer.specs.Entry.{answer_of, trace_of};

use crate::answer::answer_or_diagnostic;
use crate::trace::trace_or_diagnostic;
use bs_outside::{File, Shelf, WalkStop, fetch_file, settle_diagnostic};
use bs_reach::Reach;
use bs_report::Report;
use std::alloc::Global;

/// The answer of a search for a state.
pub fn load_answer<S: Shelf>(alloc: Global, shelf: &mut S, path: &str) -> Result<Reach, WalkStop>
    ensures walks { WalksDiagnosed CheckSays NoteSays S.held S.faults S.leads shelf.old shelf.new
        (answer_of path.now) (λ answer. answer) result }
    ensures text { IfOk result HasAnswerText }
{
    let bytes = fetch_file(alloc, shelf, File::Report, path)?;
    settle_diagnostic(File::Report, answer_or_diagnostic(alloc, path, &bytes))
}

/// The report of a backtrace, or the execution of an answer as one that asked for no step.
pub fn load_trace<S: Shelf>(alloc: Global, shelf: &mut S, path: &str) -> Result<Report, WalkStop>
    ensures walks { WalksDiagnosed CheckSays NoteSays S.held S.faults S.leads shelf.old shelf.new
        (trace_of path.now) (λ report. report) result }
    ensures more { IfOk result HasTrace }
{
    let bytes = fetch_file(alloc, shelf, File::Report, path)?;
    settle_diagnostic(File::Report, trace_or_diagnostic(alloc, path, &bytes))
}
