//! The cause of a report's stop.
ghost use Rattle.std.specs.Prelude.{◌≡◌, ◌&&◌, nat_le, length, None, option_map};
ghost use Rattle.std.specs.List.{last_or};
ghost use Rattle.bs_report.specs.Valid.{cause_after, cause_at, cause_of_end, is_cause};
ghost use Rattle.bs_scan.specs.Dump.{signatures_of};
ghost use Rattle.bs_scan.specs.Present.{present_in};

use bs_report::{Budgets, ListEnd, Report, Step, Stop};
use bs_scan::Dump;

/// The cause at a dump or a hit, after so many steps.
fn cause_at(budgets: &Budgets, count: usize, dump: &Dump) -> Option<Stop>
    ensures { result ≡ cause_at budgets.now count (signatures_of dump.now) }
{
    if dump.stored.is_none() && dump.older.is_none() {
        return Some(Stop::Reset);
    }
    if count as u64 == budgets.steps {
        Some(Stop::Length)
    } else {
        None
    }
}

/// The cause after a step without a hit.
fn cause_of_end(step: &Step) -> Stop
    ensures { result ≡ cause_of_end step.now step.now.end }
{
    match step.end {
        ListEnd::Finished(_) => if step.cands.len() == 0 {
            Stop::Empty
        } else {
            Stop::Nohit
        },
        ListEnd::Candidates => Stop::Candidates,
        ListEnd::Conflicts => Stop::Conflicts,
    }
}

/// The cause after the last step, which has no hit.
fn last_cause(steps: &[Step]) -> Option<Stop>
    ensures { result ≡ option_map (λ step. cause_of_end step step.end) (last_or None steps.now) }
{
    match steps.last() {
        None => None,
        Some(step) => Some(cause_of_end(step)),
    }
}

/// The cause after all steps, where the next one is due to begin at a dump if at all.
fn cause(report: &Report, due: &Option<Dump>) -> Option<Stop>
    ensures { result ≡ cause_after report.now.budgets report.now.steps (option_map present_in due.now) }
{
    match due {
        Some(dump) => cause_at(&report.budgets, report.steps.len(), dump),
        None => last_cause(report.steps.slice()),
    }
}

/// Whether a cause is the one that stands.
fn is_cause(stop: Stop, cause: Option<Stop>) -> bool
    ensures { result ≡ is_cause stop cause }
{
    match cause {
        None => false,
        Some(cause) => stop == cause,
    }
}

/// Whether there are not too many steps, and the cause is the one that stands after them.
pub fn is_right_stop(report: &Report, due: &Option<Dump>) -> bool
    ensures { result ≡ (nat_le (length report.now.steps) report.now.budgets.steps && is_cause report.now.stop (cause_after report.now.budgets report.now.steps (option_map present_in due.now))) }
{
    let few = report.steps.len() as u64 <= report.budgets.steps;
    few && is_cause(report.stop, cause(report, due))
}
