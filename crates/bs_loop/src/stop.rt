//! The cause for which a backtrace stops.
ghost use Rattle.std.specs.Prelude.{◌≡◌};
ghost use Rattle.bs_report.specs.Valid.{cause_of_end};

use bs_report::{ListEnd, Step, Stop};

/// The cause after a step without a hit.
pub fn cause_after(step: &Step) -> Stop
    ensures { result ≡ cause_of_end step.now step.now.end }
{
    match step.end {
        ListEnd::Finished(_) => {
            if step.cands.len() == 0 {
                Stop::Empty
            } else {
                Stop::Nohit
            }
        }
        ListEnd::Candidates => Stop::Candidates,
        ListEnd::Conflicts => Stop::Conflicts,
    }
}
