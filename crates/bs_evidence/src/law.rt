//! What the clauses of a list show, and those of all lists.
ghost use Rattle.std.specs.Prelude.{◌≡◌, length};
ghost use Rattle.bs_net.specs.Netlist.{circuit};
ghost use Rattle.bs_evidence.specs.Evidence.{AllUnlistedAreShown, ReportProofsAreRight, UnlistedAreShown};

use bs_encode::{encodings_are_tidy, predecessors_are_shown};
use bs_net::Netlist;
use bs_scan::Choice;

/// A predecessor that is not listed gives an assignment that meets the clauses of its step.
pub fn unlisted_states_are_shown(net: &Netlist, choice: &Choice)
    requires { choice.now.width ≡ length (circuit net.now).flops }
    ensures { UnlistedAreShown (circuit net.now) choice.now }
{
    predecessors_are_shown(net, choice);
}

/// A predecessor that is not listed in a finished step gives an assignment that meets the clauses of all finished lists.
pub fn all_unlisted_states_are_shown(net: &Netlist, choice: &Choice)
    requires { choice.now.width ≡ length (circuit net.now).flops }
    ensures { AllUnlistedAreShown (circuit net.now) choice.now }
{
    predecessors_are_shown(net, choice);
}

/// The proof of all finished lists of a report is right over their clauses, and nothing meets them.
pub fn report_proofs_are_right(net: &Netlist, choice: &Choice)
    requires { choice.now.width ≡ length (circuit net.now).flops }
    ensures { ReportProofsAreRight (circuit net.now) choice.now }
{
    encodings_are_tidy(net, choice);
}
