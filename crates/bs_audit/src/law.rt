//! The law of audits.
ghost use Rattle.std.specs.Prelude.{◌≡◌, length};
ghost use Rattle.bs_net.specs.Netlist.{circuit};
ghost use Rattle.bs_scan.specs.Crash.{recording_of};
ghost use Rattle.bs_audit.specs.Finding.{ValidReportsAreGood};

use bs_encode::predecessors_are_shown;
use bs_net::Netlist;
use bs_scan::Choice;
use bs_stim::Runs;

/// A valid report is good: its log is checked against clauses that are those of the netlist.
pub fn valid_reports_are_good(net: &Netlist, choice: &Choice, runs: &Runs)
    requires choice { choice.now.width ≡ length (circuit net.now).flops }
    requires runs { runs.now.width ≡ length (circuit net.now).inputs }
    ensures { ValidReportsAreGood (recording_of net.now.raw choice.now runs.now) }
{
    predecessors_are_shown(net, choice);
    let _raw = net.raw();
    let _depth = choice.depth();
    let _count = runs.count();
}
