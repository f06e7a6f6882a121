//! The moment at which a report's trace begins.
ghost use Rattle.std.specs.Prelude.{◌≡◌, ◌↔◌, IsTrue, option_map};
ghost use Rattle.std.specs.Option.{option_or};
ghost use Rattle.bs_stim.specs.Runs.{inputs_of};
ghost use Rattle.bs_scan.specs.Moments.{IsMoment, moment};
ghost use Rattle.bs_inspect_report_texts.specs.Driven.{IsThere, begin_of, cycles_before};

use bs_report::{HitLine, Report};
use bs_scan::Moment;
use bs_stim::Runs;

/// The moment of a hit, or this one where there is none.
fn moment_or(hit: &Option<HitLine>, before: Option<Moment>) -> Option<Moment>
    ensures { result ≡ option_or (option_map (λ hit. moment hit.run hit.cycle) hit.now) before }
{
    match hit {
        Some(hit) => Some(Moment {
            run: hit.run,
            cycle: hit.cycle,
        }),
        None => before,
    }
}

/// The moment of the last hit.
#[tactic(auto, using(crate::proofs::DriveLemmas::begin_none, crate::proofs::DriveLemmas::begin_more, crate::proofs::DriveLemmas::begin_all))]
pub(crate) fn begin_of(report: &Report) -> Option<Moment>
    ensures { result ≡ begin_of report.now }
{
    let mut found = None;
    'steps: for i in 0..report.steps.len() {
        found = moment_or(&report.steps.get(i).hit, found);
    }
    found
}

/// Whether the runs have a moment.
#[tactic(auto, using(crate::proofs::DriveLemmas::moment_early, crate::proofs::DriveLemmas::moment_late, crate::proofs::DriveLemmas::moment_there))]
fn has_moment(runs: &Runs, m: Moment) -> bool
    ensures { IsTrue result ↔ IsMoment (inputs_of runs.now) m }
{
    if m.run < 1 {
        return false;
    }
    if runs.count() < m.run {
        return false;
    }
    m.cycle <= runs.cycles(m.run)
}

/// Whether the runs have the moment at which a trace begins.
#[tactic(auto, using(crate::proofs::DriveLemmas::none_there))]
pub(crate) fn is_there(runs: &Runs, begin: Option<Moment>) -> bool
    ensures { IsTrue result ↔ IsThere (inputs_of runs.now) begin }
{
    match begin {
        Some(m) => has_moment(runs, m),
        None => true,
    }
}

/// How many cycles stand before the trace's first state.
pub(crate) fn cycles_before(begin: Option<Moment>) -> usize
    ensures { result ≡ cycles_before begin }
{
    match begin {
        Some(m) => m.cycle as usize,
        None => 0,
    }
}
