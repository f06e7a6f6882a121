//! The moments at which the states of a trace were recorded.
ghost use Rattle.std.specs.Prelude.{◌≡◌, ◌<◌, ◌+◌, ◌^◌, length, option_map, IfOk};
ghost use Rattle.bs_inspect_report.specs.Recorded.{moment_of, recorded_at, recorded_moments, step_moment};

use crate::execution::is_execution;
use crate::moment::member;
use bs_bits::NoMemory;
use bs_report::{HitLine, Report, Step};
use std::alloc::Global;

/// The run and the cycle of a hit.
fn moment_of(hit: &Option<HitLine>) -> Option<(u32, u32)>
    ensures { result ≡ moment_of hit.now }
{
    match hit {
        Some(hit) => Some((hit.run, hit.cycle)),
        None => None,
    }
}

/// Those of the hit of a step.
pub(crate) fn step_moment(step: Option<&Step>) -> Option<(u32, u32)>
    ensures { result ≡ step_moment (option_map (λ s. s.now) step.entry) }
{
    match step {
        Some(step) => moment_of(&step.hit),
        None => None,
    }
}

/// The run and the cycle of a state of the trace, where it was recorded.
fn recorded_at(report: &Report, i: usize) -> Option<(u32, u32)>
    requires there { i < length report.now.states }
    requires small { i + 1 < 2 ^ 64 }
    ensures { result ≡ recorded_at report.now i }
{
    if is_execution(report) || i + 1 == report.states.len() {
        return None;
    }
    step_moment(member(&report.steps, report.states.len() - 2 - i))
}

/// For each state of a report's trace the run and the cycle, where it was recorded.
#[tactic(auto, using(crate::proofs::PieceLemmas::recorded_more))]
pub fn recorded_moments(alloc: Global, report: &Report) -> Result<Vec<Option<(u32, u32)>>, NoMemory>
    ensures { IfOk result (λ moments. moments.items ≡ recorded_moments report.now) }
{
    let mut moments = Vec::new(alloc);
    'states: for i in 0..report.states.len() {
        moments.push(recorded_at(report, i))?;
    }
    Ok(moments)
}
