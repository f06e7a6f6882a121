//! Where other candidates of a list differ.
ghost use Rattle.std.specs.Prelude.{◌≡◌, ◌<◌, ◌+◌, ◌^◌, ◌++◌, ◌∷◌, [], length, IfOk, OnOk, option_map};
ghost use Rattle.bs_inspect_page.specs.Opens.{open_of, opens_of, step_of};

use bs_bits::{Bits, List, NoMemory};
use bs_inspect_report::{differing_bits, member};
use bs_report::{Report, Step};
use std::alloc::Global;

/// For each flip-flop, whether candidates of a step's list differ at it.
fn open_of(alloc: Global, step: Option<&Step>) -> Result<Bits, NoMemory>
    ensures { IfOk result (λ bits. bits ≡ open_of (option_map (λ s. s.now) step.entry)) }
{
    match step {
        Some(step) => differing_bits(alloc, step.cands.slice()),
        None => Ok(Bits::new(alloc)),
    }
}

/// The step whose list has a state of the trace.
pub(crate) fn step_of(report: &Report, i: usize) -> Option<&Step>
    requires there { i < length report.now.states }
    requires small { i + 1 < 2 ^ 64 }
    ensures { option_map (λ s. s.now) result ≡ step_of report.now i }
{
    if i + 1 == report.states.len() {
        return None;
    }
    member(&report.steps, report.states.len() - 2 - i)
}

/// Puts the flip-flops that are open in a state of the trace at the end.
fn push_open(
    alloc: Global,
    opens: &mut List<Bits>,
    report: &Report,
    i: usize,
) -> Result<(), NoMemory>
    requires there { i < length report.now.states }
    requires small { i + 1 < 2 ^ 64 }
    ensures { OnOk result (opens.new ≡ opens.old ++ open_of (step_of report.now i) ∷ []) }
{
    let bits = open_of(alloc, step_of(report, i))?;
    opens.push(bits)?;
    Ok(())
}

/// The flip-flops that are open in each state of the trace.
#[tactic(auto, using(crate::proofs::OpenLemmas::opens_more))]
pub(crate) fn opens_of(alloc: Global, report: &Report) -> Result<List<Bits>, NoMemory>
    ensures { IfOk result (λ opens. opens ≡ opens_of report.now) }
{
    let mut opens = List::new(alloc);
    'states: for i in 0..report.states.len() {
        push_open(alloc, &mut opens, report, i)?;
    }
    Ok(opens)
}
