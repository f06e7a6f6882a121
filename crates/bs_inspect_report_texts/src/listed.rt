//! Whether the candidates of a report's first step lead to its present state.
ghost use Rattle.std.specs.Prelude.{◌≡◌, ◌<◌, ◌+◌, ◌^◌, not, length, option_map, IfOk};
ghost use Rattle.std.specs.List.{position};
ghost use Rattle.bs_net.specs.Circuit.{next};
ghost use Rattle.bs_net.specs.Netlist.{circuit};
ghost use Rattle.bs_scan.specs.Seen.{is_shown};
ghost use Rattle.bs_inspect_report_texts.specs.Fits.{leads_into, stray_in, stray_of};

use bs_bits::{List, NoMemory};
use bs_net::Netlist;
use bs_report::{Cand, Report, Step};
use bs_scan::Seen;
use bs_sim::Event;
use std::alloc::Global;

/// Whether a candidate leads under its input to a state that shows what is known of the present one.
fn shows_next(
    alloc: Global,
    sim: &mut Event<'_>,
    present: &Seen,
    cand: &Cand,
) -> Result<bool, NoMemory>
    requires state { length cand.now.state ≡ length (circuit sim.old.net).flops }
    requires input { length cand.now.input ≡ length (circuit sim.old.net).inputs }
    ensures net { sim.new.net ≡ sim.old.net }
    ensures shown { IfOk result (λ shown. shown ≡ is_shown present.now (next (circuit sim.old.net) cand.now.state cand.now.input)) }
{
    sim.load(&cand.state);
    sim.step(&cand.input);
    present.is_shown(alloc, sim.state())
}

/// Whether a candidate has a netlist's widths, and leads under its input to a state that shows what is known of the present one.
fn leads_into(
    alloc: Global,
    net: &Netlist,
    sim: &mut Event<'_>,
    present: &Seen,
    cand: &Cand,
) -> Result<bool, NoMemory>
    requires same { sim.old.net ≡ net.now }
    ensures net { sim.new.net ≡ net.now }
    ensures leads { IfOk result (λ leads. leads ≡ leads_into (circuit net.now) present.now cand.now) }
{
    if cand.state.len() != net.width() {
        return Ok(false);
    }
    if cand.input.len() != net.data_inputs().len() {
        return Ok(false);
    }
    shows_next(alloc, sim, present, cand)
}

/// The first candidate that does not, by its number from 1.
#[tactic(auto, using(crate::proofs::ListedLemmas::lead_none, crate::proofs::ListedLemmas::lead_more))]
fn stray_among(
    alloc: Global,
    net: &Netlist,
    sim: &mut Event<'_>,
    present: &Seen,
    cands: &List<Cand>,
) -> Result<Option<usize>, NoMemory>
    requires same { sim.old.net ≡ net.now }
    ensures { IfOk result (λ stray. stray ≡ option_map (λ i. i + 1) (position (λ cand. not (leads_into (circuit net.now) present.now cand)) cands.now)) }
{
    'cands: for i in 0..cands.len() {
        if !leads_into(alloc, net, sim, present, cands.get(i))? {
            return Ok(Some(i + 1));
        }
    }
    Ok(None)
}

/// The first candidate of a step that does not lead to its present state.
fn stray_in(alloc: Global, net: &Netlist, step: &Step) -> Result<Option<usize>, NoMemory>
    ensures { IfOk result (λ stray. stray ≡ stray_in (circuit net.now) step.now) }
{
    let mut sim = Event::new(alloc, net)?;
    let found = stray_among(alloc, net, &mut sim, &step.present, &step.cands);
    drop(sim);
    let stray = found?;
    Ok(stray)
}

/// The same of the first step of a report, where its trace is one state alone. It takes one pass over the gates for each candidate.
#[tactic(auto, using(crate::proofs::ListedLemmas::longer, crate::proofs::ListedLemmas::no_step, crate::proofs::ListedLemmas::first_step))]
pub(crate) fn stray_of(
    alloc: Global,
    net: &Netlist,
    report: &Report,
) -> Result<Option<usize>, NoMemory>
    ensures { IfOk result (λ stray. stray ≡ stray_of (circuit net.now) report.now) }
{
    if report.inputs.len() != 0 {
        return Ok(None);
    }
    if report.steps.len() == 0 {
        return Ok(None);
    }
    let stray = stray_in(alloc, net, report.steps.get(0))?;
    Ok(stray)
}
