//! The candidates of a step, tried by simulation and replay.
ghost use Rattle.std.specs.Prelude.{◌≡◌, ◌<◌, ◌+◌, ◌-◌, ◌^◌, ◌==◌, ◌||◌, length, option_map, All, IfOk, Some};
ghost use Rattle.std.specs.Ordering.{bool_cmp, is_lt};
ghost use Rattle.std.specs.Cmp.Lexicographic.{slice_cmp};
ghost use Rattle.bs_bits.specs.Bits.{bits_eq};
ghost use Rattle.bs_scan.specs.Seen.{is_shown};
ghost use Rattle.bs_net.specs.Circuit.{next, reset_state};
ghost use Rattle.bs_net.specs.Netlist.{circuit};
ghost use Rattle.bs_scan.specs.Choice.{depth_of};
ghost use Rattle.bs_scan.specs.Signature.{signature};
ghost use Rattle.bs_scan.specs.Present.{present_in};
ghost use Rattle.bs_report.specs.Chain.{present_of_hit};
ghost use Rattle.bs_report.specs.Step.{listed, hit_of};
ghost use Rattle.bs_report.specs.Valid.{cand_at, first_of_all, is_right_before, is_right_cand};
ghost use Rattle.bs_audit.specs.Following.{cand_parts, line_of};

use crate::replay::Replay;
use bs_bits::{Bits, NoMemory};
use bs_chip::Hit;
use bs_report::{Before, Budgets, Cand, Part, Step};
use bs_scan::{Choice, Seen};
use bs_sim::Sim;
use std::alloc::Global;
use std::cmp::Ordering;

/// Whether a candidate is greater than the one before it.
fn is_greater(step: &Step, j: usize) -> bool
    requires { j < length step.now.cands }
    ensures { result ≡ ((j == 0) || is_lt (slice_cmp bool_cmp (cand_at step.now (j - 1)).state (cand_at step.now j).state)) }
{
    if j == 0 {
        return true;
    }
    let before = step.cands.get(j - 1);
    let order = before.state.order(&step.cands.get(j).state);
    order == Ordering::Less
}

/// Whether a state has this signature.
fn has_signature(
    alloc: Global,
    choice: &Choice,
    state: &Bits,
    stored: &Bits,
) -> Result<bool, NoMemory>
    requires { length state.now ≡ choice.now.width }
    ensures { IfOk result (λ same. same ≡ bits_eq (signature choice.now state.now) stored.now) }
{
    let signature = choice.of(alloc, state)?;
    Ok(signature.equals(stored))
}

/// Whether a state leads to another under an input.
fn leads_to(sim: &mut Sim<'_>, state: &Bits, input: &Bits, target: &Bits) -> bool
    requires state { length state.now ≡ length (circuit sim.old.net).flops }
    requires input { length input.now ≡ length (circuit sim.old.net).inputs }
    ensures net { sim.new.net ≡ sim.old.net }
    ensures leads { result ≡ bits_eq (next (circuit sim.old.net) state.now input.now) target.now }
{
    sim.load(state);
    sim.step(input);
    sim.state().equals(target)
}

/// Whether a state leads under an input to one that shows this.
fn leads_into(
    alloc: Global,
    sim: &mut Sim<'_>,
    state: &Bits,
    input: &Bits,
    present: &Seen,
) -> Result<bool, NoMemory>
    requires state { length state.now ≡ length (circuit sim.old.net).flops }
    requires input { length input.now ≡ length (circuit sim.old.net).inputs }
    ensures net { sim.new.net ≡ sim.old.net }
    ensures leads { IfOk result (λ leads. leads ≡ is_shown present.now (next (circuit sim.old.net) state.now input.now)) }
{
    sim.load(state);
    sim.step(input);
    present.is_shown(alloc, sim.state())
}

/// The number of a place, counted from 1.
pub(crate) fn number(i: usize) -> u64
    requires { i + 1 < 2 ^ 64 }
    ensures { result ≡ i + 1 }
{
    i as u64 + 1
}

impl<'a> Replay<'a> {
    /// Whether a state may stand where the register holds one signature: at depth 1 any, and else the reset state.
    fn may_begin(&self, state: &Bits) -> bool
        ensures { result ≡ ((depth_of self.now.choice == 1) || bits_eq state.now (reset_state self.now.circuit)) }
    {
        if self.choice.depth() == 1 {
            return true;
        }
        state.equals(self.net.reset())
    }

    /// Whether a state with the older signature is named before a candidate's, to which it leads.
    fn has_source(
        &mut self,
        alloc: Global,
        older: &Bits,
        state: &Bits,
        before: &Before,
    ) -> Result<bool, NoMemory>
        ensures right { IfOk result (λ right. right ≡ is_right_before self.old.circuit self.old.choice (Some older.now) state.now (Some before.now)) }
        ensures kept { self.new ≡ self.old }
    {
        if before.state.len() != self.net.width() {
            return Ok(false);
        }
        if before.input.len() != self.net.data_inputs().len() {
            return Ok(false);
        }
        if !has_signature(alloc, self.choice, &before.state, older)? {
            return Ok(false);
        }
        Ok(leads_to(&mut self.sim, &before.state, &before.input, state))
    }

    /// Whether the state before a candidate's is right.
    fn has_before(
        &mut self,
        alloc: Global,
        older: &Option<Bits>,
        state: &Bits,
        before: &Option<Before>,
    ) -> Result<bool, NoMemory>
        ensures right { IfOk result (λ right. right ≡ is_right_before self.old.circuit self.old.choice older.now state.now before.now) }
        ensures kept { self.new ≡ self.old }
    {
        match older {
            None => match before {
                None => Ok(self.may_begin(state)),
                Some(_) => Ok(false),
            },
            Some(older) => match before {
                None => Ok(false),
                Some(before) => self.has_source(alloc, older, state, before),
            },
        }
    }

    /// Whether a candidate, counted from 0, is right.
    fn is_right_candidate(
        &mut self,
        alloc: Global,
        budgets: &Budgets,
        step: &Step,
        j: usize,
    ) -> Result<bool, NoMemory>
        requires { j < length step.now.cands }
        ensures right { IfOk result (λ right. right ≡ is_right_cand self.old budgets.now step.now j) }
        ensures kept { self.new ≡ self.old }
    {
        let cand = step.cands.get(j);
        if !is_greater(step, j) {
            return Ok(false);
        }
        if cand.state.len() != self.net.width() {
            return Ok(false);
        }
        if cand.input.len() != self.net.data_inputs().len() {
            return Ok(false);
        }
        if !has_signature(alloc, self.choice, &cand.state, &step.stored)? {
            return Ok(false);
        }
        let leads = leads_into(
            alloc,
            &mut self.sim,
            &cand.state,
            &cand.input,
            &step.present,
        )?;
        if !(leads && (j as u64) < budgets.candidates) {
            return Ok(false);
        }
        self.has_before(alloc, &step.older, &cand.state, &cand.before)
    }

    /// The first candidate that is not right.
    pub fn wrong_candidate(
        &mut self,
        alloc: Global,
        budgets: &Budgets,
        i: usize,
        step: &Step,
    ) -> Result<Option<Part>, NoMemory>
        requires { i + 1 < 2 ^ 64 }
        ensures part { IfOk result (λ part. part ≡ first_of_all (cand_parts self.old budgets.now i step.now 0 (length step.now.cands))) }
        ensures kept { self.new ≡ self.old }
    {
        'cands: for j in 0..step.cands.len() {
            if !self.is_right_candidate(alloc, budgets, step, j)? {
                return Ok(Some(Part::Candidate(number(i), number(j))));
            }
        }
        Ok(None)
    }

    /// The first moment at which a run is in a listed state.
    pub fn hit(&mut self, alloc: Global, cands: &[Cand]) -> Result<Option<Hit>, NoMemory>
        requires { All (λ state. length state ≡ length self.old.circuit.flops) (listed cands.now) }
        ensures first { IfOk result (λ hit. hit_of self.old cands.now ≡ option_map line_of hit) }
        ensures dump { IfOk result (λ hit. option_map (present_of_hit self.old) (hit_of self.old cands.now) ≡ option_map (λ hit. present_in hit.dump) hit) }
        ensures kept { self.new ≡ self.old }
    {
        let _depth = self.choice.depth();
        self.chip.first(alloc, cands)
    }
}
