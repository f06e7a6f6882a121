//! The evidence that a state is not reached in a length, or in none of those that an answer refutes.
ghost use Rattle.std.specs.Prelude.{◌≡◌, ◌≤◌, ◌*◌, [], length, IfOk, IfSome};
ghost use Rattle.bs_net.specs.Circuit.{reset_state};
ghost use Rattle.bs_net.specs.Netlist.{circuit};
ghost use Rattle.bs_encode.specs.Encoded.{encoding_of};
ghost use Rattle.bs_encode.specs.Transition.{variables};
ghost use Rattle.bs_log.specs.Walk.{IsOneOf};
ghost use Rattle.bs_evidence.specs.Evidence.{IsLogEvidence};
ghost use Rattle.bs_reach_unrolled.specs.Room.{IsUnrollable};
ghost use Rattle.bs_reach_unrolled.specs.Unrolled.{unrolled, reach_problem};
ghost use Rattle.bs_reach_unrolled.specs.declared.limits.TheConstants.{MAX_FRAMES, MAX_FRAME_VARIABLES};
ghost use Rattle.bs_reach.specs.Reach.{tried_of};
ghost use Rattle.bs_reach_answer.specs.ReadingLaw.{HasAnswerText};
ghost use Rattle.bs_evidence.specs.Lengths.{problem_for, HasAsked, IsEvidence};

use crate::evidence::{Format, is_there};
use crate::flaw::{Evidence, Flaw};
use crate::lengths::assumptions;
use crate::logged::{Logged, log_evidence};
use bs_bits::{Bits, List, NoMemory};
use bs_clause::{Clauses, Lits};
use bs_encode::Encoding;
use bs_log::Log;
use bs_net::Netlist;
use bs_reach::{Outcome, Reach};
use bs_reach_unrolled::{netlists_unroll, unroll};
use bs_scan::Seen;
use std::alloc::Global;

/// How many lengths from 1 on were tried, where so many were asked for.
fn tried_of(asked: u64, outcome: Outcome) -> u64
    ensures { result ≡ tried_of asked outcome }
{
    match outcome {
        Outcome::Reached(length) => length,
        Outcome::Unreached => asked,
        Outcome::Unknown(length) => length,
    }
}

/// The evidence for what is asked for, over the clauses of all time frames.
fn clauses_evidence(
    alloc: Global,
    kind: Format,
    encoding: &Encoding,
    clauses: &Clauses,
    state: &Seen,
    log: &Log,
    _reset: &Bits,
    k: u32,
    count: u32,
    asked: Option<u64>,
) -> Result<Evidence, NoMemory>
    requires unrollable { IsUnrollable encoding.now k }
    requires clauses { clauses.now ≡ unrolled encoding.now _reset.now k }
    requires width { length encoding.now.next ≡ length state.now.bits }
    requires there { IfSome asked (IsOneOf count) }
    requires within { count ≤ k }
    ensures { IfOk result (IsLogEvidence kind (reach_problem encoding.now _reset.now k state.now count) log.now asked) }
{
    match assumptions(alloc, encoding, state, k, count) {
        Ok(steps) => {
            let logged = Logged {
                vars: k * encoding.vars(),
                clauses,
                steps: &steps,
                log,
            };
            let evidence = log_evidence(alloc, kind, &logged, asked);
            drop(steps);
            evidence
        }
        Err(want) => Err(want),
    }
}

/// The clauses of so many time frames, where there may be none.
fn all_clauses(
    alloc: Global,
    encoding: &Encoding,
    reset: &Bits,
    k: u32,
) -> Result<Clauses, NoMemory>
    requires unrollable { IsUnrollable encoding.now k }
    requires starts { length encoding.now.states ≡ length reset.now }
    ensures { IfOk result (λ all. all ≡ unrolled encoding.now reset.now k) }
{
    if k == 0 {
        return Ok(Clauses::new(alloc));
    }
    unroll(alloc, encoding, reset, k)
}

/// The same over the clauses of one cycle.
fn unrolled_evidence(
    alloc: Global,
    kind: Format,
    encoding: &Encoding,
    state: &Seen,
    log: &Log,
    reset: &Bits,
    k: u32,
    count: u32,
    asked: Option<u64>,
) -> Result<Evidence, NoMemory>
    requires unrollable { IsUnrollable encoding.now k }
    requires starts { length encoding.now.states ≡ length reset.now }
    requires width { length encoding.now.next ≡ length state.now.bits }
    requires there { IfSome asked (IsOneOf count) }
    requires within { count ≤ k }
    ensures { IfOk result (IsLogEvidence kind (reach_problem encoding.now reset.now k state.now count) log.now asked) }
{
    match all_clauses(alloc, encoding, reset, k) {
        Ok(clauses) => {
            let evidence = clauses_evidence(
                alloc, kind, encoding, &clauses, state, log, reset, k, count, asked,
            );
            drop(clauses);
            evidence
        }
        Err(want) => Err(want),
    }
}

/// The same by the encoding of the netlist.
fn encoded_evidence(
    alloc: Global,
    kind: Format,
    net: &Netlist,
    encoding: &Encoding,
    state: &Seen,
    log: &Log,
    k: u32,
    count: u32,
    asked: Option<u64>,
) -> Result<Evidence, NoMemory>
    requires encoded { encoding.now ≡ encoding_of (circuit net.now) [] }
    requires width { length state.now.bits ≡ length (circuit net.now).flops }
    requires most { k ≤ MAX_FRAMES }
    requires room { k * variables (circuit net.now) [] ≤ MAX_FRAME_VARIABLES }
    requires there { IfSome asked (IsOneOf count) }
    requires within { count ≤ k }
    ensures { IfOk result (IsLogEvidence kind (reach_problem (encoding_of (circuit net.now) []) (reset_state (circuit net.now)) k state.now count) log.now asked) }
{
    netlists_unroll(net, k);
    let evidence = unrolled_evidence(
        alloc,
        kind,
        encoding,
        state,
        log,
        net.reset(),
        k,
        count,
        asked,
    )?;
    Ok(evidence)
}

/// The same of a netlist.
fn tried_evidence(
    alloc: Global,
    kind: Format,
    net: &Netlist,
    state: &Seen,
    log: &Log,
    k: u32,
    count: u32,
    asked: Option<u64>,
) -> Result<Evidence, NoMemory>
    requires width { length state.now.bits ≡ length (circuit net.now).flops }
    requires most { k ≤ MAX_FRAMES }
    requires room { k * variables (circuit net.now) [] ≤ MAX_FRAME_VARIABLES }
    requires there { IfSome asked (IsOneOf count) }
    requires within { count ≤ k }
    ensures { IfOk result (IsLogEvidence kind (reach_problem (encoding_of (circuit net.now) []) (reset_state (circuit net.now)) k state.now count) log.now asked) }
{
    match Encoding::plain(alloc, net) {
        Ok(encoding) => {
            let evidence = encoded_evidence(
                alloc, kind, net, &encoding, state, log, k, count, asked,
            );
            drop(encoding);
            evidence
        }
        Err(want) => Err(want),
    }
}

/// The evidence for what is asked for of an answer that has it.
fn answer_evidence(
    alloc: Global,
    kind: Format,
    net: &Netlist,
    state: &Seen,
    answer: &Reach,
    asked: Option<u64>,
) -> Result<Evidence, NoMemory>
    requires width { length state.now.bits ≡ length (circuit net.now).flops }
    requires most { answer.now.asked ≤ MAX_FRAMES }
    requires room { answer.now.asked * variables (circuit net.now) [] ≤ MAX_FRAME_VARIABLES }
    requires there { HasAsked answer.now asked }
    requires within { tried_of answer.now.asked answer.now.outcome ≤ answer.now.asked }
    ensures { IfOk result (IsLogEvidence kind (problem_for (circuit net.now) state.now answer.now) answer.now.log asked) }
{
    let k = answer.asked;
    let count = tried_of(k, answer.outcome);
    tried_evidence(
        alloc,
        kind,
        net,
        state,
        &answer.log,
        k as u32,
        count as u32,
        asked,
    )
}

/// The evidence that a state is not reached in so many cycles, or in none of the lengths that are refuted, out of an answer of a
/// search for it: the text that is asked for, or why there is none. The state has a bit for each flip-flop, and the answer has few
/// enough time frames for the netlist.
#[tactic(auto, using(crate::proofs::FlawLemmas::asked_shown, crate::proofs::ProblemLemmas::none_there, crate::proofs::ProblemLemmas::there_of, crate::proofs::FlawLemmas::tried_fit))]
pub fn evidence_of(
    alloc: Global,
    kind: Format,
    net: &Netlist,
    state: &Seen,
    answer: &Reach,
    asked: Option<u64>,
) -> Result<Evidence, NoMemory>
    requires width { length state.now.bits ≡ length (circuit net.now).flops }
    requires text { HasAnswerText answer.now }
    requires room { answer.now.asked * variables (circuit net.now) [] ≤ MAX_FRAME_VARIABLES }
    ensures { IfOk result (IsEvidence kind (circuit net.now) state.now answer.now asked) }
{
    if is_there(tried_of(answer.asked, answer.outcome), asked) {
        answer_evidence(alloc, kind, net, state, answer, asked)
    } else {
        Ok(Evidence::Flawed(Flaw::NoStep))
    }
}
