//! What forces a name's bits in a trace.
ghost use Rattle.std.specs.Prelude.{◌≡◌, ◌<◌, ◌≤◌, false, length, All, IfOk, MatchOption};
ghost use Rattle.bs_net.specs.Netlist.{circuit};
ghost use Rattle.bs_net_facts.specs.Facts.{IsReal, IsWayOf};
ghost use Rattle.bs_inspect_causes.specs.Accounts.{Explain, has_net, LeadsOn};
ghost use Rattle.bs_inspect_why.specs.Question.{AreAsked, asked_nets as nets_asked, moment_in, question_in};
ghost use Rattle.bs_inspect_why.specs.Why.{Answers, AnswersAt, AnswersOn, TellsFacts};

use crate::asked::{asked_facts, asked_nets};
use crate::denial::{Denial, WhyAnswer};
use crate::question::{AskedNets, Question};
use crate::setting::{groups, stops};
use crate::telling::accounts_text;
use bs_bits::{List, NoMemory};
use bs_inspect_causes::{Account, accounts_of};
use bs_inspect_holds::TraceScene;
use bs_net::Netlist;
use bs_net_facts::{Fact, Moments};
use bs_report::Report;
use std::alloc::Global;

/// Accounts of facts, where cones end at these nets.
fn accounts_by(
    moments: &Moments<'_>,
    asked: &AskedNets<'_>,
    stops: &[bool],
    groups: &[u32],
    facts: &[Fact],
) -> Result<List<Account>, NoMemory>
    requires way { IsWayOf (circuit moments.now.net) moments.now.states moments.now.inputs }
    requires leads { LeadsOn (circuit moments.now.net) moments.now.states moments.now.inputs }
    requires real { All (IsReal (circuit moments.now.net) moments.now.states moments.now.inputs) facts.now }
    requires driven { All (λ f. has_net (circuit moments.now.net).inputs f.net ≡ false) facts.now }
    requires some_layer { 1 ≤ asked.now.question.now.depth }
    ensures { IfOk result (λ accounts. Explain (circuit moments.now.net) moments.now.states moments.now.inputs facts.now asked.now.question.now.depth accounts) }
{
    let question = asked.question;
    let scene = TraceScene::new(asked.alloc, moments, stops, groups)?;
    let made = accounts_of(asked.alloc, &scene, facts, question.depth, question.all);
    drop(scene);
    let accounts = made?;
    Ok(accounts)
}

/// Accounts of facts.
fn accounts_told(
    moments: &Moments<'_>,
    asked: &AskedNets<'_>,
    facts: &[Fact],
) -> Result<List<Account>, NoMemory>
    requires way { IsWayOf (circuit moments.now.net) moments.now.states moments.now.inputs }
    requires leads { LeadsOn (circuit moments.now.net) moments.now.states moments.now.inputs }
    requires real { All (IsReal (circuit moments.now.net) moments.now.states moments.now.inputs) facts.now }
    requires driven { All (λ f. has_net (circuit moments.now.net).inputs f.net ≡ false) facts.now }
    requires some_layer { 1 ≤ asked.now.question.now.depth }
    ensures { IfOk result (λ accounts. Explain (circuit moments.now.net) moments.now.states moments.now.inputs facts.now asked.now.question.now.depth accounts) }
{
    let stops = stops(asked.alloc, moments.net(), asked.question.flops)?;
    let groups = groups(asked.alloc, moments.net())?;
    let accounts = accounts_by(moments, asked, stops.as_slice(), groups.as_slice(), facts)?;
    Ok(accounts)
}

/// The text of accounts of facts.
#[tactic(auto, using(crate::proofs::WhyLemmas::facts_told))]
fn facts_text(
    moments: &Moments<'_>,
    asked: &AskedNets<'_>,
    facts: &[Fact],
) -> Result<Vec<u8>, NoMemory>
    requires way { IsWayOf (circuit moments.now.net) moments.now.states moments.now.inputs }
    requires leads { LeadsOn (circuit moments.now.net) moments.now.states moments.now.inputs }
    requires real { All (IsReal (circuit moments.now.net) moments.now.states moments.now.inputs) facts.now }
    requires driven { All (λ f. has_net (circuit moments.now.net).inputs f.net ≡ false) facts.now }
    requires some_layer { 1 ≤ asked.now.question.now.depth }
    ensures { IfOk result (λ text. TellsFacts moments.now asked.now.report.now (question_in asked.now.question.now) facts.now text.items) }
{
    let accounts = accounts_told(moments, asked, facts)?;
    let told = accounts_text(moments, asked, accounts.slice());
    drop(accounts);
    let text = told?;
    Ok(text)
}

/// The answer by the facts of nets.
#[tactic(auto, using(crate::proofs::WhyLemmas::nets_told, crate::proofs::WhyLemmas::open_told))]
fn answer_by(
    moments: &Moments<'_>,
    asked: &AskedNets<'_>,
    facts: Option<List<Fact>>,
) -> Result<WhyAnswer, NoMemory>
    requires way { IsWayOf (circuit moments.now.net) moments.now.states moments.now.inputs }
    requires leads { LeadsOn (circuit moments.now.net) moments.now.states moments.now.inputs }
    requires some { 0 < length asked.now.nets.now }
    requires driven { All (λ n. has_net (circuit moments.now.net).inputs n ≡ false) asked.now.nets.now }
    requires facts { MatchOption facts (length moments.now.inputs ≤ asked.now.at) (AreAsked moments.now asked.now.nets.now asked.now.at (length asked.now.nets.now)) }
    requires some_layer { 1 ≤ asked.now.question.now.depth }
    ensures { IfOk result (AnswersAt moments.now asked.now.report.now (question_in asked.now.question.now) asked.now.nets.now asked.now.at) }
{
    match facts {
        Some(facts) => {
            let text = facts_text(moments, asked, facts.slice())?;
            Ok(WhyAnswer::Text(text))
        }
        None => Ok(WhyAnswer::Denied(Denial::Open)),
    }
}

/// The answer by a trace.
fn answer_at(moments: &Moments<'_>, asked: &AskedNets<'_>) -> Result<WhyAnswer, NoMemory>
    requires way { IsWayOf (circuit moments.now.net) moments.now.states moments.now.inputs }
    requires leads { LeadsOn (circuit moments.now.net) moments.now.states moments.now.inputs }
    requires some { 0 < length asked.now.nets.now }
    requires placed { All (λ n. n.0 < (circuit moments.now.net).nets) asked.now.nets.now }
    requires driven { All (λ n. has_net (circuit moments.now.net).inputs n ≡ false) asked.now.nets.now }
    requires some_layer { 1 ≤ asked.now.question.now.depth }
    ensures { IfOk result (AnswersAt moments.now asked.now.report.now (question_in asked.now.question.now) asked.now.nets.now asked.now.at) }
{
    let facts = asked_facts(asked.alloc, moments, asked.nets, asked.at)?;
    answer_by(moments, asked, facts)
}

/// The answer of a trace that leads on.
#[tactic(auto, using(crate::proofs::WhyLemmas::way_seen, crate::proofs::WhyLemmas::leads_seen, crate::proofs::WhyLemmas::placed_seen, crate::proofs::WhyLemmas::driven_seen, crate::proofs::WhyLemmas::answer_seen))]
fn answer_on(net: &Netlist, asked: &AskedNets<'_>) -> Result<WhyAnswer, NoMemory>
    requires way { IsWayOf (circuit net.now) asked.now.report.now.states asked.now.report.now.inputs }
    requires leads { LeadsOn (circuit net.now) asked.now.report.now.states asked.now.report.now.inputs }
    requires some { 0 < length asked.now.nets.now }
    requires placed { All (λ n. n.0 < (circuit net.now).nets) asked.now.nets.now }
    requires driven { All (λ n. has_net (circuit net.now).inputs n ≡ false) asked.now.nets.now }
    requires some_layer { 1 ≤ asked.now.question.now.depth }
    ensures { IfOk result (AnswersOn net.now asked.now.report.now (question_in asked.now.question.now) asked.now.nets.now asked.now.at) }
{
    let report = asked.report;
    let moments = Moments::of(asked.alloc, net, &report.states, &report.inputs)?;
    let answer = answer_at(&moments, asked);
    drop(moments);
    let why = answer?;
    Ok(why)
}

/// The answer of a report's trace, if there are nets.
#[tactic(auto, using(crate::proofs::WhyLemmas::none_asked, crate::proofs::WhyLemmas::some_asked, crate::proofs::WhyLemmas::text_answers))]
fn answer_of(net: &Netlist, asked: &AskedNets<'_>) -> Result<WhyAnswer, NoMemory>
    requires way { IsWayOf (circuit net.now) asked.now.report.now.states asked.now.report.now.inputs }
    requires leads { LeadsOn (circuit net.now) asked.now.report.now.states asked.now.report.now.inputs }
    requires at { asked.now.at ≡ moment_in (length asked.now.report.now.states) asked.now.question.now.at }
    requires there { asked.now.at < length asked.now.report.now.states }
    requires nets { asked.now.nets.now ≡ nets_asked net.now.raw asked.now.question.now.name.now }
    requires placed { All (λ n. n.0 < (circuit net.now).nets) asked.now.nets.now }
    requires driven { All (λ n. has_net (circuit net.now).inputs n ≡ false) asked.now.nets.now }
    requires some_layer { 1 ≤ asked.now.question.now.depth }
    ensures { IfOk result (Answers net.now.raw asked.now.report.now (question_in asked.now.question.now)) }
{
    if asked.nets.is_empty() {
        return Ok(WhyAnswer::Denied(Denial::Input));
    }
    answer_on(net, asked)
}

/// The moment that is asked for, if it is one of the trace's. More than can be numbered are answered as out of memory.
#[tactic(auto, using(crate::proofs::WhyLemmas::moment_given, crate::proofs::WhyLemmas::moment_over, crate::proofs::WhyLemmas::moment_last))]
fn moment_of(count: usize, at: Option<u64>) -> Result<Option<u32>, NoMemory>
    requires { 0 < count }
    ensures { IfOk result (λ moment. MatchOption moment (count ≤ moment_in count at) (λ t. (t ≡ moment_in count at) × (t < count))) }
{
    if count > u32::MAX as usize {
        return Err(NoMemory);
    }
    match at {
        Some(at) => {
            if at < count as u64 {
                Ok(Some(at as u32))
            } else {
                Ok(None)
            }
        }
        None => Ok(Some(count as u32 - 1)),
    }
}

/// The answer at a moment of the trace.
fn answer_then(
    alloc: Global,
    net: &Netlist,
    report: &Report,
    question: &Question<'_>,
    at: u32,
) -> Result<WhyAnswer, NoMemory>
    requires way { IsWayOf (circuit net.now) report.now.states report.now.inputs }
    requires leads { LeadsOn (circuit net.now) report.now.states report.now.inputs }
    requires at { at ≡ moment_in (length report.now.states) question.now.at }
    requires there { at < length report.now.states }
    requires some_layer { 1 ≤ question.now.depth }
    ensures { IfOk result (Answers net.now.raw report.now (question_in question.now)) }
{
    let nets = asked_nets(alloc, net, question.name)?;
    let asked = AskedNets {
        alloc,
        report,
        question,
        at,
        nets: nets.as_slice(),
    };
    let why = answer_of(net, &asked)?;
    Ok(why)
}

/// What forces the bits of a name at a moment of the trace of a report that fits: accounts, layer by layer back to the cause, as a text
/// or as a table; or why there is none. It takes one pass over the gates for each moment and a byte for each net and moment, and each
/// account a few passes over the gates below its bits.
#[tactic(auto, using(crate::proofs::WhyLemmas::some_states, crate::proofs::WhyLemmas::moment_at, crate::proofs::WhyLemmas::moment_there))]
pub fn why_text(
    alloc: Global,
    net: &Netlist,
    report: &Report,
    question: &Question<'_>,
) -> Result<WhyAnswer, NoMemory>
    requires way { IsWayOf (circuit net.now) report.now.states report.now.inputs }
    requires leads { LeadsOn (circuit net.now) report.now.states report.now.inputs }
    requires some_layer { 1 ≤ question.now.depth }
    ensures { IfOk result (Answers net.now.raw report.now (question_in question.now)) }
{
    match moment_of(report.states.len(), question.at)? {
        Some(at) => answer_then(alloc, net, report, question, at),
        None => Ok(WhyAnswer::Denied(Denial::Moment)),
    }
}
