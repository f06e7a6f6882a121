//! The evidence for a step of a log, or for all that it finishes.
ghost use Rattle.std.specs.Prelude.{◌≡◌, ◌≤◌, ◌<◌, ◌+◌, ◌++◌, length, true, take, nat_lt, Some, None, IfOk, IfSome, OnOk};
ghost use Rattle.std.specs.List.{list_all};
ghost use Rattle.bs_clause.specs.declared.literal.TheConstants.{VARIABLE_LIMIT};
ghost use Rattle.bs_log.specs.Refusal.{history_of, IsAccepted};
ghost use Rattle.bs_log.specs.ShownLaw.{IsFinishAt};
ghost use Rattle.bs_log.specs.Walk.{problem_in, IsOneOf, IsProvable};
ghost use Rattle.bs_log.specs.declared.asked.TheConstants.{FEW};
ghost use Rattle.bs_evidence.specs.WholeWalk.{problem_in as whole_problem, history_in, has_finish, IsWritable};
ghost use Rattle.bs_evidence.specs.Evidence.{text_of, whole_text_of, assumes_few, is_short, IsLogEvidence};
ghost use Rattle.bs_evidence.specs.Logged.{problem_of};

use crate::evidence::Format;
use crate::flaw::{Evidence, Flaw};
use crate::whole::{WholeLog, has_finish};
use crate::whole_cnf::push_whole_cnf;
use crate::whole_lrat::push_whole_lrat;
use bs_bits::{List, NoMemory};
use bs_clause::{Clauses, Lits};
use bs_log::{FEW, Line, Log, Refuted, finish_place, push_cnf, push_lrat};
use bs_rup::{Verdict, check};
use std::alloc::Global;

/// A log and what it is about: clauses over the variables 1 to `vars`, and the assumptions of each step.
#[derive(Clone, Copy)]
pub(crate) struct Logged<'a> {
    pub(crate) vars: u32,
    pub(crate) clauses: &'a Clauses,
    pub(crate) steps: &'a List<Lits>,
    pub(crate) log: &'a Log,
}

/// Appends the text of a step.
fn push_text(text: &mut Vec<u8>, kind: Format, asked: &Refuted<'_>) -> Result<(), NoMemory>
    requires { IsProvable asked.now }
    ensures { OnOk result (text.new.items ≡ text.old.items ++ text_of kind (problem_in asked.now) (history_of asked.now.lines.now) asked.now.step asked.now.id) }
{
    match kind {
        Format::Clauses => push_cnf(text, asked),
        Format::Proof => push_lrat(text, asked),
    }
}

/// The text of a step.
fn text_of(alloc: Global, kind: Format, asked: &Refuted<'_>) -> Result<Vec<u8>, NoMemory>
    requires { IsProvable asked.now }
    ensures { IfOk result (λ text. text.items ≡ text_of kind (problem_in asked.now) (history_of asked.now.lines.now) asked.now.step asked.now.id) }
{
    let mut text = Vec::new(alloc);
    push_text(&mut text, kind, asked)?;
    Ok(text)
}

/// Appends the text of all finished steps.
fn push_whole_text(text: &mut Vec<u8>, kind: Format, log: &WholeLog<'_>) -> Result<(), NoMemory>
    requires { IsWritable log.now }
    ensures { OnOk result (text.new.items ≡ text.old.items ++ whole_text_of kind (whole_problem log.now) (history_in log.now)) }
{
    match kind {
        Format::Clauses => push_whole_cnf(text, log),
        Format::Proof => push_whole_lrat(text, log),
    }
}

/// The text of all finished steps.
fn whole_text(alloc: Global, kind: Format, log: &WholeLog<'_>) -> Result<Vec<u8>, NoMemory>
    requires { IsWritable log.now }
    ensures { IfOk result (λ text. text.items ≡ whole_text_of kind (whole_problem log.now) (history_in log.now)) }
{
    let mut text = Vec::new(alloc);
    push_whole_text(&mut text, kind, log)?;
    Ok(text)
}

/// Whether each of some clauses has fewer literals than 2^32.
fn are_few(clauses: &[Lits]) -> bool
    ensures { result ≡ list_all (λ c. nat_lt (length c) FEW) clauses.now }
{
    clauses.iter().all(|clause| clause.len() < FEW)
}

/// Whether what is asked for assumes less than 2^32 literals a step.
fn assumes_few(steps: &List<Lits>, asked: Option<u64>) -> bool
    requires { IfSome asked (IsOneOf (length steps.now)) }
    ensures { result ≡ assumes_few steps.now asked }
{
    match asked {
        Some(step) => steps.get((step - 1) as usize).len() < FEW,
        None => are_few(steps.slice()),
    }
}

/// Whether all parts have fewer members than 2^32.
fn is_short(logged: &Logged<'_>, asked: Option<u64>) -> bool
    requires { IfSome asked (IsOneOf (length logged.now.steps.now)) }
    ensures { result ≡ is_short (problem_of logged.now) logged.now.log.now asked }
{
    let clauses = logged.clauses.len();
    clauses < FEW && (assumes_few(logged.steps, asked) && logged.log.len() < FEW)
}

/// The lines before a place.
fn front(log: &[Line], place: usize) -> &[Line]
    requires { place ≤ length log.now }
    ensures { result.now ≡ take place log.now }
{
    &log[..place]
}

/// A step that the line at this place finishes.
fn asked<'a>(logged: &Logged<'a>, step: u64, place: usize, id: u64) -> Refuted<'a>
    requires step { IsOneOf (length logged.now.steps.now) step }
    requires room { logged.now.vars + length logged.now.steps.now < VARIABLE_LIMIT }
    requires accepted { IsAccepted (problem_of logged.now) logged.now.log.now }
    requires short { is_short (problem_of logged.now) logged.now.log.now (Some step) ≡ true }
    requires finish { IsFinishAt logged.now.log.now step place id }
    ensures provable { IsProvable result }
    ensures problem { problem_in result ≡ problem_of logged.now }
    ensures lines { result.lines.now ≡ take place logged.now.log.now }
    ensures step { result.step ≡ step }
    ensures id { result.id ≡ id }
{
    Refuted {
        vars: logged.vars,
        clauses: logged.clauses,
        steps: logged.steps,
        lines: front(logged.log.slice(), place),
        step,
        id,
    }
}

/// The evidence for a step that the line at this place finishes.
fn finished_evidence(
    alloc: Global,
    kind: Format,
    logged: &Logged<'_>,
    step: u64,
    found: (usize, u64),
) -> Result<Evidence, NoMemory>
    requires step { IsOneOf (length logged.now.steps.now) step }
    requires room { logged.now.vars + length logged.now.steps.now < VARIABLE_LIMIT }
    requires accepted { IsAccepted (problem_of logged.now) logged.now.log.now }
    requires finish { IsFinishAt logged.now.log.now step found.0 found.1 }
    ensures { IfOk result (IsLogEvidence kind (problem_of logged.now) logged.now.log.now (Some step)) }
{
    if is_short(logged, Some(step)) {
        let refuted = asked(logged, step, found.0, found.1);
        let text = text_of(alloc, kind, &refuted)?;
        Ok(Evidence::Text(text))
    } else {
        Ok(Evidence::Flawed(Flaw::Long))
    }
}

/// The evidence for a step of a log that is accepted.
fn step_evidence(
    alloc: Global,
    kind: Format,
    logged: &Logged<'_>,
    step: u64,
) -> Result<Evidence, NoMemory>
    requires step { IsOneOf (length logged.now.steps.now) step }
    requires room { logged.now.vars + length logged.now.steps.now < VARIABLE_LIMIT }
    requires accepted { IsAccepted (problem_of logged.now) logged.now.log.now }
    ensures { IfOk result (IsLogEvidence kind (problem_of logged.now) logged.now.log.now (Some step)) }
{
    match finish_place(logged.log.slice(), step) {
        None => Ok(Evidence::Flawed(Flaw::Unfinished)),
        Some(found) => finished_evidence(alloc, kind, logged, step, found),
    }
}

/// A log whole.
fn whole_log<'a>(logged: &Logged<'a>) -> WholeLog<'a>
    requires room { logged.now.vars + length logged.now.steps.now < VARIABLE_LIMIT }
    requires accepted { IsAccepted (problem_of logged.now) logged.now.log.now }
    requires short { is_short (problem_of logged.now) logged.now.log.now None ≡ true }
    ensures writable { IsWritable result }
    ensures problem { whole_problem result ≡ problem_of logged.now }
    ensures history { history_in result ≡ history_of logged.now.log.now }
{
    WholeLog {
        vars: logged.vars,
        clauses: logged.clauses,
        steps: logged.steps,
        lines: logged.log.slice(),
    }
}

/// The evidence for all finished steps of a log that is accepted and finishes a step.
fn all_finished_evidence(
    alloc: Global,
    kind: Format,
    logged: &Logged<'_>,
) -> Result<Evidence, NoMemory>
    requires room { logged.now.vars + length logged.now.steps.now < VARIABLE_LIMIT }
    requires accepted { IsAccepted (problem_of logged.now) logged.now.log.now }
    requires finish { has_finish logged.now.log.now ≡ true }
    ensures { IfOk result (IsLogEvidence kind (problem_of logged.now) logged.now.log.now None) }
{
    if is_short(logged, None) {
        let whole = whole_log(logged);
        let text = whole_text(alloc, kind, &whole)?;
        Ok(Evidence::Text(text))
    } else {
        Ok(Evidence::Flawed(Flaw::Long))
    }
}

/// The evidence for all finished steps of a log that is accepted.
fn all_evidence(alloc: Global, kind: Format, logged: &Logged<'_>) -> Result<Evidence, NoMemory>
    requires room { logged.now.vars + length logged.now.steps.now < VARIABLE_LIMIT }
    requires accepted { IsAccepted (problem_of logged.now) logged.now.log.now }
    ensures { IfOk result (IsLogEvidence kind (problem_of logged.now) logged.now.log.now None) }
{
    if has_finish(logged.log.slice()) {
        all_finished_evidence(alloc, kind, logged)
    } else {
        Ok(Evidence::Flawed(Flaw::Unfinished))
    }
}

/// The evidence for what is asked for of a log that is accepted.
fn accepted_evidence(
    alloc: Global,
    kind: Format,
    logged: &Logged<'_>,
    asked: Option<u64>,
) -> Result<Evidence, NoMemory>
    requires there { IfSome asked (IsOneOf (length logged.now.steps.now)) }
    requires room { logged.now.vars + length logged.now.steps.now < VARIABLE_LIMIT }
    requires accepted { IsAccepted (problem_of logged.now) logged.now.log.now }
    ensures { IfOk result (IsLogEvidence kind (problem_of logged.now) logged.now.log.now asked) }
{
    match asked {
        Some(step) => step_evidence(alloc, kind, logged, step),
        None => all_evidence(alloc, kind, logged),
    }
}

/// The evidence for what is asked for of a log, which is checked first.
pub(crate) fn log_evidence(
    alloc: Global,
    kind: Format,
    logged: &Logged<'_>,
    asked: Option<u64>,
) -> Result<Evidence, NoMemory>
    requires there { IfSome asked (IsOneOf (length logged.now.steps.now)) }
    requires room { logged.now.vars + length logged.now.steps.now < VARIABLE_LIMIT }
    ensures { IfOk result (IsLogEvidence kind (problem_of logged.now) logged.now.log.now asked) }
{
    let verdict = check(alloc, logged.vars, logged.clauses, logged.steps, logged.log)?;
    match verdict {
        Verdict::Rejected { line, why } => Ok(Evidence::Flawed(Flaw::Log(line, why))),
        Verdict::Accepted => accepted_evidence(alloc, kind, logged, asked),
    }
}
