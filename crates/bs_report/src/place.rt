//! The places of a report's text, and what a line gives at each.
ghost use Rattle.std.specs.Prelude.{◌≡◌, [], ◌∷◌, ◌++◌, IfOk, OnOk, codes, option_map, Some, None, if◌then◌else◌};
ghost use Rattle.std.specs.Str.{bytes_eq};
ghost use Rattle.bs_report.specs.Forms.{count_in};
ghost use Rattle.bs_bits.specs.Reading.{Answers};
ghost use Rattle.bs_report.specs.Reading.{begun as begun_of, may_stand as may_stand_of, put_step as with_put, with_state};
ghost use Rattle.bs_report.specs.Reading.{behind_state as behind_state_of, behind_stored as behind_stored_of, begins as begins_number, ended};
ghost use Rattle.bs_report.specs.Reading.{end_fault, followed, line_or_fault, is_done as is_done_place, listed_place, log_place as log_place_of, older_place};
ghost use Rattle.bs_report.specs.Reading.{present_place, step_of, stored_place, taken};
ghost use Rattle.bs_report.specs.declared.fault.ReportFault.TheVariants.{NoMemory as Want};
ghost use Rattle.bs_report.specs.declared.place.NextLine.TheVariants as places;

use crate::fault::ReportFault;
use crate::forms::{
    is_text, read_bits, read_budgets, read_cand, read_count, read_depth, read_end, read_hit,
    read_older, read_seen, read_stop,
};
use crate::report::{Cand, HitLine, ListEnd, Report, Step};
use bs_bits::{Bits, List, NoMemory};
use bs_log::Line;
use bs_scan::Seen;
use std::alloc::Global;

/// The first lines of a step: its present state and its stored signatures.
#[derive(Drop)]
pub struct PartialStep {
    pub present: Seen,
    pub stored: Bits,
    pub older: Option<Bits>,
}

/// What the next line of a report may be, with what is read of the step under way.
#[derive(Drop)]
pub enum NextLine {
    /// `backspace 1` or `backspace 2`
    Title,
    /// the budgets
    Asked,
    /// the next step, or the cause of the stop
    Turn,
    /// the present state of a step
    Present,
    /// its stored signature
    Stored(Seen),
    /// its older signature, behind its present state and its stored one
    Older(Seen, Bits),
    /// a candidate, or how the list ended
    Listing(PartialStep, List<Cand>),
    /// the hit
    Hit(PartialStep, List<Cand>, ListEnd),
    /// the number of inputs in the trace
    Trace,
    /// a state of the trace, behind which so many inputs are left
    State(u64),
    /// an input of the trace, of which so many are left
    Input(u64),
    /// the number of log lines
    Log,
    /// a log line, of which so many are left
    Lines(u64),
    /// `end`
    End,
    /// nothing
    Done,
}

/// Whether a line begins the step with this number.
fn begins_step(line: &[u8], number: u64) -> bool
    ensures { result ≡ begins_number number (count_in (codes "step") line.now) }
{
    match read_count(line, b"step") {
        None => false,
        Some(n) => n == number,
    }
}

/// The place behind a state of the trace, where so many inputs are left.
fn behind_state(left: u64) -> NextLine
    ensures { result ≡ behind_state_of left }
{
    if left == 0 {
        NextLine::Log
    } else {
        NextLine::Input(left)
    }
}

/// The place of a log line, where so many are left.
fn log_place(left: u64) -> NextLine
    ensures { result ≡ log_place_of left }
{
    if left == 0 {
        NextLine::End
    } else {
        NextLine::Lines(left)
    }
}

/// The first line.
fn take_title(report: &mut Report, line: &[u8]) -> Option<NextLine>
    ensures { option_map (λ place. (place, report.new)) result ≡ taken places.Title report.old line.now }
{
    match read_depth(line) {
        None => None,
        Some(depth) => {
            report.depth = depth;
            Some(NextLine::Asked)
        }
    }
}

/// The line of the budgets.
fn take_budgets(report: &mut Report, line: &[u8]) -> Option<NextLine>
    ensures { option_map (λ place. (place, report.new)) result ≡ taken places.Asked report.old line.now }
{
    match read_budgets(line) {
        None => None,
        Some(budgets) => {
            report.budgets = budgets;
            Some(NextLine::Turn)
        }
    }
}

/// The first line of a step, or that of the cause.
fn take_turn(report: &mut Report, line: &[u8]) -> Option<NextLine>
    ensures { option_map (λ place. (place, report.new)) result ≡ taken places.Turn report.old line.now }
{
    match read_stop(line) {
        None => {
            if begins_step(line, report.steps.slice().len() as u64 + 1) {
                Some(NextLine::Present)
            } else {
                None
            }
        }
        Some(stop) => {
            report.stop = stop;
            Some(NextLine::Trace)
        }
    }
}

/// The present state of a step.
fn take_present(alloc: Global, line: &[u8]) -> Result<Option<NextLine>, NoMemory>
    ensures { IfOk result (λ next. next ≡ present_place line.now) }
{
    match read_seen(alloc, line, b"present")? {
        None => Ok(None),
        Some(present) => Ok(Some(NextLine::Stored(present))),
    }
}

/// The place behind a stored signature.
fn behind_stored(alloc: Global, depth: u8, present: Seen, stored: Bits) -> NextLine
    ensures { result ≡ behind_stored_of depth present stored }
{
    if depth == 1 {
        let begun = PartialStep {
            present,
            stored,
            older: None,
        };
        NextLine::Listing(begun, List::new(alloc))
    } else {
        NextLine::Older(present, stored)
    }
}

/// The stored signature of a step.
fn take_stored(
    alloc: Global,
    depth: u8,
    present: Seen,
    line: &[u8],
) -> Result<Option<NextLine>, NoMemory>
    ensures { IfOk result (λ next. next ≡ stored_place depth present line.now) }
{
    match read_bits(alloc, line, b"stored")? {
        None => Ok(None),
        Some(stored) => Ok(Some(behind_stored(alloc, depth, present, stored))),
    }
}

/// The place behind an older signature, where a line says it.
fn behind_older(
    alloc: Global,
    present: Seen,
    stored: Bits,
    older: Option<Option<Bits>>,
) -> Option<NextLine>
    ensures { result ≡ option_map (λ older. places.Listing (begun_of present stored older) []) older }
{
    match older {
        None => None,
        Some(older) => {
            let begun = PartialStep {
                present,
                stored,
                older,
            };
            Some(NextLine::Listing(begun, List::new(alloc)))
        }
    }
}

/// The older signature of a step.
fn take_older(
    alloc: Global,
    present: Seen,
    stored: Bits,
    line: &[u8],
) -> Result<Option<NextLine>, NoMemory>
    ensures { IfOk result (λ next. next ≡ older_place present stored line.now) }
{
    let older = read_older(alloc, line)?;
    Ok(behind_older(alloc, present, stored, older))
}

/// The place behind the end of a list, where a line says it.
fn behind_list(begun: PartialStep, cands: List<Cand>, ended: Option<ListEnd>) -> Option<NextLine>
    ensures { result ≡ option_map (λ ended. places.Hit begun cands ended) ended }
{
    match ended {
        None => None,
        Some(ended) => Some(NextLine::Hit(begun, cands, ended)),
    }
}

/// The place behind a candidate.
fn behind_cand(
    begun: PartialStep,
    cands: List<Cand>,
    cand: Cand,
) -> Result<Option<NextLine>, NoMemory>
    ensures { IfOk result (λ next. next ≡ Some (places.Listing begun (cands ++ cand ∷ []))) }
{
    let mut cands = cands;
    cands.push(cand)?;
    Ok(Some(NextLine::Listing(begun, cands)))
}

/// A candidate, or how the list ended.
fn take_listed(
    alloc: Global,
    depth: u8,
    begun: PartialStep,
    cands: List<Cand>,
    line: &[u8],
) -> Result<Option<NextLine>, NoMemory>
    ensures { IfOk result (λ next. next ≡ listed_place depth begun cands line.now) }
{
    match read_cand(alloc, depth, line)? {
        None => Ok(behind_list(begun, cands, read_end(line))),
        Some(cand) => behind_cand(begun, cands, cand),
    }
}

/// The whole step.
fn whole_step(begun: PartialStep, cands: List<Cand>, ended: ListEnd, hit: Option<HitLine>) -> Step
    ensures { result ≡ step_of begun cands ended hit }
{
    Step {
        present: begun.present,
        stored: begun.stored,
        older: begun.older,
        cands,
        end: ended,
        hit,
    }
}

/// Puts a step behind those of the report.
fn put_step(report: &mut Report, step: Step) -> Result<Option<NextLine>, NoMemory>
    ensures next { IfOk result (λ next. next ≡ Some places.Turn) }
    ensures put { OnOk result (report.new ≡ with_put report.old step) }
{
    report.steps.push(step)?;
    Ok(Some(NextLine::Turn))
}

/// The hit, with which the step is whole.
fn take_hit(
    alloc: Global,
    begun: PartialStep,
    cands: List<Cand>,
    ended: ListEnd,
    report: &mut Report,
    line: &[u8],
) -> Result<Option<NextLine>, NoMemory>
    ensures { IfOk result (λ next. option_map (λ place. (place, report.new)) next ≡ taken (places.Hit begun cands ended) report.old line.now) }
{
    match read_hit(alloc, line)? {
        None => Ok(None),
        Some(hit) => put_step(report, whole_step(begun, cands, ended, hit)),
    }
}

/// The number of inputs in the trace.
fn take_trace(line: &[u8]) -> Option<NextLine>
    ensures { result ≡ option_map (λ n. places.State n) (count_in (codes "trace") line.now) }
{
    let count = read_count(line, b"trace")?;
    Some(NextLine::State(count))
}

/// Whether a state of the trace may stand where so many inputs are left: in the last one alone some bits may not be known.
fn may_stand(left: u64, seen: &Seen) -> bool
    ensures { result ≡ may_stand_of left seen.now }
{
    seen.is_whole() || left == 0
}

/// Puts a state of the trace behind the others.
fn put_state(left: u64, report: &mut Report, seen: Seen) -> Result<Option<NextLine>, NoMemory>
    ensures next { IfOk result (λ next. next ≡ Some (behind_state_of left)) }
    ensures put { OnOk result (report.new ≡ with_state report.old seen) }
{
    report.states.push(seen.bits)?;
    report.free = seen.free;
    Ok(Some(behind_state(left)))
}

/// A state of the trace.
fn take_state(
    alloc: Global,
    left: u64,
    report: &mut Report,
    line: &[u8],
) -> Result<Option<NextLine>, NoMemory>
    ensures { IfOk result (λ next. option_map (λ place. (place, report.new)) next ≡ taken (places.State left) report.old line.now) }
{
    match read_seen(alloc, line, b"state")? {
        None => Ok(None),
        Some(seen) => {
            if may_stand(left, &seen) {
                put_state(left, report, seen)
            } else {
                Ok(None)
            }
        }
    }
}

/// An input of the trace.
fn take_input(
    alloc: Global,
    left: u64,
    report: &mut Report,
    line: &[u8],
) -> Result<Option<NextLine>, NoMemory>
    ensures { IfOk result (λ next. option_map (λ place. (place, report.new)) next ≡ taken (places.Input left) report.old line.now) }
{
    match read_bits(alloc, line, b"input")? {
        None => Ok(None),
        Some(input) => {
            report.inputs.push(input)?;
            Ok(Some(NextLine::State(left.saturating_sub(1))))
        }
    }
}

/// The number of log lines.
fn take_log(line: &[u8]) -> Option<NextLine>
    ensures { result ≡ option_map (λ n. log_place_of n) (count_in (codes "log") line.now) }
{
    let count = read_count(line, b"log")?;
    Some(log_place(count))
}

/// A log line.
fn take_log_line(
    alloc: Global,
    left: u64,
    report: &mut Report,
    line: &[u8],
) -> Result<Option<NextLine>, NoMemory>
    ensures { IfOk result (λ next. option_map (λ place. (place, report.new)) next ≡ taken (places.Lines left) report.old line.now) }
{
    match Line::read(alloc, line)? {
        None => Ok(None),
        Some(log_line) => {
            report.log.push(log_line)?;
            Ok(Some(log_place(left.saturating_sub(1))))
        }
    }
}

/// The last line.
fn take_end(line: &[u8]) -> Option<NextLine>
    ensures { result ≡ (if bytes_eq line.now (codes "end") then Some places.Done else None) }
{
    if is_text(line, b"end") {
        Some(NextLine::Done)
    } else {
        None
    }
}

/// The place behind a line, which is one of a form that its own place allows.
fn take(
    alloc: Global,
    place: NextLine,
    report: &mut Report,
    line: &[u8],
) -> Result<Option<NextLine>, NoMemory>
    ensures { IfOk result (λ next. option_map (λ place. (place, report.new)) next ≡ taken place report.old line.now) }
{
    match place {
        NextLine::Title => Ok(take_title(report, line)),
        NextLine::Asked => Ok(take_budgets(report, line)),
        NextLine::Turn => Ok(take_turn(report, line)),
        NextLine::Present => take_present(alloc, line),
        NextLine::Stored(present) => take_stored(alloc, report.depth, present, line),
        NextLine::Older(present, stored) => take_older(alloc, present, stored, line),
        NextLine::Listing(begun, cands) => take_listed(alloc, report.depth, begun, cands, line),
        NextLine::Hit(begun, cands, ended) => take_hit(alloc, begun, cands, ended, report, line),
        NextLine::Trace => Ok(take_trace(line)),
        NextLine::State(left) => take_state(alloc, left, report, line),
        NextLine::Input(left) => take_input(alloc, left, report, line),
        NextLine::Log => Ok(take_log(line)),
        NextLine::Lines(left) => take_log_line(alloc, left, report, line),
        NextLine::End => Ok(take_end(line)),
        NextLine::Done => Ok(None),
    }
}

/// Whether nothing may follow.
fn is_done(place: &NextLine) -> bool
    ensures { result ≡ is_done_place place.now }
{
    match place {
        NextLine::Done => true,
        _ => false,
    }
}

/// The place behind the whole line with this number, where something may follow.
fn follow_on(
    alloc: Global,
    number: u64,
    place: NextLine,
    report: &mut Report,
    line: &[u8],
) -> Result<NextLine, ReportFault>
    ensures { Answers Want (λ next. (next, report.new)) result (line_or_fault number (taken place report.old line.now)) }
{
    match take(alloc, place, report, line)? {
        Some(next) => Ok(next),
        None => Err(ReportFault::Line(number)),
    }
}

/// The place behind the whole line with this number.
pub fn follow(
    alloc: Global,
    number: u64,
    place: NextLine,
    report: &mut Report,
    line: &[u8],
) -> Result<NextLine, ReportFault>
    ensures { Answers Want (λ next. (next, report.new)) result (followed number place report.old line.now) }
{
    if is_done(&place) {
        Err(ReportFault::Extra)
    } else {
        follow_on(alloc, number, place, report, line)
    }
}

/// What is wrong with a text that ends at a place with these bytes behind its last line.
fn end_fault(place: &NextLine, rest: &[u8]) -> Option<ReportFault>
    ensures { result ≡ end_fault place.now rest.now }
{
    if !is_done(place) {
        Some(ReportFault::Short)
    } else if rest.is_empty() {
        None
    } else {
        Some(ReportFault::Extra)
    }
}

/// The report, where the text ends behind its last line.
#[tactic(auto, using(crate::proofs::EndLemmas::ended_right, crate::proofs::EndLemmas::ended_wrong))]
pub fn finish(place: &NextLine, report: Report, rest: &[u8]) -> Result<Report, ReportFault>
    ensures { result ≡ ended place.now report rest.now }
{
    match end_fault(place, rest) {
        None => Ok(report),
        Some(fault) => Err(fault),
    }
}
