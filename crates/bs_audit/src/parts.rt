//! The parts of an audit in their order, and what it finds of a report.
ghost use Rattle.std.specs.Prelude.{◌≡◌, ◌+◌, ◌<◌, ◌≤◌, ◌^◌, length, map, None, All, IfOk, option_map};
ghost use Rattle.bs_net.specs.Netlist.{circuit};
ghost use Rattle.bs_encode.specs.Depth.{basis_of, encoding_by};
ghost use Rattle.bs_encode.specs.Listing.{IsTidy};
ghost use Rattle.bs_scan.specs.Choice.{depth_of};
ghost use Rattle.bs_scan.specs.Crash.{crash_of, recording_of, DumpFits};
ghost use Rattle.bs_scan.specs.Present.{present_in};
ghost use Rattle.bs_report.specs.Chain.{present_of};
ghost use Rattle.bs_report.specs.Good.{IsGood};
ghost use Rattle.bs_report.specs.Trace.{end_of};
ghost use Rattle.bs_report.specs.Valid.{first_failing, first_of_all};
ghost use Rattle.bs_audit.specs.Finding.{basis_for, part_of};
ghost use Rattle.bs_audit.specs.Following.{IsWalked};
ghost use Rattle.bs_audit.specs.Logged.{basis_with, behind_parts, first_after, logged_parts, AreFit, IsFit, LeavesFit};

use crate::law::valid_reports_are_good;
use crate::logged::{assumptions, refused_line, wrong_log};
use crate::replay::Replay;
use crate::steps::StepsWalk;
use crate::stop::is_right_stop;
use crate::trace::is_right_trace;
use bs_bits::{List, NoMemory};
use bs_clause::Lits;
use bs_encode::{Encoding, encodings_are_tidy};
use bs_net::Netlist;
use bs_report::{MAX_STEPS, Part, Report, end_of};
use bs_scan::{Choice, Dump};
use bs_stim::Runs;
use std::alloc::Global;

/// What an audit finds of a report (docs/DEFINITIONS.md, "Valid").
#[derive(Clone, Copy)]
pub enum Finding {
    /// No part fails.
    Accepted,
    /// This part is the first that fails.
    Rejected(Part),
}

/// What is found where this is the first part that fails, if one does.
fn finding_of(part: Option<Part>) -> Finding
    ensures { part_of result ≡ part }
{
    match part {
        None => Finding::Accepted,
        Some(part) => Finding::Rejected(part),
    }
}

/// The encoding of a netlist and of what its signature is taken of.
fn encoding(alloc: Global, net: &Netlist, choice: &Choice) -> Result<Encoding, NoMemory>
    requires { choice.now.width ≡ length (circuit net.now).flops }
    ensures value { IfOk result (λ e. e ≡ encoding_by (circuit net.now) choice.now) }
    ensures tidy { IfOk result (IsTidy (circuit net.now) choice.now) }
{
    encodings_are_tidy(net, choice);
    Encoding::new(alloc, net, choice)
}

/// The first part that fails against the log, of which these are the clauses and the assumptions.
fn logged_part(
    alloc: Global,
    encoding: &Encoding,
    width: usize,
    report: &Report,
    assumptions: &List<Lits>,
) -> Result<Option<Part>, NoMemory>
    requires width { width ≡ length encoding.now.states }
    requires room { encoding.now.variables + length report.now.steps < 2 ^ 30 }
    requires sound { AreFit encoding.now report.now.steps }
    requires assumptions { length assumptions.now ≡ length report.now.steps }
    ensures { IfOk result (λ part. part ≡ first_of_all (logged_parts (basis_with encoding.now assumptions.now) report.now)) }
{
    match refused_line(alloc, encoding, report, assumptions)? {
        Some(part) => Ok(Some(part)),
        None => wrong_log(alloc, encoding, width, report, assumptions),
    }
}

/// The first part that fails against the log, over the encoding's clauses.
fn encoded_part(
    alloc: Global,
    net: &Netlist,
    choice: &Choice,
    encoding: &Encoding,
    report: &Report,
) -> Result<Option<Part>, NoMemory>
    requires value { encoding.now ≡ encoding_by (circuit net.now) choice.now }
    requires tidy { IsTidy (circuit net.now) choice.now encoding.now }
    requires few { length report.now.steps ≤ MAX_STEPS }
    requires sound { All (IsFit (circuit net.now) (length choice.now.items) (depth_of choice.now)) report.now.steps }
    ensures { IfOk result (λ part. part ≡ first_of_all (logged_parts (basis_of (circuit net.now) choice.now (map present_of report.now.steps)) report.now)) }
{
    let _depth = choice.depth();
    match assumptions(alloc, encoding, report.steps.slice()) {
        Ok(assumptions) => {
            let part = logged_part(alloc, encoding, net.width(), report, &assumptions);
            drop(assumptions);
            part
        }
        Err(want) => Err(want),
    }
}

/// The first part that fails against the log.
fn log_part(
    alloc: Global,
    net: &Netlist,
    choice: &Choice,
    report: &Report,
) -> Result<Option<Part>, NoMemory>
    requires choice { choice.now.width ≡ length (circuit net.now).flops }
    requires few { length report.now.steps ≤ MAX_STEPS }
    requires sound { All (IsFit (circuit net.now) (length choice.now.items) (depth_of choice.now)) report.now.steps }
    ensures { IfOk result (λ part. part ≡ first_of_all (logged_parts (basis_of (circuit net.now) choice.now (map present_of report.now.steps)) report.now)) }
{
    match encoding(alloc, net, choice) {
        Ok(encoding) => {
            let part = encoded_part(alloc, net, choice, &encoding, report);
            drop(encoding);
            part
        }
        Err(want) => Err(want),
    }
}

/// The first part behind the steps that fails, where the next step is due to begin at a dump if at all.
fn part_behind(
    alloc: Global,
    net: &Netlist,
    choice: &Choice,
    dump: &Dump,
    report: &Report,
    due: &Option<Dump>,
) -> Result<Option<Part>, NoMemory>
    requires choice { choice.now.width ≡ length (circuit net.now).flops }
    requires budget { report.now.budgets.steps ≤ MAX_STEPS }
    requires sound { All (IsFit (circuit net.now) (length choice.now.items) (depth_of choice.now)) report.now.steps }
    ensures { IfOk result (λ part. part ≡ first_of_all (behind_parts (option_map present_in due.now) (end_of (circuit net.now) dump.now.state report.now.steps) (basis_of (circuit net.now) choice.now (map present_of report.now.steps)) report.now)) }
{
    if !is_right_stop(report, due) {
        return Ok(Some(Part::Stop));
    }
    let last = end_of(alloc, net, &dump.state, report.steps.slice())?;
    if !is_right_trace(report, &last) {
        return Ok(Some(Part::Trace));
    }
    log_part(alloc, net, choice, report)
}

/// What is found of the steps.
fn walked(
    alloc: Global,
    net: &Netlist,
    choice: &Choice,
    runs: &Runs,
    dump: &Dump,
    report: &Report,
) -> Result<StepsWalk, NoMemory>
    requires choice { choice.now.width ≡ length (circuit net.now).flops }
    requires runs { runs.now.width ≡ length (circuit net.now).inputs }
    ensures { IfOk result (IsWalked (crash_of (recording_of net.now.raw choice.now runs.now) dump.now) report.now) }
{
    match Replay::new(alloc, net, choice, runs, dump) {
        Ok(replay) => {
            let mut replay = replay;
            let walk = replay.walk(alloc, report);
            drop(replay);
            walk
        }
        Err(want) => Err(want),
    }
}

/// The first part that fails, where this is found of the steps.
fn part_after(
    alloc: Global,
    net: &Netlist,
    choice: &Choice,
    dump: &Dump,
    report: &Report,
    walk: &StepsWalk,
) -> Result<Option<Part>, NoMemory>
    requires choice { choice.now.width ≡ length (circuit net.now).flops }
    requires budget { report.now.budgets.steps ≤ MAX_STEPS }
    requires sound { LeavesFit (circuit net.now) (length choice.now.items) (depth_of choice.now) report.now.steps walk.now }
    ensures { IfOk result (λ part. part ≡ first_after walk.now (end_of (circuit net.now) dump.now.state report.now.steps) (basis_of (circuit net.now) choice.now (map present_of report.now.steps)) report.now) }
{
    match walk {
        StepsWalk::Fails(part) => Ok(Some(*part)),
        StepsWalk::Holds(due) => part_behind(alloc, net, choice, dump, report, due),
    }
}

/// The first part that fails of a report of the signature's depth.
fn part_within(
    alloc: Global,
    net: &Netlist,
    choice: &Choice,
    runs: &Runs,
    dump: &Dump,
    report: &Report,
) -> Result<Option<Part>, NoMemory>
    requires choice { choice.now.width ≡ length (circuit net.now).flops }
    requires runs { runs.now.width ≡ length (circuit net.now).inputs }
    requires dump { DumpFits (circuit net.now) choice.now dump.now }
    requires budget { report.now.budgets.steps ≤ MAX_STEPS }
    requires depth { report.now.depth ≡ depth_of choice.now }
    ensures { IfOk result (λ part. part ≡ first_failing (crash_of (recording_of net.now.raw choice.now runs.now) dump.now) (basis_for (crash_of (recording_of net.now.raw choice.now runs.now) dump.now) report.now) report.now) }
{
    let walk = walked(alloc, net, choice, runs, dump, report)?;
    part_after(alloc, net, choice, dump, report, &walk)
}

/// The first part that fails.
fn failing_part(
    alloc: Global,
    net: &Netlist,
    choice: &Choice,
    runs: &Runs,
    dump: &Dump,
    report: &Report,
) -> Result<Option<Part>, NoMemory>
    requires choice { choice.now.width ≡ length (circuit net.now).flops }
    requires runs { runs.now.width ≡ length (circuit net.now).inputs }
    requires dump { DumpFits (circuit net.now) choice.now dump.now }
    requires budget { report.now.budgets.steps ≤ MAX_STEPS }
    ensures { IfOk result (λ part. part ≡ first_failing (crash_of (recording_of net.now.raw choice.now runs.now) dump.now) (basis_for (crash_of (recording_of net.now.raw choice.now runs.now) dump.now) report.now) report.now) }
{
    if report.depth != choice.depth() {
        return Ok(Some(Part::Format));
    }
    part_within(alloc, net, choice, runs, dump, report)
}

/// The finding on a report: it is accepted exactly where it is valid, and otherwise its first part that fails is named
/// (docs/DEFINITIONS.md, "Valid"). The runs are replayed, the candidates are tried by simulation, and the log is checked
/// against the netlist's own clauses; nothing is taken from the solver. A report that is accepted is good.
pub fn audit(
    alloc: Global,
    net: &Netlist,
    choice: &Choice,
    runs: &Runs,
    dump: &Dump,
    report: &Report,
) -> Result<Finding, NoMemory>
    requires choice { choice.now.width ≡ length (circuit net.now).flops }
    requires runs { runs.now.width ≡ length (circuit net.now).inputs }
    requires dump { DumpFits (circuit net.now) choice.now dump.now }
    requires budget { report.now.budgets.steps ≤ MAX_STEPS }
    ensures finding { IfOk result (λ finding. part_of finding ≡ first_failing (crash_of (recording_of net.now.raw choice.now runs.now) dump.now) (basis_for (crash_of (recording_of net.now.raw choice.now runs.now) dump.now) report.now) report.now) }
    ensures good { IfOk result (λ finding. part_of finding ≡ None → IsGood (crash_of (recording_of net.now.raw choice.now runs.now) dump.now) report.now) }
{
    valid_reports_are_good(net, choice, runs);
    let part = failing_part(alloc, net, choice, runs, dump, report)?;
    Ok(finding_of(part))
}
