//! The evidence for a list of a report, or for all of them.
ghost use Rattle.std.specs.Prelude.{◌≡◌, ◌≤◌, length, Some, None, IfOk, IfSome};
ghost use Rattle.bs_net.specs.Netlist.{circuit};
ghost use Rattle.bs_encode.specs.Depth.{encoding_by};
ghost use Rattle.bs_encode.specs.Listing.{IsTidy};
ghost use Rattle.bs_report.specs.declared.limits.TheConstants.{MAX_STEPS};
ghost use Rattle.bs_log.specs.Walk.{IsOneOf};
ghost use Rattle.bs_evidence.specs.Evidence.{problem_for, is_there, HasFit, IsEvidence, IsFitOr, IsLogEvidence, IsMissing};

use crate::assumed::{assumptions, encoding};
use crate::fits::misfit;
use crate::flaw::{Evidence, Flaw};
use crate::logged::{Logged, log_evidence};
use bs_bits::{List, NoMemory};
use bs_clause::Lits;
use bs_encode::Encoding;
use bs_net::Netlist;
use bs_report::Report;
use bs_scan::Choice;
use std::alloc::Global;

/// Which text is asked for.
#[derive(Clone, Copy)]
pub enum Format {
    /// The clauses, as DIMACS text.
    Clauses,
    /// The proof, as LRAT text.
    Proof,
}

/// The evidence for what is asked for of a report, over the encoding's clauses.
fn encoded_evidence(
    alloc: Global,
    kind: Format,
    net: &Netlist,
    choice: &Choice,
    encoding: &Encoding,
    report: &Report,
    asked: Option<u64>,
) -> Result<Evidence, NoMemory>
    requires value { encoding.now ≡ encoding_by (circuit net.now) choice.now }
    requires tidy { IsTidy (circuit net.now) choice.now encoding.now }
    requires few { report.now.budgets.steps ≤ MAX_STEPS }
    requires fits { HasFit (circuit net.now) choice.now report.now }
    requires there { IfSome asked (IsOneOf (length report.now.steps)) }
    ensures { IfOk result (IsLogEvidence kind (problem_for (circuit net.now) choice.now report.now) report.now.log asked) }
{
    let _depth = choice.depth();
    match assumptions(alloc, encoding, report.steps.slice()) {
        Ok(assumptions) => {
            let logged = Logged {
                vars: encoding.vars(),
                clauses: encoding.clauses(),
                steps: &assumptions,
                log: &report.log,
            };
            let evidence = log_evidence(alloc, kind, &logged, asked);
            drop(assumptions);
            evidence
        }
        Err(want) => Err(want),
    }
}

/// The evidence for what is asked for of a report that has it.
fn report_evidence(
    alloc: Global,
    kind: Format,
    net: &Netlist,
    choice: &Choice,
    report: &Report,
    asked: Option<u64>,
) -> Result<Evidence, NoMemory>
    requires choice { choice.now.width ≡ length (circuit net.now).flops }
    requires few { report.now.budgets.steps ≤ MAX_STEPS }
    requires fits { HasFit (circuit net.now) choice.now report.now }
    requires there { IfSome asked (IsOneOf (length report.now.steps)) }
    ensures { IfOk result (IsLogEvidence kind (problem_for (circuit net.now) choice.now report.now) report.now.log asked) }
{
    match encoding(alloc, net, choice) {
        Ok(encoding) => {
            let evidence = encoded_evidence(alloc, kind, net, choice, &encoding, report, asked);
            drop(encoding);
            evidence
        }
        Err(want) => Err(want),
    }
}

/// Why a report does not fit, or `None` where it does.
fn unfit(net: &Netlist, choice: &Choice, report: &Report) -> Option<Flaw>
    ensures { IsFitOr (circuit net.now) choice.now report.now result }
{
    if report.depth != choice.depth() {
        return Some(Flaw::Format);
    }
    if report.steps.len() as u64 > report.budgets.steps {
        return Some(Flaw::Stop);
    }
    misfit(
        net.width(),
        choice.items(),
        choice.depth(),
        report.steps.slice(),
    )
}

/// Whether what is asked for is all that a log finishes, or one of so many steps.
pub(crate) fn is_there(count: u64, asked: Option<u64>) -> bool
    ensures { result ≡ is_there count asked }
{
    match asked {
        Some(step) => 1 <= step && step <= count,
        None => true,
    }
}

/// Why a report has not what is asked for, or `None` where it has.
fn missing(net: &Netlist, choice: &Choice, report: &Report, asked: Option<u64>) -> Option<Flaw>
    ensures { IsMissing (circuit net.now) choice.now report.now asked result }
{
    match unfit(net, choice, report) {
        Some(flaw) => Some(flaw),
        None => {
            if is_there(report.steps.len() as u64, asked) {
                None
            } else {
                Some(Flaw::NoStep)
            }
        }
    }
}

/// The evidence for what is asked for of a report, or why there is none.
fn evidence(
    alloc: Global,
    kind: Format,
    net: &Netlist,
    choice: &Choice,
    report: &Report,
    asked: Option<u64>,
) -> Result<Evidence, NoMemory>
    requires choice { choice.now.width ≡ length (circuit net.now).flops }
    requires few { report.now.budgets.steps ≤ MAX_STEPS }
    ensures { IfOk result (IsEvidence kind (circuit net.now) choice.now report.now asked) }
{
    match missing(net, choice, report, asked) {
        Some(flaw) => Ok(Evidence::Flawed(flaw)),
        None => report_evidence(alloc, kind, net, choice, report, asked),
    }
}

/// The evidence for the list of a step of a report, counted from 1: the text that is asked for, or why there is none.
pub fn evidence_of(
    alloc: Global,
    kind: Format,
    net: &Netlist,
    choice: &Choice,
    report: &Report,
    step: u64,
) -> Result<Evidence, NoMemory>
    requires choice { choice.now.width ≡ length (circuit net.now).flops }
    requires few { report.now.budgets.steps ≤ MAX_STEPS }
    ensures { IfOk result (IsEvidence kind (circuit net.now) choice.now report.now (Some step)) }
{
    evidence(alloc, kind, net, choice, report, Some(step))
}

/// The evidence for all finished lists of a report at once: the text that is asked for, or why there is none.
pub fn evidence_for(
    alloc: Global,
    kind: Format,
    net: &Netlist,
    choice: &Choice,
    report: &Report,
) -> Result<Evidence, NoMemory>
    requires choice { choice.now.width ≡ length (circuit net.now).flops }
    requires few { report.now.budgets.steps ≤ MAX_STEPS }
    ensures { IfOk result (IsEvidence kind (circuit net.now) choice.now report.now None) }
{
    evidence(alloc, kind, net, choice, report, None)
}
