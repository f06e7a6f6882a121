//! The log of a report: what it is checked against, and the lines of each step.
ghost use Rattle.std.specs.Prelude.{◌≡◌, ◌+◌, ◌<◌, ◌^◌, true, length, map, option_map, IfOk};
ghost use Rattle.bs_encode.specs.Assuming.{assumptions_for, steps_from, AreWide};
ghost use Rattle.bs_encode.specs.Tables.{lit};
ghost use Rattle.bs_log.specs.FirstRefused.{first_refused};
ghost use Rattle.bs_rup.specs.Verdict.{refused_by};
ghost use Rattle.bs_report.specs.Chain.{present_of};
ghost use Rattle.bs_report.specs.Valid.{each_step, first_of_all, log_parts};
ghost use Rattle.bs_audit.specs.Logged.{basis_with, lines_parts, refused_part, AreFit, Suits};
ghost use Rattle.bs_audit.specs.StepLines.{undeleted};

use crate::blocks::are_right_blocks;
use crate::candidates::number;
use crate::list_end::is_right_end;
use crate::step_lines::split_step;
use bs_bits::{Bits, List, NoMemory};
use bs_clause::{Lit, Lits, Var};
use bs_encode::Encoding;
use bs_log::Line;
use bs_report::{Budgets, Part, Report, Step};
use bs_rup::{Verdict, check};
use std::alloc::Global;

/// The activation literal of a step, counted from 0.
fn activation_of(encoding: &Encoding, i: usize) -> Lit
    requires { encoding.now.variables + (i + 1) < 2 ^ 30 }
    ensures { result ≡ lit (encoding.now.variables + (i + 1)) true }
{
    Lit::new(Var(encoding.vars() + (i as u32 + 1)), true)
}

/// The signature, lent, if there is one.
fn lent(signature: &Option<Bits>) -> Option<&Bits>
    ensures { option_map (λ bits. bits.now) result ≡ signature.now }
{
    match signature {
        None => None,
        Some(bits) => Some(bits),
    }
}

/// What a step assumes.
fn assumed(
    alloc: Global,
    encoding: &Encoding,
    activation: Lit,
    step: &Step,
) -> Result<Lits, NoMemory>
    requires present { length step.now.present.bits ≡ length encoding.now.next }
    requires stored { length step.now.stored ≡ length encoding.now.signatures }
    requires older { AreWide (length encoding.now.older_signatures) step.now.older }
    ensures { IfOk result (λ l. l ≡ assumptions_for encoding.now activation (present_of step.now)) }
{
    let older = lent(&step.older);
    encoding.assumptions(alloc, activation, &step.present, &step.stored, older)
}

/// What each step assumes.
pub fn assumptions(
    alloc: Global,
    encoding: &Encoding,
    steps: &[Step],
) -> Result<List<Lits>, NoMemory>
    requires sound { AreFit encoding.now steps.now }
    requires next { length encoding.now.next ≡ length encoding.now.states }
    requires room { encoding.now.variables + length steps.now < 2 ^ 30 }
    ensures { IfOk result (λ l. l ≡ steps_from encoding.now 1 (map present_of steps.now)) }
{
    let mut all = List::new(alloc);
    'steps: for i in 0..steps.len() {
        let activation = activation_of(encoding, i);
        all.push(assumed(alloc, encoding, activation, &steps[i])?)?;
    }
    Ok(all)
}

/// The part of a step, counted from 0, that fails first against its lines.
fn wrong_lines(
    alloc: Global,
    encoding: &Encoding,
    width: usize,
    budgets: &Budgets,
    i: usize,
    step: &Step,
    assumptions: &[Lit],
    lines: &[Line],
) -> Result<Option<Part>, NoMemory>
    requires width { width ≡ length encoding.now.states }
    requires room { encoding.now.variables + (i + 1) < 2 ^ 30 }
    requires sound { Suits encoding.now step.now }
    ensures { IfOk result (λ part. part ≡ first_of_all (lines_parts encoding.now assumptions.now budgets.now.conflicts i step.now (undeleted lines.now))) }
{
    let activation = activation_of(encoding, i);
    if !are_right_blocks(
        alloc,
        encoding,
        width,
        activation,
        step.cands.slice(),
        lines,
    )? {
        return Ok(Some(Part::Blocks(number(i))));
    }
    if !is_right_end(alloc, budgets.conflicts, assumptions, lines, step.end)? {
        return Ok(Some(Part::Ended(number(i))));
    }
    Ok(None)
}

/// The first part of the steps that fails against the log.
pub fn wrong_log(
    alloc: Global,
    encoding: &Encoding,
    width: usize,
    report: &Report,
    assumptions: &List<Lits>,
) -> Result<Option<Part>, NoMemory>
    requires width { width ≡ length encoding.now.states }
    requires room { encoding.now.variables + length report.now.steps < 2 ^ 30 }
    requires sound { AreFit encoding.now report.now.steps }
    requires assumptions { length assumptions.now ≡ length report.now.steps }
    ensures { IfOk result (λ part. part ≡ first_of_all (each_step (log_parts (basis_with encoding.now assumptions.now) report.now) 0 report.now.steps)) }
{
    let mut rest = report.log.slice();
    'steps: for i in 0..report.steps.len() {
        let (lines, behind) = split_step(rest);
        let own = assumptions.get(i).slice();
        match wrong_lines(
            alloc,
            encoding,
            width,
            &report.budgets,
            i,
            report.steps.get(i),
            own,
            lines,
        )? {
            Some(part) => return Ok(Some(part)),
            None => rest = behind,
        }
    }
    Ok(None)
}

/// The part of a verdict's refused line.
fn part_of(verdict: Verdict) -> Option<Part>
    ensures { result ≡ refused_part (refused_by verdict) }
{
    match verdict {
        Verdict::Accepted => None,
        Verdict::Rejected { line, why } => Some(Part::Log(line, why)),
    }
}

/// The first refused line of the log, checked over the encoding's clauses and the steps' assumptions.
pub fn refused_line(
    alloc: Global,
    encoding: &Encoding,
    report: &Report,
    assumptions: &List<Lits>,
) -> Result<Option<Part>, NoMemory>
    requires { encoding.now.variables + length assumptions.now < 2 ^ 30 }
    ensures { IfOk result (λ part. part ≡ refused_part (first_refused (basis_with encoding.now assumptions.now).problem report.now.log)) }
{
    let verdict = check(
        alloc,
        encoding.vars(),
        encoding.clauses(),
        assumptions,
        &report.log,
    )?;
    Ok(part_of(verdict))
}
