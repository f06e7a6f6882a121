//! An answer, read from its text line by line.
ghost use Rattle.std.specs.Prelude.{◌≡◌, ◌≤◌, ◌^◌, length, IfOk};
ghost use Rattle.bs_bits.specs.Reading.{Answers};
ghost use Rattle.bs_report.specs.declared.fault.ReportFault.TheVariants.{NoMemory as Want};
ghost use Rattle.bs_report.specs.declared.limits.TheConstants.{MAX_REPORT_BYTES};
ghost use Rattle.bs_reach_answer.specs.Reading.{answer_in, nothing_read};
ghost use Rattle.bs_reach_answer.specs.ReadingLaw.{HasAnswerText};

use crate::place::{NextLine, finish, follow};
use bs_bits::{List, whole_line};
use bs_log::Log;
use bs_reach::{Outcome, Reach};
use bs_report::ReportFault;
use std::alloc::Global;

/// The answer before its first line is read.
fn nothing(alloc: Global) -> Reach
    ensures { result ≡ nothing_read }
{
    Reach {
        asked: 0,
        conflicts: 0,
        outcome: Outcome::Unreached,
        states: List::new(alloc),
        inputs: List::new(alloc),
        log: Log::new(alloc),
    }
}

/// The answer whose text this is, read line by line.
fn read_lines(alloc: Global, bytes: &[u8]) -> Result<Reach, ReportFault>
    requires { length bytes.now ≤ MAX_REPORT_BYTES }
    ensures { Answers Want (λ answer. answer) result (answer_in bytes.now) }
{
    let mut answer = nothing(alloc);
    let mut place = NextLine::Title;
    let mut number = 1u64;
    let mut rest = bytes;
    'lines: while let Some((line, behind)) = whole_line(rest) {
        place = follow(alloc, number, place, &mut answer, line)?;
        number += 1;
        rest = behind;
    }
    finish(place, answer, rest)
}

/// The answer whose text this is, or why it is none (docs/FORMATS.md, "The answer of reach"). The widths of bit texts are not
/// looked at.
pub fn read_answer(alloc: Global, bytes: &[u8]) -> Result<Reach, ReportFault>
    requires { length bytes.now ≤ MAX_REPORT_BYTES }
    ensures reads { Answers Want (λ answer. answer) result (answer_in bytes.now) }
    ensures text { IfOk result HasAnswerText }
{
    let answer = read_lines(alloc, bytes)?;
    Ok(answer)
}
