//! A report, read from its text line by line.
ghost use Rattle.std.specs.Prelude.{◌≡◌, ◌≤◌, ◌^◌, length};
ghost use Rattle.bs_bits.specs.Reading.{Answers};
ghost use Rattle.bs_report.specs.Reading.{nothing_read, report_in};
ghost use Rattle.bs_report.specs.declared.fault.ReportFault.TheVariants.{NoMemory as Want};

use crate::fault::ReportFault;
use crate::limits::MAX_REPORT_BYTES;
use crate::place::{NextLine, finish, follow};
use crate::report::{Budgets, Report, Stop};
use bs_bits::{Bits, List, whole_line};
use bs_log::Log;
use std::alloc::Global;

/// The report before its first line is read.
fn nothing(alloc: Global) -> Report
    ensures { result ≡ nothing_read }
{
    Report {
        depth: 1,
        budgets: Budgets {
            steps: 0,
            candidates: 0,
            conflicts: 0,
        },
        steps: List::new(alloc),
        stop: Stop::Reset,
        states: List::new(alloc),
        inputs: List::new(alloc),
        free: Bits::new(alloc),
        log: Log::new(alloc),
    }
}

/// The report whose text this is, read line by line.
fn read_lines(alloc: Global, bytes: &[u8]) -> Result<Report, ReportFault>
    requires { length bytes.now ≤ MAX_REPORT_BYTES }
    ensures { Answers Want (λ report. report) result (report_in bytes.now) }
{
    let mut report = nothing(alloc);
    let mut place = NextLine::Title;
    let mut number = 1u64;
    let mut rest = bytes;
    'lines: while let Some((line, behind)) = whole_line(rest) {
        place = follow(alloc, number, place, &mut report, line)?;
        number += 1;
        rest = behind;
    }
    finish(&place, report, rest)
}

impl Report {
    /// The report whose text this is, or why it is none (docs/FORMATS.md, "Report"). The widths of bit texts are not
    /// looked at.
    pub fn read(alloc: Global, bytes: &[u8]) -> Result<Report, ReportFault>
        requires { length bytes.now ≤ MAX_REPORT_BYTES }
        ensures { Answers Want (λ report. report) result (report_in bytes.now) }
    {
        read_lines(alloc, bytes)
    }
}
