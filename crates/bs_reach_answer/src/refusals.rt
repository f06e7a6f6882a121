//! The words of a refused answer.
ghost use Rattle.std.specs.Prelude.{◌≡◌, ◌++◌, codes, decimal, IfOk};
ghost use Rattle.bs_report.specs.declared.fault.ReportFault.TheVariants.{NoMemory as ReportWant};
ghost use Rattle.bs_outside.specs.declared.file_fetch.Refusal.TheVariants.{NoMemory as Want};
ghost use Rattle.bs_top_files.specs.Refusals.{HasWords, report_words};

use bs_bits::{NoMemory, push_number, push_piece};
use bs_outside::Refusal;
use bs_report::ReportFault;
use bs_top_files::worded;
use std::alloc::Global;

/// The words of a refused line.
fn line_words(alloc: Global, line: u64) -> Result<Vec<u8>, NoMemory>
    ensures { IfOk result (λ why. why.items ≡ codes "Line " ++ decimal line) }
{
    let mut why = Vec::new(alloc);
    push_piece(&mut why, b"Line ")?;
    push_number(&mut why, line)?;
    Ok(why)
}

/// The refusal of a line.
fn line_refusal(alloc: Global, line: u64) -> Refusal
    ensures { HasWords (codes "Line " ++ decimal line) result }
{
    match line_words(alloc, line) {
        Ok(why) => Refusal::Why(why),
        Err(_) => Refusal::NoMemory,
    }
}

/// Why a text is no answer.
pub fn answer_refusal(alloc: Global, fault: ReportFault) -> Refusal
    ensures why { HasWords (report_words fault) result }
    ensures want { fault ≡ ReportWant → result ≡ Want }
{
    match fault {
        ReportFault::Line(line) => line_refusal(alloc, line),
        ReportFault::Short => worded(alloc, b"Short"),
        ReportFault::Extra => worded(alloc, b"Extra"),
        ReportFault::NoMemory => Refusal::NoMemory,
    }
}
