//! Notes on a text that is no report.
ghost use Rattle.std.specs.Prelude.{◌≡◌, IfOk};
ghost use Rattle.bs_note_files.specs.Flaws.{IsLineNote};
ghost use Rattle.bs_note_files.specs.Notes.{said};
ghost use Rattle.bs_note_files.specs.Sayings.{report_form};
ghost use Rattle.bs_note_files.specs.Texts.{IsReportNote};

use crate::flaw::flaw_note;
use crate::form::{Message, file_note, note_on, say};
use crate::part::numbered_line;
use bs_bits::NoMemory;
use bs_report::ReportFault;
use std::alloc::Global;

/// What is said of a line that is not of a form of its place.
fn form_of(line: &[u8]) -> Message<'static>
    ensures { said result ≡ report_form line.now }
{
    if line.starts_with(b"reach ".as_slice()) {
        return say(
            "this is an answer of `reach`, and no report",
            "`backspace_inspect trace NETLIST REPORT` shows it",
        );
    }
    say(
        "this line is not of a form that its place in a report allows",
        "a report is what `run` writes, unchanged (docs/FORMATS.md, Report)",
    )
}

/// A note on the line with a number that is not of a form of its place.
fn form_note(alloc: Global, path: &str, text: &[u8], number: u64) -> Result<Vec<u8>, NoMemory>
    ensures { IfOk result (λ note. IsLineNote path.now text.now number report_form note.items) }
{
    let (start, line) = numbered_line(text, number);
    let note = flaw_note(alloc, path, text, start, line, form_of(line))?;
    Ok(note)
}

/// A note on a text that is no report.
pub fn report_note(
    alloc: Global,
    path: &str,
    text: &[u8],
    fault: ReportFault,
) -> Result<Vec<u8>, NoMemory>
    ensures { IfOk result (λ note. IsReportNote path.now text.now fault note.items) }
{
    match fault {
        ReportFault::Line(number) => form_note(alloc, path, text, number),
        ReportFault::Short => note_on(
            alloc,
            path,
            text,
            text.len(),
            say(
                "the text ends before the line `end` of a report is whole",
                "was the report cut short, as by a full disk?",
            ),
        ),
        ReportFault::Extra => file_note(
            alloc,
            path,
            b"bytes follow the line `end` of the report: a file holds one report and nothing else",
        ),
        ReportFault::NoMemory => file_note(alloc, path, b"memory ran out"),
    }
}
