//! Notes on a text that is no stimulus.
ghost use Rattle.std.specs.Prelude.{◌≡◌, IfOk};
ghost use Rattle.bs_note_files.specs.Flaws.{IsLineNote, IsStartNote};
ghost use Rattle.std.specs.List.{list_all};
ghost use Rattle.bs_note_files.specs.Notes.{IsNoteOn, said};
ghost use Rattle.bs_note_files.specs.Sayings.{count_saying, inputs_saying, is_value, run_form};
ghost use Rattle.bs_note_files.specs.Texts.{IsStimNote};

use crate::flaw::{flaw_note, start_note};
use crate::form::{Message, file_note, note_on, say};
use crate::part::numbered_line;
use crate::width::{bits_in, width_sentence};
use bs_bits::NoMemory;
use bs_stim::StimFault;
use std::alloc::Global;

/// A note on a place at which a line stands with another number of bits than there are data inputs.
fn inputs_note(
    alloc: Global,
    path: &str,
    text: &[u8],
    width: usize,
    start: usize,
    line: &[u8],
) -> Result<Vec<u8>, NoMemory>
    ensures { IfOk result (λ note. IsNoteOn path.now text.now start (inputs_saying width line.now) note.items) }
{
    let said = width_sentence(alloc, bits_in(line), width, b"data input")?;
    let message = Message {
        sentence: &said,
        label: b"data inputs are all input port bits but the clock, in the order of the ports; `.` stands for none",
    };
    let note = note_on(alloc, path, text, start, message)?;
    Ok(note)
}

/// A note on the line with a number that has another number of bits than there are data inputs.
fn width_note(
    alloc: Global,
    path: &str,
    text: &[u8],
    width: usize,
    number: u64,
) -> Result<Vec<u8>, NoMemory>
    ensures { IfOk result (λ note. IsStartNote path.now text.now number (inputs_saying width) note.items) }
{
    let (start, line) = numbered_line(text, number);
    let note = inputs_note(alloc, path, text, width, start, line)?;
    Ok(note)
}

/// What is said of a line where another kind of line is due.
fn count_message(line: &[u8]) -> Message<'static>
    ensures { said result ≡ count_saying line.now }
{
    if line == b"end".as_slice() {
        return say(
            "`end` stands here, and an input line is due",
            "CYCLES of the run's first line is greater than the number of its input lines",
        );
    }
    if line.len() == 0 {
        return say(
            "the text ends inside a run",
            "a run has as many input lines as its CYCLES, and then `end`",
        );
    }
    say(
        "an input line stands here, and `end` is due",
        "CYCLES of the run's first line is less than the number of its input lines, or `end` is missing",
    )
}

/// A note on a line where another kind of line is due.
fn count_note(alloc: Global, path: &str, text: &[u8], number: u64) -> Result<Vec<u8>, NoMemory>
    ensures { IfOk result (λ note. IsStartNote path.now text.now number count_saying note.items) }
{
    let (start, line) = numbered_line(text, number);
    let note = note_on(alloc, path, text, start, count_message(line))?;
    Ok(note)
}

/// Whether a byte is a value that a simulator knows.
fn is_value(byte: u8) -> bool
    ensures { result ≡ is_value byte }
{
    (byte == b'0' || byte == b'1')
        || ((byte == b'x' || byte == b'X') || (byte == b'z' || byte == b'Z'))
}

/// Whether each byte of a line is such a value.
fn are_values(line: &[u8]) -> bool
    ensures { result ≡ list_all is_value line.now }
{
    line.iter().all(|&byte| is_value(byte))
}

/// The form of a line.
fn form_of(line: &[u8]) -> Message<'static>
    ensures { said result ≡ run_form line.now }
{
    let values = are_values(line);
    if values && !(line.len() == 0) {
        return say(
            "a bit of an input is 0 or 1, and x or z stands here",
            "drive each data input from the first cycle on, or write what the chip had",
        );
    }
    say(
        "a run is `run NAME CYCLES`, as many lines of bits, and `end`",
        "this is none of these where it stands",
    )
}

/// A note on the line with a number that is none of a stimulus.
fn form_note(alloc: Global, path: &str, text: &[u8], number: u64) -> Result<Vec<u8>, NoMemory>
    ensures { IfOk result (λ note. IsLineNote path.now text.now number run_form note.items) }
{
    let (start, line) = numbered_line(text, number);
    let note = flaw_note(alloc, path, text, start, line, form_of(line))?;
    Ok(note)
}

/// A note on a text that is no stimulus, with so many data inputs.
pub fn stimulus_note(
    alloc: Global,
    path: &str,
    text: &[u8],
    width: usize,
    fault: StimFault,
) -> Result<Vec<u8>, NoMemory>
    ensures { IfOk result (λ note. IsStimNote path.now text.now width fault note.items) }
{
    match fault {
        StimFault::NoRun => file_note(alloc, path, b"the file has no run"),
        StimFault::Line(number) => form_note(alloc, path, text, u64::from(number)),
        StimFault::Width(number) => width_note(alloc, path, text, width, u64::from(number)),
        StimFault::Count(number) => count_note(alloc, path, text, u64::from(number)),
        StimFault::TooManyRuns(number) => start_note(
            alloc,
            path,
            text,
            u64::from(number),
            say("a stimulus has at most 256 runs", "this is the 257th"),
        ),
        StimFault::TooManyCycles(number) => start_note(
            alloc,
            path,
            text,
            u64::from(number),
            say(
                "a run has at most 65536 cycles",
                "a run begins at reset, and can be neither split nor begun later: shorten the way to the failure, or end the run earlier",
            ),
        ),
        StimFault::NoMemory => file_note(alloc, path, b"memory ran out"),
    }
}
