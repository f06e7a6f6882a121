//! Notes on files that do not read, on an output that does not take the answer, on a report that is not valid, and on a moment that no
//! run has.
ghost use Rattle.std.specs.Prelude.{◌≡◌, ◌≤◌, ◌++◌, codes, decimal, length, IfOk, OnOk};
ghost use Rattle.bs_outside.specs.PlanFiles.{file_word};
ghost use Rattle.bs_note_calls.specs.Faults.{closed_sentence, cycles_of, cycles_text, IsOutputNote, kind_text, large_text, long_sentence, long_text};
ghost use Rattle.bs_note_calls.specs.Faults.{output_sentence, output_text, partial_text, range_text, rejected_text, unread_text};

use crate::brief::{Brief, brief_on_file, brief_pair, brief_plain};
use crate::reason::{output_reason, unread_reason};
use bs_bits::{NoMemory, push_number, push_piece};
use bs_note_files::{file_note, pair_note};
use bs_outside::File;
use bs_stim::Runs;
use std::alloc::Global;
use std::io::ErrorKind;

/// A note on a file that does not read: its name, and the system's reason where one is known.
pub fn unread_note(kind: Option<ErrorKind>, path: &str) -> Brief
    ensures { result ≡ unread_text path.now kind }
{
    brief_on_file(path, unread_reason(path, kind).as_bytes())
}

/// The end of what is said of a file that is longer than its limit.
fn limit_words(limit: u64) -> Brief
    ensures text { result ≡ codes " may have: " ++ (decimal limit ++ codes "; is it another file, which stands in the wrong place?") }
    ensures short { length result ≤ 96 }
{
    let mut said = Brief::of(b" may have: ");
    said.push_number(limit);
    said.push(b"; is it another file, which stands in the wrong place?");
    said
}

/// What is said of a file of this kind, with such an end.
fn limit_sentence(word: &[u8], end: &[u8]) -> Brief
    requires word { length word.now ≤ 16 }
    requires end { length end.now ≤ 96 }
    ensures text { result ≡ codes "the file has more bytes than a " ++ (word.now ++ end.now) }
    ensures short { length result ≤ 160 }
{
    let mut said = Brief::of(b"the file has more bytes than a ");
    said.push(word);
    said.push(end);
    said
}

/// The word for a file.
#[tactic(auto, using(crate::proofs::WordLemmas::file_words_are_short))]
fn word_of(file: File) -> &'static str
    ensures word { result.now ≡ file_word file }
    ensures short { length result.now ≤ 16 }
{
    file.word()
}

/// What is said of a file that is longer than its limit.
fn long_sentence(file: File) -> Brief
    ensures text { result ≡ long_sentence file }
    ensures short { length result ≤ 160 }
{
    let end = limit_words(file.limit());
    limit_sentence(word_of(file).as_bytes(), end.bytes())
}

/// A note on a file that is longer than its limit.
pub fn long_note(file: File, path: &str) -> Brief
    ensures { result ≡ long_text file path.now }
{
    let said = long_sentence(file);
    brief_on_file(path, said.bytes())
}

/// What is said of an output that did not take a line, after so many.
fn output_sentence(lines: u64, reason: &[u8]) -> Brief
    requires { length reason.now ≤ 64 }
    ensures text { result ≡ output_sentence lines reason.now }
    ensures short { length result ≤ 200 }
{
    let mut said = Brief::of(b"standard output failed after ");
    said.push_number(lines);
    said.push(b" whole lines: ");
    said.push(reason);
    said
}

/// A note on an output that did not take a line for a reason.
fn reason_note(lines: u64, reason: &[u8]) -> Brief
    requires { length reason.now ≤ 64 }
    ensures { result ≡ output_text lines reason.now }
{
    let said = output_sentence(lines, reason);
    brief_pair(
        said.bytes(),
        b"what went out is the front of the answer; send it to a file with room, or let the reader read on",
    )
}

/// What is said of an output that its reader closed.
fn closed_sentence(lines: u64) -> Brief
    ensures text { result ≡ closed_sentence lines }
    ensures short { length result ≤ 100 }
{
    let mut said = Brief::of(b"the reader closed standard output after ");
    said.push_number(lines);
    said.push(b" whole lines");
    said
}

/// A note on an output that did not take a line, by the kind of the error.
fn kind_note(lines: u64, kind: ErrorKind) -> Brief
    ensures { result ≡ kind_text lines kind }
{
    match kind {
        ErrorKind::BrokenPipe => brief_plain(closed_sentence(lines).bytes()),
        _ => reason_note(lines, output_reason(Some(kind)).as_bytes()),
    }
}

/// A note on an output that did not take a line: how many lines it took before, and the system's reason where one is known.
pub fn output_note(lines: u64, kind: Option<ErrorKind>) -> Brief
    ensures { IsOutputNote lines kind result }
{
    match kind {
        Some(kind) => kind_note(lines, kind),
        None => reason_note(lines, output_reason(None).as_bytes()),
    }
}

/// A note on a report that is not valid.
pub fn rejected_note() -> Brief
    ensures { result ≡ rejected_text }
{
    brief_pair(
        b"the line names the first part of the report that fails (docs/FORMATS.md, Validity)",
        b"is the report of these very files, in this order, and unchanged?",
    )
}

/// A note on a report whose trace has too large a waveform.
pub fn large_note(alloc: Global, path: &str) -> Result<Vec<u8>, NoMemory>
    ensures { IfOk result (λ note. note.items ≡ large_text path.now) }
{
    file_note(
        alloc,
        path,
        b"the waveform of this trace has too many values, one for each net at each state: draw a shorter trace",
    )
}

/// A note on a report whose trace is a state that is known in part.
pub fn partial_note(alloc: Global, path: &str) -> Result<Vec<u8>, NoMemory>
    ensures { IfOk result (λ note. note.items ≡ partial_text path.now) }
{
    file_note(
        alloc,
        path,
        b"the trace of this report is the dump alone, of which some flip-flops are not known: no step has a hit",
    )
}

/// The number of cycles of a run, where there is one of that number.
fn cycles_of(runs: &Runs, run: u64) -> Option<u64>
    ensures { result ≡ cycles_of runs.now run }
{
    if run < 1 || run > u64::from(runs.count()) {
        return None;
    }
    Some(u64::from(runs.cycles(run as u32)))
}

/// Appends the number of cycles of a run, where there is one.
fn push_cycles(said: &mut Vec<u8>, cycles: Option<u64>) -> Result<(), NoMemory>
    ensures { OnOk result (said.new.items ≡ said.old.items ++ cycles_text cycles) }
{
    match cycles {
        Some(cycles) => push_count(said, cycles),
        None => Ok(()),
    }
}

/// Appends a number of cycles.
fn push_count(said: &mut Vec<u8>, cycles: u64) -> Result<(), NoMemory>
    ensures { OnOk result (said.new.items ≡ said.old.items ++ (codes "; and this run so many cycles: " ++ decimal cycles)) }
{
    push_piece(said, b"; and this run so many cycles: ")?;
    push_number(said, cycles)
}

/// A note on a moment that no run has.
pub fn range_note(alloc: Global, runs: &Runs, run: u64) -> Result<Vec<u8>, NoMemory>
    ensures { IfOk result (λ note. note.items ≡ range_text runs.now run) }
{
    let mut said = b"there is no such moment: the stimulus has so many runs: ".to_vec(alloc)?;
    push_number(&mut said, u64::from(runs.count()))?;
    push_cycles(&mut said, cycles_of(runs, run))?;
    pair_note(
        alloc,
        &said,
        b"RUN counts from 1 in the order of the file, and CYCLE from 0 up to the number of cycles",
    )
}
