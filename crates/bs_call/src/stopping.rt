//! The answer to a walk that stopped: the refusal line, and the note of the same reading.
ghost use Rattle.std.specs.Prelude.{◌≡◌, IfOk, IfSome};
ghost use Rattle.bs_outside.specs.Prepared.{AnswersStop};
ghost use Rattle.bs_outside.specs.Diagnostic.{fault_in, line_stop, note_stop};
ghost use Rattle.bs_call.specs.Note.{Due};
ghost use Rattle.bs_call.specs.Paths.{path_of, paths_in};
ghost use Rattle.bs_call.specs.Stops.{fault_file, RefusedNoted, stop_file, StopNoted, StopNotedBy};

use crate::note::{Note, Response, note_made};
use crate::paths::{Paths, path_of};
use bs_bits::NoMemory;
use bs_note_calls::{long_note, unread_note};
use bs_outside::{Diagnostic, File, JobFault, WalkStop, stopped};
use std::alloc::Global;
use std::io::ErrorKind;

/// A text once more.
fn copied(alloc: Global, text: &[u8]) -> Result<Vec<u8>, NoMemory>
    ensures { IfOk result (λ copy. copy.items ≡ text.now) }
{
    Ok(text.to_vec(alloc)?)
}

/// The text of a note, as the note.
#[tactic(auto, using(crate::proofs::NoteLemmas::text_due))]
fn said(alloc: Global, text: &[u8]) -> Note
    ensures { Due (λ note. note ≡ text.now) result }
{
    note_made(copied(alloc, text))
}

/// The note on a file that is refused for a reason.
#[tactic(auto, using(crate::proofs::NoteLemmas::refused_long, crate::proofs::NoteLemmas::refused_else))]
fn refused_note(alloc: Global, file: File, path: &str, why: &[u8]) -> Note
    ensures { RefusedNoted file path.now why.now result }
{
    if why == b"TooLong".as_slice() {
        Note::Brief(long_note(file, path))
    } else {
        said(alloc, why)
    }
}

/// The note on a stop before the file was read.
#[tactic(auto, using(crate::proofs::NoteLemmas::made_nothing, crate::proofs::NoteLemmas::made_unread, crate::proofs::NoteLemmas::made_refused))]
fn fault_note(alloc: Global, path: &str, kind: Option<ErrorKind>, fault: &JobFault) -> Note
    ensures { StopNotedBy kind (λ _. path.now) fault.now result }
{
    match fault {
        JobFault::NoMemory => Note::Wanting,
        JobFault::Faulted(_) => Note::Brief(unread_note(kind, path)),
        JobFault::Refused(file, why) => refused_note(alloc, *file, path, why),
    }
}

/// The note that a reader's refusal keeps.
#[tactic(auto, using(crate::proofs::NoteLemmas::made_none, crate::proofs::NoteLemmas::made_diagnostic))]
fn diagnostic_note(
    alloc: Global,
    path: &str,
    _kind: Option<ErrorKind>,
    file: File,
    note: &Option<Vec<u8>>,
) -> Note
    ensures { StopNotedBy _kind (λ _. path.now) (fault_in file note.now) result }
{
    match note {
        Some(note) => refused_note(alloc, file, path, note),
        None => Note::Wanting,
    }
}

/// What the line tells, and the note.
fn part(alloc: Global, path: &str, kind: Option<ErrorKind>, stop: WalkStop) -> (JobFault, Note)
    ensures line { result.0 ≡ line_stop stop }
    ensures note { StopNotedBy kind (λ _. path.now) (note_stop stop) result.1 }
{
    match stop {
        WalkStop::Plain(fault) => {
            let note = fault_note(alloc, path, kind, &fault);
            (fault, note)
        }
        WalkStop::Refused(file, diagnostic) => diagnostic_part(alloc, path, kind, file, diagnostic),
    }
}

/// The same of a reader's refusal.
fn diagnostic_part(
    alloc: Global,
    path: &str,
    kind: Option<ErrorKind>,
    file: File,
    diagnostic: Diagnostic,
) -> (JobFault, Note)
    ensures line { result.0 ≡ JobFault.Refused file diagnostic.words }
    ensures note { StopNotedBy kind (λ _. path.now) (fault_in file diagnostic.note) result.1 }
{
    let note = diagnostic_note(alloc, path, kind, file, &diagnostic.note);
    (JobFault::Refused(file, diagnostic.words), note)
}

/// The answer to a stop at the file with this name. `kind` is that of the shelf's last fault.
#[tactic(auto, using(crate::proofs::NoteLemmas::noted_by))]
pub fn stopped_at(
    alloc: Global,
    path: &str,
    kind: Option<ErrorKind>,
    stop: WalkStop,
) -> Result<Response, NoMemory>
    ensures reply { IfOk result (λ answer. AnswersStop (line_stop stop) answer.reply.status answer.reply.text.items) }
    ensures note { IfOk result (λ answer. StopNoted (λ _. path.now) (note_stop stop) answer.note) }
    ensures reason { IfOk result (λ answer. StopNotedBy kind (λ _. path.now) (note_stop stop) answer.note) }
{
    let (fault, note) = part(alloc, path, kind, stop);
    let reply = stopped(alloc, fault)?;
    Ok(Response { reply, note })
}

/// The file at which a walk stopped before it was read, where it is at one.
fn fault_file(fault: &JobFault) -> Option<File>
    ensures { result ≡ fault_file fault.now }
{
    match fault {
        JobFault::NoMemory => None,
        JobFault::Faulted(file) => Some(*file),
        JobFault::Refused(file, _) => Some(*file),
    }
}

/// The file at which a walk stopped, where it is at one.
pub fn stop_file(stop: &WalkStop) -> Option<File>
    ensures { result ≡ stop_file stop.now }
{
    match stop {
        WalkStop::Plain(fault) => fault_file(fault),
        WalkStop::Refused(file, _) => Some(*file),
    }
}

/// The name of that file.
#[tactic(auto, using(crate::proofs::NoteLemmas::path_there, crate::proofs::NoteLemmas::path_none))]
fn stop_path<'a>(paths: &Paths<'a>, stop: &WalkStop) -> &'a str
    ensures { IfSome (stop_file stop.now) (λ file. result.now ≡ path_of (paths_in paths.now) file) }
{
    match stop_file(stop) {
        Some(file) => path_of(paths, file),
        None => "",
    }
}

/// The answer to a stop, by the names of the files of a job. `kind` is that of the shelf's last fault.
pub fn stop_answer(
    alloc: Global,
    paths: &Paths<'_>,
    kind: Option<ErrorKind>,
    stop: WalkStop,
) -> Result<Response, NoMemory>
    ensures reply { IfOk result (λ answer. AnswersStop (line_stop stop) answer.reply.status answer.reply.text.items) }
    ensures note { IfOk result (λ answer. StopNoted (path_of (paths_in paths.now)) (note_stop stop) answer.note) }
    ensures reason { IfOk result (λ answer. StopNotedBy kind (path_of (paths_in paths.now)) (note_stop stop) answer.note) }
{
    let path = stop_path(paths, &stop);
    let answer = stopped_at(alloc, path, kind, stop)?;
    Ok(answer)
}
