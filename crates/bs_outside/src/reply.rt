//! What stands before the first put: the status, and the whole text that is to be written.
ghost use Rattle.std.specs.Prelude.{◌≡◌, IfOk};
ghost use Rattle.bs_outside.specs.Prepared.{AnswersStop};
ghost use Rattle.bs_outside.specs.Answers.{RefusesWords};
ghost use Rattle.bs_outside.specs.PlanFiles.{refusal_line};

use crate::file::File;
use crate::file_fetch::JobFault;
use crate::status::Status;
use bs_bits::{NoMemory, push_piece};
use std::alloc::Global;

/// A status, and the text that is to be written with it.
#[derive(Drop)]
pub struct Reply {
    pub status: Status,
    pub text: Vec<u8>,
}

/// The line `refused FILE WHY`.
fn refusal_line(alloc: Global, file: File, why: &[u8]) -> Result<Vec<u8>, NoMemory>
    ensures { IfOk result (λ line. line.items ≡ refusal_line file why.now) }
{
    let mut line = Vec::new(alloc);
    push_piece(&mut line, b"refused ")?;
    push_piece(&mut line, file.word().as_bytes())?;
    push_piece(&mut line, b" ")?;
    push_piece(&mut line, why)?;
    push_piece(&mut line, b"\n")?;
    Ok(line)
}

/// The answer of a job that stopped: its refusal line.
pub fn stopped(alloc: Global, stop: JobFault) -> Result<Reply, NoMemory>
    ensures { IfOk result (λ answer. AnswersStop stop answer.status answer.text.items) }
{
    match stop {
        JobFault::NoMemory => Err(NoMemory),
        JobFault::Faulted(file) => refused(alloc, Status::ReadFault, file, b"ReadFault"),
        JobFault::Refused(file, why) => refused(alloc, file.refusal(), file, &why),
    }
}

/// A status with the refusal line of a file.
fn refused(alloc: Global, status: Status, file: File, why: &[u8]) -> Result<Reply, NoMemory>
    ensures status { IfOk result (λ answer. answer.status ≡ status) }
    ensures text { IfOk result (λ answer. answer.text.items ≡ refusal_line file why.now) }
{
    let text = refusal_line(alloc, file, why)?;
    Ok(Reply { status, text })
}

/// The answer to words that are no job.
pub fn refused_words(alloc: Global) -> Result<Reply, NoMemory>
    ensures { IfOk result (λ answer. RefusesWords answer.status answer.text.items) }
{
    Ok(Reply {
        status: Status::Words,
        text: b"refused words\n".to_vec(alloc)?,
    })
}
