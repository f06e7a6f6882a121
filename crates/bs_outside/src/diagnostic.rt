//! What stops a walk over files, and the two texts of its diagnostic.
ghost use Rattle.std.specs.Prelude.{◌≡◌};
ghost use Rattle.bs_outside.specs.Diagnostic.{both_of, lined, made, settled_diagnostic};
ghost use Rattle.bs_outside.specs.declared.diagnostic.WalkStop.TheVariants.{Plain as PlainStop};

use crate::file::File;
use crate::file_fetch::{JobFault, Refusal};
use bs_bits::NoMemory;

/// The diagnostic of a file that its reader refuses.
#[derive(Drop)]
pub struct Diagnostic {
    /// The words behind the file's name in the refusal line.
    pub words: Vec<u8>,
    /// The note for a person, where memory sufficed for one.
    pub note: Option<Vec<u8>>,
}

/// Why a reader gives no value.
#[derive(Drop)]
pub enum Unread {
    NoMemory,
    Refused(Diagnostic),
}

/// Why a walk stops.
#[derive(Drop)]
pub enum WalkStop {
    /// Before the file was read: its fetch failed, it is too long, or memory ran out.
    Plain(JobFault),
    /// Its reader refuses it.
    Refused(File, Diagnostic),
}

impl From<JobFault> for WalkStop {
    ghost from_gives = { λ fault stop. stop ≡ PlainStop fault };

    fn from(fault: JobFault) -> WalkStop {
        WalkStop::Plain(fault)
    }
}

/// A note, where it was made.
fn made(note: Result<Vec<u8>, NoMemory>) -> Option<Vec<u8>>
    ensures { result ≡ made note }
{
    match note {
        Ok(note) => Some(note),
        Err(_) => None,
    }
}

/// The two texts of one refusal. Without memory for the words there is neither.
pub fn both(words: Refusal, note: Result<Vec<u8>, NoMemory>) -> Unread
    ensures { result ≡ both_of words note }
{
    match words {
        Refusal::NoMemory => Unread::NoMemory,
        Refusal::Why(words) => Unread::Refused(Diagnostic {
            words,
            note: made(note),
        }),
    }
}

/// What a reader's answer is to the walk: a refusal is one of this file.
pub fn settle_diagnostic<T>(file: File, read: Result<T, Unread>) -> Result<T, WalkStop>
    ensures { result ≡ settled_diagnostic file read }
{
    match read {
        Ok(value) => Ok(value),
        Err(Unread::NoMemory) => Err(WalkStop::Plain(JobFault::NoMemory)),
        Err(Unread::Refused(diagnostic)) => Err(WalkStop::Refused(file, diagnostic)),
    }
}

/// A walk's answer without its note.
pub fn lined<T>(walked: Result<T, WalkStop>) -> Result<T, JobFault>
    ensures { result ≡ lined walked }
{
    match walked {
        Ok(value) => Ok(value),
        Err(WalkStop::Plain(fault)) => Err(fault),
        Err(WalkStop::Refused(file, diagnostic)) => Err(JobFault::Refused(file, diagnostic.words)),
    }
}
