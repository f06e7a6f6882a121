//! What is said for a person besides a reply.
ghost use Rattle.std.specs.Prelude.{◌≡◌};
ghost use Rattle.bs_call.specs.Note.{note_made};

use bs_bits::NoMemory;
use bs_note_calls::Brief;
use bs_outside::Reply;

/// A note, whole, with its line feeds.
#[derive(Drop)]
pub enum Note {
    /// Nothing is due.
    Silent,
    /// One that takes no memory.
    Brief(Brief),
    Text(Vec<u8>),
    /// Memory ran out while it was made.
    Wanting,
}

/// A reply, and the note on it.
#[derive(Drop)]
pub struct Response {
    pub reply: Reply,
    pub note: Note,
}

/// A note that is due.
pub fn note_made(made: Result<Vec<u8>, NoMemory>) -> Note
    ensures { result ≡ note_made made }
{
    match made {
        Ok(text) => Note::Text(text),
        Err(_) => Note::Wanting,
    }
}
