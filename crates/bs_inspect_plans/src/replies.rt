//! A reply on which there is no note.
ghost use Rattle.std.specs.Prelude.{◌≡◌};
ghost use Rattle.bs_inspect_plans.specs.Said.{silent};

use bs_call::{Note, Response};
use bs_outside::{NoMemory, Reply};

/// A reply on which there is no note.
pub fn silent(reply: Result<Reply, NoMemory>) -> Result<Response, NoMemory>
    ensures { result ≡ silent reply }
{
    match reply {
        Ok(reply) => Ok(Response {
            reply,
            note: Note::Silent,
        }),
        Err(want) => Err(want),
    }
}
