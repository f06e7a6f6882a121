//! A sink that takes each text and keeps none, for a call that tells nobody.
ghost use Rattle.std.specs.Prelude.{◌≡◌, None};

use crate::sink::{Put, Sink};

/// A sink that takes each text, keeps none, and stays as it is.
#[derive(Drop)]
pub struct Deaf;

impl Sink for Deaf {
    ghost written = { λ _. None };

    ghost faults = { λ _. 0 };

    ghost leads = { λ before _ now. now ≡ before };

    fn put(&mut self, bytes: &[u8]) -> Put {
        let _taken = bytes.len();
        Put::Done
    }
}
