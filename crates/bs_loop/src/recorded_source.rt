//! What a list asks where it is about to be cut: the search among the recorded moments.

use crate::known::{KnownCand, SearchAnswer, known_for};
use bs_bits::{Bits, NoMemory};
use bs_chip::Chip;
use bs_preimage::Source;
use bs_preimage_recorded::Finder;
use bs_report::Cand;
use bs_scan::{Dump, Moment};
use std::alloc::Global;

/// The chip and what searches it, the present with its stored signature and the moment at which it stands, if it is known, how many
/// lemmas a state may cost, and what was answered.
#[derive(Drop)]
pub struct Lookout<'s, 'a, 'p> {
    pub chip: &'s mut Chip<'a>,
    pub finder: &'s mut Finder<'a, 'p>,
    pub now: &'s Dump,
    pub stored: &'s Bits,
    pub at: Option<Moment>,
    pub b: u64,
    pub answer: Option<SearchAnswer>,
}

impl<'s, 'a, 'p> Source for Lookout<'s, 'a, 'p> {
    ghost use Rattle.bs_loop.specs.Lookout.{IsLooking, IsSameLookout, Knows};

    ghost ready = { λ lookout. IsLooking lookout };

    ghost knows = { λ old known new. Knows old known new };

    ghost stays = { λ old new. IsSameLookout old new };

    fn known(&mut self, alloc: Global) -> Result<Option<Cand>, NoMemory> {
        let KnownCand { cand, answer } = known_for(
            alloc,
            self.chip,
            self.finder,
            self.now,
            self.at,
            self.stored,
            self.b,
        )?;
        self.answer = Some(answer);
        Ok(cand)
    }
}
