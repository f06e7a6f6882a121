//! A bank of listed states.
ghost use Rattle.std.specs.Prelude.{◌≡◌, ◌<◌, ◌≤◌, ◌*◌, length, map, All, IfOk};
ghost use Rattle.bs_break.specs.Bank.{Banked, Hits, PlaneHits};

use crate::masks::{agreeing, agreeing_with_one};
use crate::places::{places_of, shared_flags};
use bs_bits::NoMemory;
use bs_lanes::Plane;
use bs_scan::HasState;
use std::alloc::Global;
use std::marker::Model;
use std::simd::Simd;

/// States of one width, ready to be compared with many runs at once. The bits that all of them share are compared
/// first. Contracts see the width and the states.
#[derive(Drop)]
pub struct Bank<'a, S: HasState> {
    states: &'a [S],
    width: usize,
    shared: Vec<usize>,
    others: Vec<usize>,
}

impl<'a, S: HasState> Model for Bank<'a, S> {
    ghost use Rattle.std.specs.Prelude.{map};
    ghost use Rattle.bs_break.specs.Bank.{Banked, IsBank};

    ghost Value = { Banked };

    ghost view = { λ bank. record { width = bank.width; states = map S.shown bank.states.now } };

    ghost invariant = { λ bank. IsBank bank.width (map S.shown bank.states.now) bank.shared.items bank.others.items };
}

impl<'a, S: HasState> Bank<'a, S> {
    /// The states, each of which has as many bits as the width says.
    pub fn load(alloc: Global, states: &'a [S], width: usize) -> Result<Bank<'a, S>, NoMemory>
        requires { All (λ listed. length (S.shown listed) ≡ width) states.now }
        ensures { IfOk result (λ bank. bank ≡ record { width = width; states = map S.shown states.now }) }
    {
        let flags = shared_flags(alloc, states, width)?;
        let shared = places_of(alloc, flags.as_slice(), true)?;
        let others = places_of(alloc, flags.as_slice(), false)?;
        Ok(Bank {
            states,
            width,
            shared,
            others,
        })
    }

    /// The live runs, of one word of the planes, whose state is listed. The planes are those of the flip-flops, each of
    /// `wide` words: bit b of word w belongs to run 64w + b + 1. It takes no memory.
    pub fn word_hits(&self, planes: &[u64], wide: usize, word: usize, live: u64) -> u64
        requires word { word < wide }
        requires planes { length planes.now ≡ self.now.width * wide }
        ensures { Hits self.now wide planes.now word live result }
    {
        if self.states.is_empty() {
            return 0;
        }
        let shared = self.shared.as_slice();
        let mask = agreeing(planes, wide, word, shared, self.states[0].state(), live);
        if mask == 0 {
            return 0;
        }
        agreeing_with_one(
            planes,
            wide,
            word,
            self.others.as_slice(),
            self.states,
            mask,
        )
    }
    /// The live runs of all words whose state is listed, of up to four words a plane. Runs beyond the planes are no hits.
    /// It takes no memory.
    pub fn hits(&self, planes: &[u64], wide: usize, live: Plane) -> Plane
        requires wide { wide ≤ 4 }
        requires planes { length planes.now ≡ self.now.width * wide }
        ensures { PlaneHits self.now wide planes.now live result }
    {
        let words = live.to_array();
        let mut hits = [0; 4];
        'words: for word in 0..wide {
            hits[word] = self.word_hits(planes, wide, word, words[word]);
        }
        Simd::from_array(hits)
    }
}
