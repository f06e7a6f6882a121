//! The index of states: a cycle before which no run is in a listed state, by the hashes of the states of the first
//! cycles. It only says where a look may begin; whether a state is listed is for the bank to say.
ghost use Rattle.std.specs.Prelude.{◌≡◌, ◌≤◌, ◌+◌, ◌-◌, ◌^◌, length, min, All, OnOk};
ghost use Rattle.std.specs.HashMap.{hash_map_len};
ghost use Rattle.bs_chip.specs.Index.{looks, price_of, HasNoneBefore, IsNoted, IsPaid, IsSpent, NotesCycles, NotesFirsts};
ghost use Rattle.bs_chip.specs.Lockstep.{TrackShows};
ghost use Rattle.bs_chip.specs.Hashes.{hash_of};

use crate::hash_cycles::cycle_of;
use crate::hashes::hash_of;
use crate::lockstep::Pass;
use bs_bits::{List, NoMemory};
use bs_scan::{HasState, Moment};
use std::alloc::Global;
use std::collections::HashMap;

/// How many hashes an index has when it takes no more cycles. It never has more than this many and one a run.
/// So an index takes little memory beside the planes that are kept (`MAX_TRACK_BYTES`).
pub const MAX_HASHES: usize = 2_097_152;

/// For each hash of a state of the first so many cycles, the first of these cycles at which a state has it.
#[derive(Drop)]
pub struct Index {
    pub first: HashMap<u64, u32>,
    pub cycles: u32,
}

impl Index {
    /// An index of no cycles.
    pub fn new(alloc: Global) -> Index
        ensures cycles { result.cycles ≡ 0 }
        ensures none { hash_map_len result.first ≡ 0 }
    {
        Index {
            first: HashMap::new(alloc),
            cycles: 0,
        }
    }
}

/// A cycle before which no state of a list has a hash: the least cycle that a state of the list has in the index, or the
/// number of its cycles.
pub fn start<S: HasState>(index: &Index, list: &[S]) -> usize
    ensures within { result ≤ index.now.cycles }
    ensures before { All (λ listed. HasNoneBefore index.now.first result (hash_of (S.shown listed))) list.now }
    ensures noted { IsNoted index.now.first index.now.cycles result (λ listed. hash_of (S.shown listed)) list.now }
{
    let mut from = index.cycles;
    'states: for i in 0..list.len() {
        let hash = hash_of(list[i].state());
        from = from.min(cycle_of(&index.first, hash, from));
    }
    from as usize
}

/// Notes further cycles of a track, as many as a credit pays for: the number of cycles that were looked at so far and not
/// paid with yet. It ends before, where there are as many hashes as there may be.
pub fn grow(
    index: &mut Index,
    pass: &Pass<'_>,
    track: &List<List<u64>>,
    width: usize,
    credit: &mut u64,
) -> Result<(), NoMemory>
    requires width { width ≡ length pass.now.circuit.flops }
    requires shows { TrackShows pass.now.circuit pass.now.runs track.now }
    requires notes { NotesCycles pass.now.circuit pass.now.runs index.old.first index.old.cycles }
    requires firsts { NotesFirsts pass.now.circuit pass.now.runs index.old.first }
    requires bound { hash_map_len index.old.first ≤ MAX_HASHES + length pass.now.runs }
    ensures notes { NotesCycles pass.now.circuit pass.now.runs index.new.first index.new.cycles }
    ensures firsts { NotesFirsts pass.now.circuit pass.now.runs index.new.first }
    ensures bound { hash_map_len index.new.first ≤ MAX_HASHES + length pass.now.runs }
    ensures paid { IsPaid (price_of width (length pass.now.runs)) credit.old credit.new index.old.cycles index.new.cycles }
    ensures spent { OnOk result (IsSpent (price_of width (length pass.now.runs)) credit.new (length track.now) index.new.cycles (hash_map_len index.new.first)) }
{
    let price = pass.price(width);
    'cycles: for at in index.cycles as usize..track.len() {
        if *credit < price || index.first.len() >= MAX_HASHES {
            return Ok(());
        }
        pass.note(&mut index.first, track.get(at).slice(), width, at as u32)?;
        *credit -= price;
        index.cycles = at as u32 + 1;
    }
    Ok(())
}

/// How many kept cycles, from one on, were looked at: all of them, or those up to the moment that was found.
fn looks(from: usize, kept: usize, found: Option<Moment>) -> usize
    requires { from ≤ kept }
    ensures { result ≡ looks from kept found }
{
    match found {
        None => kept - from,
        Some(moment) => kept.min(moment.cycle as usize + 1).saturating_sub(from),
    }
}

/// A credit after a look: more by the number of kept cycles that were looked at, as far as it can be more.
pub fn credited(credit: u64, from: usize, kept: usize, found: Option<Moment>) -> u64
    requires { from ≤ kept }
    ensures { result ≡ min (credit + looks from kept found) (2 ^ 64 - 1) }
{
    credit.saturating_add(looks(from, kept, found) as u64)
}
