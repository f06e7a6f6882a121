//! For each hash, the first cycle at which a run leads to a state that has it: before this cycle none does.
ghost use Rattle.std.specs.Prelude.{◌≡◌, ◌<◌, ◌≤◌, ◌+◌, length, nat_eq, OnOk};
ghost use Rattle.std.specs.HashMap.{get};
ghost use Rattle.std.specs.Option.{unwrap_or};
ghost use Rattle.bs_stim.specs.declared.limits.TheConstants.{MAX_CYCLES};
ghost use Rattle.bs_chip.specs.Index.{HasBy, Keeps};
ghost use Rattle.bs_preimage_recorded.specs.Firsts.{AreNoted, HaveBy};

use crate::forward::{NextStateHashes, PresentHashes};
use bs_bits::{List, NoMemory};
use std::alloc::Global;
use std::collections::HashMap;

/// How many hashes of one side are noted when no further cycle is. There are never more than this many and one a run.
/// The bound of an index (`MAX_HASHES` of bs_chip), for the same reason.
const MAX_FIRSTS: usize = 2_097_152;

/// For each hash of the first so many rows, the first row that has it: where the data input is 0, and where it is 1.
#[derive(Drop)]
pub struct Firsts {
    pub low: HashMap<u64, u32>,
    pub high: HashMap<u64, u32>,
    pub cycles: u32,
}

impl Firsts {
    /// The hashes of no row.
    pub fn new(alloc: Global) -> Firsts
        ensures { result.cycles ≡ 0 }
    {
        Firsts {
            low: HashMap::new(alloc),
            high: HashMap::new(alloc),
            cycles: 0,
        }
    }
}

/// The cycle of a hash, or another where it has none.
fn cycle_of(first: &HashMap<u64, u32>, hash: u64, other: u32) -> u32
    ensures { result ≡ unwrap_or (get nat_eq first.now hash) other }
{
    first.get(&hash).copied().unwrap_or(other)
}

/// Notes that a state has a hash at a cycle.
#[tactic(auto, using(bs_chip::proofs::IndexLemmas::keeps_same, bs_chip::proofs::IndexLemmas::keeps_unchanged, bs_chip::proofs::IndexLemmas::put_keeps, bs_chip::proofs::IndexLemmas::put_notes))]
fn note(first: &mut HashMap<u64, u32>, hash: u64, cycle: u32) -> Result<(), NoMemory>
    requires { cycle ≤ MAX_CYCLES }
    ensures keeps { Keeps first.old first.new }
    ensures notes { OnOk result (HasBy first.new hash cycle) }
{
    if cycle_of(first, hash, cycle + 1) <= cycle {
        return Ok(());
    }
    first.insert(hash, cycle)?;
    Ok(())
}

/// Notes the hashes of a cycle.
fn note_all(first: &mut HashMap<u64, u32>, hashes: &[u64], cycle: u32) -> Result<(), NoMemory>
    requires { cycle ≤ MAX_CYCLES }
    ensures keeps { Keeps first.old first.new }
    ensures notes { OnOk result (HaveBy first.new hashes.now cycle (length hashes.now)) }
{
    'hashes: for i in 0..hashes.len() {
        note(first, hashes[i], cycle)?;
    }
    Ok(())
}

/// Whether as many hashes are noted as there may be.
fn is_full(firsts: &Firsts) -> bool {
    firsts.low.len() >= MAX_FIRSTS || firsts.high.len() >= MAX_FIRSTS
}

/// Notes the hashes of a row.
fn note_row(
    low: &mut HashMap<u64, u32>,
    high: &mut HashMap<u64, u32>,
    row: &NextStateHashes,
    cycle: u32,
) -> Result<(), NoMemory>
    requires { cycle ≤ MAX_CYCLES }
    ensures low { Keeps low.old low.new }
    ensures high { Keeps high.old high.new }
    ensures lows { OnOk result (HaveBy low.new row.now.low cycle (length row.now.low)) }
    ensures highs { OnOk result (HaveBy high.new row.now.high cycle (length row.now.high)) }
{
    note_all(low, row.low.slice(), cycle)?;
    note_all(high, row.high.slice(), cycle)
}

/// Notes the hashes of further rows, as long as there are not too many.
pub fn note_rows(firsts: &mut Firsts, rows: &List<NextStateHashes>) -> Result<(), NoMemory>
    requires few { length rows.now ≤ MAX_CYCLES + 1 }
    requires noted { AreNoted firsts.old.low firsts.old.high firsts.old.cycles rows.now }
    ensures { AreNoted firsts.new.low firsts.new.high firsts.new.cycles rows.now }
{
    'rows: for at in firsts.cycles as usize..rows.len() {
        if is_full(firsts) {
            return Ok(());
        }
        note_row(&mut firsts.low, &mut firsts.high, rows.get(at), at as u32)?;
        firsts.cycles = at as u32 + 1;
    }
    Ok(())
}

/// A cycle before which no noted row has a hash of an aim.
pub fn first_of(firsts: &Firsts, aim: PresentHashes) -> u32
    ensures within { result ≤ firsts.now.cycles }
    ensures low { result ≤ unwrap_or (get nat_eq firsts.now.low aim.low) firsts.now.cycles }
    ensures high { result ≤ unwrap_or (get nat_eq firsts.now.high aim.high) firsts.now.cycles }
{
    let low = cycle_of(&firsts.low, aim.low, firsts.cycles);
    let high = cycle_of(&firsts.high, aim.high, firsts.cycles);
    low.min(high).min(firsts.cycles)
}
