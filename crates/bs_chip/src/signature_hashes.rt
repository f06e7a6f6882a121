//! The signatures of the recorded states, as hashes by cycle and run: states with another signature are passed over.
ghost use Rattle.std.specs.Prelude.{◌≡◌, ◌<◌, ◌≤◌, ◌+◌, ◌*◌, length, IfOk, MatchOption, OnOk};
ghost use Rattle.bs_net.specs.Netlist.{circuit};
ghost use Rattle.bs_scan.specs.Crash.{recording_of};
ghost use Rattle.bs_stim.specs.declared.limits.TheConstants.{MAX_CYCLES};
ghost use Rattle.bs_chip.specs.Lockstep.{wide_of, IsLongest, IsSamePass, TrackShows};
ghost use Rattle.bs_chip.specs.Hashes.{hash_of};
ghost use Rattle.bs_chip.specs.SignatureHashes.{recorded_by, HaveSignatureHashes, IsNextAlike, IsNextWithHash, AreSignatureHashes, NoneAlike, NoneWithHash};

use crate::hashes::{hash_of, lane_hashes};
use crate::kept_planes::lend;
use crate::lanes::wide_for;
use crate::lockstep::{Pass, step_to, zero_planes};
use crate::parities::put_parities;
use bs_bits::{Bits, List, NoMemory};
use bs_net::Netlist;
use bs_scan::Choice;
use bs_stim::Runs;
use std::alloc::Global;
use std::marker::Model;

/// The signature hashes of all runs at the cycle of a pass, by way of the items' planes.
fn signature_hashes_of(
    alloc: Global,
    pass: &Pass<'_>,
    choice: &Choice,
    items: &mut Vec<u64>,
) -> Result<List<u64>, NoMemory>
    requires width { choice.now.width ≡ length pass.now.circuit.flops }
    requires items { length items.old.items ≡ length choice.now.items * wide_of (length pass.now.runs) }
    ensures items { length items.new.items ≡ length items.old.items }
    ensures signature_hashes { IfOk result (λ signature_hashes. HaveSignatureHashes (recorded_by pass.now choice.now) signature_hashes pass.now.cycle (length pass.now.runs)) }
{
    let wide = pass.wide();
    let _depth = choice.depth();
    put_parities(choice, pass.planes(), wide, items);
    let signature_hashes = lane_hashes(
        alloc,
        items.as_slice(),
        wide,
        choice.items(),
        pass.count(),
    )?;
    Ok(signature_hashes)
}

/// The signature hashes of one more cycle.
fn advance(
    alloc: Global,
    pass: &mut Pass<'_>,
    choice: &Choice,
    items: &mut Vec<u64>,
    signature_hashes: &mut List<List<u64>>,
) -> Result<(), NoMemory>
    requires signature_hashed { AreSignatureHashes (recorded_by pass.old choice.now) pass.old signature_hashes.old }
    requires items { length items.old.items ≡ length choice.now.items * wide_of (length pass.old.runs) }
    requires few { length signature_hashes.old ≤ MAX_CYCLES }
    ensures same { IsSamePass pass.old pass.new }
    ensures items { length items.new.items ≡ length items.old.items }
    ensures signature_hashed { AreSignatureHashes (recorded_by pass.old choice.now) pass.new signature_hashes.new }
    ensures more { OnOk result (length signature_hashes.new ≡ length signature_hashes.old + 1) }
{
    step_to(pass, signature_hashes.len());
    let next = signature_hashes_of(alloc, pass, choice, items)?;
    signature_hashes.push(next)
}

/// The signature hashes of all cycles up to one.
fn reach(
    alloc: Global,
    pass: &mut Pass<'_>,
    choice: &Choice,
    items: &mut Vec<u64>,
    signature_hashes: &mut List<List<u64>>,
    cycle: usize,
) -> Result<(), NoMemory>
    requires signature_hashed { AreSignatureHashes (recorded_by pass.old choice.now) pass.old signature_hashes.old }
    requires items { length items.old.items ≡ length choice.now.items * wide_of (length pass.old.runs) }
    requires few { cycle ≤ MAX_CYCLES }
    ensures same { IsSamePass pass.old pass.new }
    ensures items { length items.new.items ≡ length items.old.items }
    ensures signature_hashed { AreSignatureHashes (recorded_by pass.old choice.now) pass.new signature_hashes.new }
    ensures there { OnOk result (cycle < length signature_hashes.new) }
{
    'cycles: for _ in signature_hashes.len()..cycle + 1 {
        advance(alloc, pass, choice, items, signature_hashes)?;
    }
    Ok(())
}

/// The signature hashes of one more cycle, out of a track that has it, or else by a step.
fn advance_by(
    alloc: Global,
    track: &List<List<u64>>,
    pass: &mut Pass<'_>,
    choice: &Choice,
    items: &mut Vec<u64>,
    signature_hashes: &mut List<List<u64>>,
) -> Result<(), NoMemory>
    requires shows { TrackShows pass.old.circuit pass.old.runs track.now }
    requires signature_hashed { AreSignatureHashes (recorded_by pass.old choice.now) pass.old signature_hashes.old }
    requires items { length items.old.items ≡ length choice.now.items * wide_of (length pass.old.runs) }
    requires few { length signature_hashes.old ≤ MAX_CYCLES }
    ensures same { IsSamePass pass.old pass.new }
    ensures items { length items.new.items ≡ length items.old.items }
    ensures signature_hashed { AreSignatureHashes (recorded_by pass.old choice.now) pass.new signature_hashes.new }
    ensures more { OnOk result (length signature_hashes.new ≡ length signature_hashes.old + 1) }
{
    lend(track, pass, signature_hashes.len());
    advance(alloc, pass, choice, items, signature_hashes)
}

/// The signature hashes of all cycles up to one, out of a track as far as it has them.
fn reach_by(
    alloc: Global,
    track: &List<List<u64>>,
    pass: &mut Pass<'_>,
    choice: &Choice,
    items: &mut Vec<u64>,
    signature_hashes: &mut List<List<u64>>,
    cycle: usize,
) -> Result<(), NoMemory>
    requires shows { TrackShows pass.old.circuit pass.old.runs track.now }
    requires signature_hashed { AreSignatureHashes (recorded_by pass.old choice.now) pass.old signature_hashes.old }
    requires items { length items.old.items ≡ length choice.now.items * wide_of (length pass.old.runs) }
    requires few { cycle ≤ MAX_CYCLES }
    ensures same { IsSamePass pass.old pass.new }
    ensures items { length items.new.items ≡ length items.old.items }
    ensures signature_hashed { AreSignatureHashes (recorded_by pass.old choice.now) pass.new signature_hashes.new }
{
    'cycles: for _ in signature_hashes.len()..cycle + 1 {
        advance_by(alloc, track, pass, choice, items, signature_hashes)?;
    }
    Ok(())
}

/// The first run behind a number that lasts to a cycle and has a signature hash there.
fn next_with_hash(
    pass: &Pass<'_>,
    signature_hashes: &[u64],
    cycle: u32,
    hash: u64,
    from: u32,
) -> Option<u32>
    requires size { length signature_hashes.now ≡ length pass.now.runs }
    ensures { MatchOption result (NoneWithHash pass.now.runs signature_hashes.now cycle hash from (length pass.now.runs)) (IsNextWithHash pass.now.runs signature_hashes.now cycle hash from) }
{
    'runs: for lane in from..pass.count() {
        if signature_hashes[lane as usize] == hash && cycle <= pass.cycles(lane + 1) {
            return Some(lane + 1);
        }
    }
    None
}

/// The signatures of the states of all runs, made cycle by cycle as they are asked for: 8 bytes for a run and a cycle.
/// Contracts see the recording.
#[derive(Drop)]
pub struct SignatureHashes<'a> {
    pass: Pass<'a>,
    choice: &'a Choice,
    items: Vec<u64>,
    signature_hashes: List<List<u64>>,
}

impl<'a> Model for SignatureHashes<'a> {
    ghost use Rattle.bs_scan.specs.Crash.{Recording};
    ghost use Rattle.std.specs.Prelude.{◌≡◌, ◌*◌, length};
    ghost use Rattle.bs_chip.specs.Lockstep.{wide_of};
    ghost use Rattle.bs_chip.specs.SignatureHashes.{recorded_by, AreSignatureHashes};

    ghost Value = { Recording };

    ghost view = { λ s. recorded_by s.pass s.choice.now };

    ghost invariant = { λ s. AreSignatureHashes (recorded_by s.pass s.choice.now) s.pass s.signature_hashes × (length s.items.items ≡ length s.choice.now.items * wide_of (length s.pass.runs)) };
}

impl<'a> SignatureHashes<'a> {
    /// The signatures of no cycle yet, of a netlist with a signature and runs of its widths.
    pub fn new(
        alloc: Global,
        net: &'a Netlist,
        choice: &'a Choice,
        runs: &'a Runs,
    ) -> Result<SignatureHashes<'a>, NoMemory>
        requires states { choice.now.width ≡ length (circuit net.now).flops }
        requires inputs { runs.now.width ≡ length (circuit net.now).inputs }
        ensures { IfOk result (λ signature_hashes. signature_hashes ≡ recording_of net.now.raw choice.now runs.now) }
    {
        let _order = net.order();
        let _depth = choice.depth();
        let _count = runs.count();
        let items = zero_planes(alloc, choice.items(), wide_for(runs))?;
        let pass = Pass::new(alloc, net, runs)?;
        Ok(SignatureHashes {
            pass,
            choice,
            items,
            signature_hashes: List::new(alloc),
        })
    }

    /// The number of runs.
    pub fn runs(&self) -> u32
        ensures { result ≡ length self.now.runs }
    {
        self.pass.count()
    }

    /// The number of cycles of the longest run.
    pub fn longest(&self) -> u32
        ensures all { IsLongest self.now.runs result }
        ensures few { result ≤ MAX_CYCLES }
    {
        self.pass.longest()
    }

    /// Makes the signatures of the cycles up to one, out of a track as far as it has them.
    pub(crate) fn follow(
        &mut self,
        alloc: Global,
        track: &List<List<u64>>,
        cycle: u32,
    ) -> Result<(), NoMemory>
        requires shows { TrackShows self.old.circuit self.old.runs track.now }
        requires few { cycle ≤ MAX_CYCLES }
        ensures kept { self.new ≡ self.old }
    {
        reach_by(
            alloc,
            track,
            &mut self.pass,
            self.choice,
            &mut self.items,
            &mut self.signature_hashes,
            cycle as usize,
        )
    }

    /// The first run behind a number that lasts to a cycle and whose state there may have a signature: the hashes are the same.
    /// None where no run behind the number is in a state with the signature. Runs are numbered from 1, and cycles from 0.
    pub fn next_alike(
        &mut self,
        alloc: Global,
        stored: &Bits,
        cycle: u32,
        from: u32,
    ) -> Result<Option<u32>, NoMemory>
        requires { cycle ≤ MAX_CYCLES }
        ensures alike { IfOk result (λ found. MatchOption found (NoneAlike self.old stored.now cycle from (length self.old.runs)) (IsNextAlike self.old stored.now cycle from)) }
        ensures kept { self.new ≡ self.old }
    {
        let next = self.next_by_hash(alloc, stored, hash_of(stored), cycle, from)?;
        Ok(next)
    }

    /// The same, where the hash of the signature is at hand.
    pub fn next_by_hash(
        &mut self,
        alloc: Global,
        stored: &Bits,
        hash: u64,
        cycle: u32,
        from: u32,
    ) -> Result<Option<u32>, NoMemory>
        requires few { cycle ≤ MAX_CYCLES }
        requires hash { hash ≡ hash_of stored.now }
        ensures alike { IfOk result (λ found. MatchOption found (NoneAlike self.old stored.now cycle from (length self.old.runs)) (IsNextAlike self.old stored.now cycle from)) }
        ensures kept { self.new ≡ self.old }
    {
        reach(
            alloc,
            &mut self.pass,
            self.choice,
            &mut self.items,
            &mut self.signature_hashes,
            cycle as usize,
        )?;
        let signature_hashes = self.signature_hashes.get(cycle as usize).slice();
        let next = next_with_hash(&self.pass, signature_hashes, cycle, hash, from);
        Ok(next)
    }
}
