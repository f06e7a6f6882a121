//! What a search keeps for the next one: the signatures of recorded states, where they lead, and the private solver.
ghost use Rattle.std.specs.Prelude.{◌≡◌, ◌≤◌, [], false, length, option_map, IfOk, IfSome, MatchOption};
ghost use Rattle.bs_scan.specs.Moments.{IsMoment, moment, run_of, state_at};
ghost use Rattle.bs_stim.specs.declared.limits.TheConstants.{MAX_CYCLES};
ghost use Rattle.bs_preimage_recorded.specs.Forward.{IsAim, LeadsNowhere};
ghost use Rattle.bs_chip.specs.Hashes.{hash_of};
ghost use Rattle.bs_chip.specs.Lockstep.{IsLongest, ShowsCycle};
ghost use Rattle.bs_chip.specs.SignatureHashes.{IsNextAlike, NoneAlike};
ghost use Rattle.bs_preimage.specs.Probe.{IsProbed};
ghost use Rattle.bs_preimage_recorded.specs.Finder.{IsAsking, LeadsAway, LeadsPast, NonePassBefore, StartsBy};

use crate::forward::{Forward, PresentHashes};
use crate::own::own_way;
use bs_bits::{Bits, NoMemory};
use bs_chip::{Chip, SignatureHashes, hash_of};
use bs_preimage::{Probe, Probed};
use bs_scan::Seen;
use std::alloc::Global;
use std::marker::Model;

/// What is asked: which recorded state leads to the present one and agrees with the stored signature and the older one, with
/// at most `b` lemmas a state.
#[derive(Clone, Copy)]
pub struct Query<'a> {
    pub present: &'a Seen,
    pub stored: &'a Bits,
    pub older: Option<&'a Bits>,
    pub b: u64,
}

/// Whether the state of a moment is a predecessor, by a search.
fn ask_probe(
    alloc: Global,
    chip: &mut Chip<'_>,
    probe: &mut Probe<'_>,
    query: &Query<'_>,
    run: u32,
    cycle: u32,
) -> Result<Probed, NoMemory>
    requires there { IsMoment chip.old.recording.runs (moment run cycle) }
    requires prober { probe.old ≡ record { circuit = chip.old.recording.circuit; choice = chip.old.recording.choice } }
    requires asking { IsAsking chip.old.recording query.now.present.now query.now.stored.now (option_map (λ bits. bits.now) query.now.older) query.now.b }
    ensures said { IfOk result (IsProbed chip.old.recording.circuit chip.old.recording.choice query.now.present.now query.now.stored.now (option_map (λ bits. bits.now) query.now.older) (state_at chip.old.recording.circuit (run_of chip.old.recording.runs run) cycle) query.now.b) }
    ensures chip { chip.new ≡ chip.old }
    ensures probe { probe.new ≡ probe.old }
{
    let dump = chip.dump_at(alloc, run, cycle)?;
    let said = probe.ask(
        alloc,
        query.present,
        query.stored,
        query.older,
        &dump.state.bits,
        query.b,
    )?;
    Ok(said)
}

/// Whether the state of a moment is a predecessor. Nothing is searched where the run itself shows it.
fn ask_moment(
    alloc: Global,
    chip: &mut Chip<'_>,
    probe: &mut Probe<'_>,
    query: &Query<'_>,
    run: u32,
    cycle: u32,
) -> Result<Probed, NoMemory>
    requires there { IsMoment chip.old.recording.runs (moment run cycle) }
    requires prober { probe.old ≡ record { circuit = chip.old.recording.circuit; choice = chip.old.recording.choice } }
    requires asking { IsAsking chip.old.recording query.now.present.now query.now.stored.now (option_map (λ bits. bits.now) query.now.older) query.now.b }
    ensures said { IfOk result (IsProbed chip.old.recording.circuit chip.old.recording.choice query.now.present.now query.now.stored.now (option_map (λ bits. bits.now) query.now.older) (state_at chip.old.recording.circuit (run_of chip.old.recording.runs run) cycle) query.now.b) }
    ensures chip { chip.new ≡ chip.old }
    ensures probe { probe.new ≡ probe.old }
{
    chip.is_recording();
    match own_way(alloc, chip, query, run, cycle)? {
        Some(cand) => Ok(Probed::Predecessor(cand)),
        None => ask_probe(alloc, chip, probe, query, run, cycle),
    }
}

/// What recorded states that lead to a present are looked up by, if it is known where they lead.
fn aim_of(forward: &Option<Forward<'_>>, present: &Bits) -> PresentHashes
    requires { IfSome forward.now (λ f. length present.now ≡ length f.circuit.flops) }
    ensures { IfSome forward.now (λ f. IsAim f present.now result) }
{
    match forward {
        None => PresentHashes { low: 0, high: 0 },
        Some(forward) => forward.aim(present),
    }
}

/// Whether the state of a moment may lead to a present. It is seen out of what the chip keeps, as far as that goes.
fn may_lead_in(
    alloc: Global,
    chip: &Chip<'_>,
    forward: &mut Forward<'_>,
    present: &Bits,
    aim: PresentHashes,
    run: u32,
    cycle: u32,
) -> Result<bool, NoMemory>
    requires circuit { forward.old.circuit ≡ chip.now.recording.circuit }
    requires runs { forward.old.runs ≡ chip.now.recording.runs }
    requires few { cycle ≤ MAX_CYCLES }
    requires there { IsMoment forward.old.runs (moment run cycle) }
    requires aim { IsAim forward.old present.now aim }
    ensures lead { IfOk result (λ may. may ≡ false → LeadsNowhere forward.old.circuit (state_at forward.old.circuit (run_of forward.old.runs run) cycle) present.now) }
    ensures kept { forward.new ≡ forward.old }
{
    forward.follow(alloc, chip, cycle)?;
    forward.may_lead(alloc, present, aim, run, cycle)
}

/// The same of a present of which some bits may not be known. Then any state may lead to it.
fn may_lead_seen(
    alloc: Global,
    chip: &Chip<'_>,
    forward: &mut Forward<'_>,
    present: &Seen,
    aim: PresentHashes,
    run: u32,
    cycle: u32,
) -> Result<bool, NoMemory>
    requires circuit { forward.old.circuit ≡ chip.now.recording.circuit }
    requires runs { forward.old.runs ≡ chip.now.recording.runs }
    requires few { cycle ≤ MAX_CYCLES }
    requires there { IsMoment forward.old.runs (moment run cycle) }
    requires aim { IsAim forward.old present.now.bits aim }
    ensures lead { IfOk result (λ may. may ≡ false → LeadsPast forward.old.circuit (state_at forward.old.circuit (run_of forward.old.runs run) cycle) present.now) }
    ensures kept { forward.new ≡ forward.old }
{
    if present.is_whole() {
        return may_lead_in(alloc, chip, forward, &present.bits, aim, run, cycle);
    }
    Ok(true)
}

/// Whether the state of a moment may lead to a present, as far as it is known.
fn may_lead_by(
    alloc: Global,
    chip: &Chip<'_>,
    forward: &mut Option<Forward<'_>>,
    present: &Seen,
    aim: PresentHashes,
    run: u32,
    cycle: u32,
) -> Result<bool, NoMemory>
    requires recording { IfSome forward.old (λ f. (f.circuit ≡ chip.now.recording.circuit) × (f.runs ≡ chip.now.recording.runs)) }
    requires few { cycle ≤ MAX_CYCLES }
    requires there { IfSome forward.old (λ f. IsMoment f.runs (moment run cycle)) }
    requires aim { IfSome forward.old (λ f. IsAim f present.now.bits aim) }
    ensures lead { IfOk result (λ may. may ≡ false → LeadsAway forward.old run cycle present.now) }
    ensures kept { forward.new ≡ forward.old }
{
    match forward {
        None => Ok(true),
        Some(forward) => may_lead_seen(alloc, chip, forward, present, aim, run, cycle),
    }
}

/// A cycle before which no state leads to a present. Where some of its bits are not known it is the first one.
fn start_seen(
    forward: &mut Forward<'_>,
    present: &Seen,
    aim: PresentHashes,
) -> Result<u32, NoMemory>
    requires { IsAim forward.old present.now.bits aim }
    ensures none { IfOk result (NonePassBefore forward.old.circuit forward.old.runs present.now) }
    ensures kept { forward.new ≡ forward.old }
{
    if present.is_whole() {
        return forward.start(&present.bits, aim);
    }
    Ok(0)
}

/// A cycle before which no state leads to a present, as far as it is known.
fn start_by(
    forward: &mut Option<Forward<'_>>,
    present: &Seen,
    aim: PresentHashes,
) -> Result<u32, NoMemory>
    requires { IfSome forward.old (λ f. IsAim f present.now.bits aim) }
    ensures none { IfOk result (StartsBy forward.old present.now) }
    ensures kept { forward.new ≡ forward.old }
{
    match forward {
        None => Ok(0),
        Some(forward) => start_seen(forward, present, aim),
    }
}

/// The planes of a cycle, if they are kept and the present is known in part. Such a present is that of a dump, so that it is the first
/// one that is searched for: hashes would not be looked at often enough to be worth their making.
fn planes_for<'c>(chip: &'c Chip<'_>, present: &Seen, cycle: u32) -> Option<&'c [u64]>
    ensures { IfSome result (λ planes. ShowsCycle chip.now.recording.circuit chip.now.recording.runs planes.now cycle) }
{
    if present.is_whole() {
        return None;
    }
    chip.kept(cycle as usize)
}

/// The first run behind a number that lasts to a cycle and whose state there may have a signature, by the hashes of all signatures.
fn next_by_hash(
    alloc: Global,
    chip: &Chip<'_>,
    signature_hashes: &mut SignatureHashes<'_>,
    stored: &Bits,
    hash: u64,
    cycle: u32,
    from: u32,
) -> Result<Option<u32>, NoMemory>
    requires recording { signature_hashes.old ≡ chip.now.recording }
    requires few { cycle ≤ MAX_CYCLES }
    requires hash { hash ≡ hash_of stored.now }
    ensures alike { IfOk result (λ found. MatchOption found (NoneAlike chip.now.recording stored.now cycle from (length chip.now.recording.runs)) (IsNextAlike chip.now.recording stored.now cycle from)) }
    ensures kept { signature_hashes.new ≡ signature_hashes.old }
{
    chip.lend_signature_hashes(alloc, signature_hashes, cycle)?;
    signature_hashes.next_by_hash(alloc, stored, hash, cycle, from)
}

/// The same by hashes, or by the planes of the cycle.
fn next_in(
    alloc: Global,
    chip: &Chip<'_>,
    signature_hashes: &mut SignatureHashes<'_>,
    present: &Seen,
    stored: &Bits,
    hash: u64,
    cycle: u32,
    from: u32,
) -> Result<Option<u32>, NoMemory>
    requires recording { signature_hashes.old ≡ chip.now.recording }
    requires items { length stored.now ≡ length chip.now.recording.choice.items }
    requires few { cycle ≤ MAX_CYCLES }
    requires hash { hash ≡ hash_of stored.now }
    ensures alike { IfOk result (λ found. MatchOption found (NoneAlike chip.now.recording stored.now cycle from (length chip.now.recording.runs)) (IsNextAlike chip.now.recording stored.now cycle from)) }
    ensures kept { signature_hashes.new ≡ signature_hashes.old }
{
    match planes_for(chip, present, cycle) {
        Some(planes) => Ok(chip.next_alike(planes, stored, cycle, from)),
        None => next_by_hash(alloc, chip, signature_hashes, stored, hash, cycle, from),
    }
}

/// What looks for recorded predecessors. Contracts see the recording, and the present that it stands at with its stored signature.
pub struct Finder<'a, 'p> {
    signature_hashes: SignatureHashes<'a>,
    probe: Probe<'p>,
    forward: Option<Forward<'a>>,
    present: Seen,
    stored: Bits,
    hash: u64,
    aim: PresentHashes,
}

// One function for every place that drops a finder, so that the proof of each such place stays small.
impl<'a, 'p> Drop for Finder<'a, 'p> {
    fn drop(self) {
        let Finder {
            signature_hashes,
            probe,
            forward,
            present,
            stored,
            hash: _,
            aim: _,
        } = self;
        drop(signature_hashes);
        drop(probe);
        drop(forward);
        drop(present);
        drop(stored);
    }
}

impl<'a, 'p> Model for Finder<'a, 'p> {
    ghost use Rattle.bs_preimage_recorded.specs.Finder.{IsFinder, Seeker};

    ghost Value = { Seeker };

    ghost view = { λ f. record { recording = f.signature_hashes; present = f.present; stored = f.stored } };

    ghost invariant = { λ f. IsFinder f.signature_hashes f.probe f.forward f.present f.aim f.stored f.hash };
}

impl<'a, 'p> Finder<'a, 'p> {
    /// What looks for predecessors in a chip's runs, with what answers about states of its netlist.
    pub fn new(alloc: Global, chip: &Chip<'a>, probe: Probe<'p>) -> Result<Finder<'a, 'p>, NoMemory>
        requires { probe ≡ record { circuit = chip.now.recording.circuit; choice = chip.now.recording.choice } }
        ensures { IfOk result (λ f. f.recording ≡ chip.now.recording) }
    {
        match chip.signature_hashes(alloc) {
            Ok(signature_hashes) => Ok(Finder {
                signature_hashes,
                probe,
                forward: None,
                present: Seen::whole(alloc, Bits::new(alloc)),
                stored: Bits::new(alloc),
                hash: 0,
                aim: PresentHashes { low: 0, high: 0 },
            }),
            Err(want) => Err(want),
        }
    }

    /// Goes to a present and its stored signature.
    pub(crate) fn stand_at(&mut self, present: &Seen, stored: &Bits) -> Result<(), NoMemory>
        requires { length present.now.bits ≡ length self.old.recording.circuit.flops }
        ensures there { IfOk result (λ _. self.new ≡ record { recording = self.old.recording; present = present.now; stored = stored.now }) }
        ensures kept { self.new.recording ≡ self.old.recording }
    {
        let seen = present.copy()?;
        let held = stored.copy()?;
        let hash = hash_of(stored);
        let aim = aim_of(&self.forward, &present.bits);
        self.present = seen;
        self.stored = held;
        self.hash = hash;
        self.aim = aim;
        Ok(())
    }

    /// The number of runs.
    pub(crate) fn runs(&self) -> u32
        ensures { result ≡ length self.now.recording.runs }
    {
        self.signature_hashes.runs()
    }

    /// The number of cycles of the longest run.
    pub(crate) fn longest(&self) -> u32
        ensures all { IsLongest self.now.recording.runs result }
        ensures few { result ≤ MAX_CYCLES }
    {
        self.signature_hashes.longest()
    }

    /// The first run behind a number that lasts to a cycle and whose state there may have the stored signature; none where no
    /// run behind the number is in such a state.
    pub(crate) fn next_alike(
        &mut self,
        alloc: Global,
        chip: &mut Chip<'_>,
        cycle: u32,
        from: u32,
    ) -> Result<Option<u32>, NoMemory>
        requires recording { self.old.recording ≡ chip.old.recording }
        requires items { length self.old.stored ≡ length self.old.recording.choice.items }
        requires few { cycle ≤ MAX_CYCLES }
        ensures chip { chip.new ≡ chip.old }
        ensures alike { IfOk result (λ found. MatchOption found (NoneAlike self.old.recording self.old.stored cycle from (length self.old.recording.runs)) (IsNextAlike self.old.recording self.old.stored cycle from)) }
        ensures kept { self.new ≡ self.old }
    {
        chip.keep_to(alloc, cycle)?;
        next_in(
            alloc,
            chip,
            &mut self.signature_hashes,
            &self.present,
            &self.stored,
            self.hash,
            cycle,
            from,
        )
    }

    /// Whether it is known where the recorded states lead.
    pub(crate) fn looks_forward(&self) -> bool {
        self.forward.is_some()
    }

    /// Takes what sees where the recorded states lead.
    fn see(&mut self, forward: Forward<'a>)
        requires circuit { forward.circuit ≡ self.old.recording.circuit }
        requires runs { forward.runs ≡ self.old.recording.runs }
        requires width { length self.old.present.bits ≡ length self.old.recording.circuit.flops }
        ensures { self.new ≡ self.old }
    {
        self.aim = forward.aim(&self.present.bits);
        self.forward = Some(forward);
    }

    /// Sees from now on where the recorded states lead.
    pub(crate) fn look_forward(&mut self, alloc: Global, chip: &Chip<'a>) -> Result<(), NoMemory>
        requires recording { self.old.recording ≡ chip.now.recording }
        requires width { length self.old.present.bits ≡ length self.old.recording.circuit.flops }
        ensures kept { self.new ≡ self.old }
    {
        match Forward::new(alloc, chip) {
            Ok(forward) => {
                self.see(forward);
                Ok(())
            }
            Err(want) => Err(want),
        }
    }

    /// A cycle before which no recorded state leads to the present, under any input.
    pub(crate) fn start(&mut self) -> Result<u32, NoMemory>
        ensures none { IfOk result (NonePassBefore self.old.recording.circuit self.old.recording.runs self.old.present) }
        ensures kept { self.new ≡ self.old }
    {
        start_by(&mut self.forward, &self.present, self.aim)
    }

    /// Whether the state of a moment may lead to the present. Where it says no, it does so under no input.
    pub(crate) fn may_lead(
        &mut self,
        alloc: Global,
        chip: &Chip<'_>,
        run: u32,
        cycle: u32,
    ) -> Result<bool, NoMemory>
        requires recording { self.old.recording ≡ chip.now.recording }
        requires few { cycle ≤ MAX_CYCLES }
        requires there { IsMoment self.old.recording.runs (moment run cycle) }
        ensures lead { IfOk result (λ may. may ≡ false → LeadsPast self.old.recording.circuit (state_at self.old.recording.circuit (run_of self.old.recording.runs run) cycle) self.old.present) }
        ensures kept { self.new ≡ self.old }
    {
        may_lead_by(
            alloc,
            chip,
            &mut self.forward,
            &self.present,
            self.aim,
            run,
            cycle,
        )
    }

    /// Whether the state of a moment is a predecessor of the present.
    pub(crate) fn ask(
        &mut self,
        alloc: Global,
        chip: &mut Chip<'_>,
        query: &Query<'_>,
        run: u32,
        cycle: u32,
    ) -> Result<Probed, NoMemory>
        requires there { IsMoment chip.old.recording.runs (moment run cycle) }
        requires recording { self.old.recording ≡ chip.old.recording }
        requires asking { IsAsking chip.old.recording query.now.present.now query.now.stored.now (option_map (λ bits. bits.now) query.now.older) query.now.b }
        ensures said { IfOk result (IsProbed chip.old.recording.circuit chip.old.recording.choice query.now.present.now query.now.stored.now (option_map (λ bits. bits.now) query.now.older) (state_at chip.old.recording.circuit (run_of chip.old.recording.runs run) cycle) query.now.b) }
        ensures chip { chip.new ≡ chip.old }
        ensures kept { self.new ≡ self.old }
    {
        ask_moment(alloc, chip, &mut self.probe, query, run, cycle)
    }
}
