//! The chip, which replays recorded runs.
ghost use Rattle.std.specs.Prelude.{◌≡◌, ◌<◌, ◌≤◌, ◌+◌, ◌*◌, [], length, map, option_map, slice_get, slice_index_or, All, IfOk, IfSome, MatchOption};
ghost use Rattle.bs_net.specs.Netlist.{circuit};
ghost use Rattle.bs_scan.specs.Crash.{dump_at, recording_of, IsRecording};
ghost use Rattle.bs_scan.specs.Moments.{first_moment as first_moment_of, moment, run_of, state_of, IsMoment};
ghost use Rattle.bs_scan.specs.Signature.{stored_at};
ghost use Rattle.bs_stim.specs.declared.limits.TheConstants.{MAX_CYCLES};
ghost use Rattle.bs_chip.specs.Lockstep.{ShowsCycle, TrackShows};
ghost use Rattle.bs_chip.specs.Replay.{dump_holding, in_state};
ghost use Rattle.bs_chip.specs.SignatureHashes.{IsNextAlike, NoneAlike};
ghost use Rattle.bs_chip.specs.Stepped.{StandsAt};

use crate::alike::next_in;
use crate::index::{Index, credited, grow, start};
use crate::kept_planes::{Started, at_reset, first_moment, keep_ahead, recall};
use crate::lockstep::Pass;
use crate::moments::{replay, unload};
use crate::run_simulator::Player;
use crate::signature_hashes::SignatureHashes;
use bs_bits::{Bits, List, NoMemory};
use bs_break::Bank;
use bs_lanes::Lanes;
use bs_net::Netlist;
use bs_scan::{Choice, Dump, HasState, Moment, Seen, SigReg};
use bs_stim::Runs;
use std::alloc::Global;
use std::marker::Model;

/// The first moment whose state is listed: a run from 1, a cycle from 0, and the dump of that moment.
#[derive(Drop)]
pub struct Hit {
    pub run: u32,
    pub cycle: u32,
    pub dump: Dump,
}

/// How many bytes the planes of the cycles that a chip keeps may take, unless it is made with another bound.
/// As much as 4,096 cycles take of 256 runs with 4,096 flip-flops.
pub const MAX_TRACK_BYTES: usize = 536_870_912;

/// A chip that replays recorded runs. It steps all runs in lock step and keeps the flip-flops' planes of each cycle, so
/// that a cycle is stepped once and looked at many times; cycles beyond its bound are stepped again. Contracts see the
/// recording, and the cycle at which the lanes stand. An index of the states at the first of these cycles says where a look
/// may begin. It is made as fast as looks at cycles pay for it.
pub struct Chip<'a> {
    player: Player<'a>,
    choice: &'a Choice,
    register: SigReg<'a>,
    pass: Pass<'a>,
    track: List<List<u64>>,
    most: usize,
    index: Index,
    credit: u64,
}

// One function for every place that drops one, so that the proof of each such place stays small.
impl<'a> Drop for Chip<'a> {
    fn drop(self) {
        let Chip {
            player,
            choice: _,
            register,
            pass,
            track,
            most: _,
            index,
            credit: _,
        } = self;
        drop(player);
        drop(register);
        drop(pass);
        drop(track);
        drop(index);
    }
}

impl<'a> Model for Chip<'a> {
    ghost use Rattle.bs_chip.specs.Chip.{IsChip};
    ghost use Rattle.bs_chip.specs.Stepped.{Stepped};

    ghost Value = { Stepped };

    ghost view = { λ chip. record { recording = record { circuit = chip.player.circuit; choice = chip.register.choice; runs = chip.player.runs }; at = chip.pass.cycle } };

    ghost invariant = { λ chip. IsChip (record { circuit = chip.player.circuit; choice = chip.register.choice; runs = chip.player.runs }) chip.choice.now chip.pass chip.track chip.index };
}

/// Brings a player and a register to a moment: out of the track, or else by a replay of the run from reset.
fn bring(
    player: &mut Player<'_>,
    register: &mut SigReg<'_>,
    track: &List<List<u64>>,
    moment: Moment,
)
    requires moment { IsMoment player.old.runs moment }
    requires shows { TrackShows player.old.circuit player.old.runs track.now }
    requires width { register.old.choice.width ≡ length player.old.circuit.flops }
    ensures player { player.new ≡ in_state player.old (state_of player.old.circuit player.old.runs moment) }
    ensures stored { register.new ≡ record { choice = register.old.choice; stored = stored_at player.old.circuit register.old.choice (run_of player.old.runs moment.run) moment.cycle } }
{
    if (moment.cycle as usize) < track.len() {
        recall(player, register, track, moment);
    } else {
        replay(player, register, moment);
    }
}

/// A copy of a signature that is held, if one is.
fn copy_of(held: Option<&Bits>) -> Result<Option<Bits>, NoMemory>
    ensures { IfOk result (λ copy. copy ≡ option_map (λ bits. bits.now) held.entry) }
{
    match held {
        Some(bits) => Ok(Some(bits.copy()?)),
        None => Ok(None),
    }
}

/// The dump of a state and of what a register holds, the state unloaded through the scan chain.
fn dump_of(alloc: Global, state: &Bits, register: &SigReg<'_>) -> Result<Dump, NoMemory>
    ensures { IfOk result (λ dump. dump ≡ dump_holding register.now state.now) }
{
    let state = unload(alloc, state.copy()?)?;
    let stored = copy_of(register.stored())?;
    let older = copy_of(register.older())?;
    Ok(Dump {
        state: Seen::whole(alloc, state),
        stored,
        older,
        depth: register.depth(),
    })
}

/// How many cycles may be kept in so many bytes, each of so many words and eight more.
fn cycles_within(bytes: usize, words: usize) -> usize
    ensures fit { result * ((words + 8) * 8) ≤ bytes }
    ensures most { bytes < (result + 1) * ((words + 8) * 8) }
{
    bytes / 8 / words.saturating_add(8)
}

/// A chip of a player and a register, all runs at reset.
fn chip_of<'a>(
    alloc: Global,
    player: Player<'a>,
    choice: &'a Choice,
    register: SigReg<'a>,
    started: Started<'a>,
    bytes: usize,
) -> Chip<'a>
    requires choice { choice.now ≡ register.choice }
    requires recording { IsRecording (record { circuit = player.circuit; choice = register.choice; runs = player.runs }) }
    requires circuit { started.pass.circuit ≡ player.circuit }
    requires runs { started.pass.runs ≡ player.runs }
    requires track { TrackShows player.circuit player.runs started.track }
    ensures { result.recording ≡ record { circuit = player.entry.circuit; choice = register.entry.choice; runs = player.entry.runs } }
{
    let most = cycles_within(bytes, started.pass.planes().len());
    Chip {
        player,
        choice,
        register,
        pass: started.pass,
        track: started.track,
        most,
        index: Index::new(alloc),
        credit: 0,
    }
}

/// A chip of a player and a register, where the planes of the cycles that are kept take at most so many bytes.
fn equipped<'a>(
    alloc: Global,
    player: Player<'a>,
    choice: &'a Choice,
    register: SigReg<'a>,
    bytes: usize,
) -> Result<Chip<'a>, NoMemory>
    requires choice { choice.now ≡ register.choice }
    requires recording { IsRecording (record { circuit = player.circuit; choice = register.choice; runs = player.runs }) }
    ensures { IfOk result (λ chip. chip.recording ≡ record { circuit = player.entry.circuit; choice = register.entry.choice; runs = player.entry.runs }) }
{
    match at_reset(alloc, player.net(), player.runs()) {
        Ok(started) => Ok(chip_of(alloc, player, choice, register, started, bytes)),
        Err(want) => {
            drop(player);
            drop(register);
            Err(want)
        }
    }
}

impl<'a> Chip<'a> {
    /// A chip of a netlist, with a signature and runs of its widths.
    pub fn new(
        alloc: Global,
        net: &'a Netlist,
        choice: &'a Choice,
        runs: &'a Runs,
    ) -> Result<Chip<'a>, NoMemory>
        requires states { choice.now.width ≡ length (circuit net.now).flops }
        requires inputs { runs.now.width ≡ length (circuit net.now).inputs }
        ensures { IfOk result (λ chip. chip.recording ≡ recording_of net.now.raw choice.now runs.now) }
    {
        Chip::with_bound(alloc, net, choice, runs, MAX_TRACK_BYTES)
    }

    /// The same, where the planes of the cycles that are kept take at most so many bytes. The cycle of reset is kept in
    /// any case.
    pub fn with_bound(
        alloc: Global,
        net: &'a Netlist,
        choice: &'a Choice,
        runs: &'a Runs,
        bytes: usize,
    ) -> Result<Chip<'a>, NoMemory>
        requires states { choice.now.width ≡ length (circuit net.now).flops }
        requires inputs { runs.now.width ≡ length (circuit net.now).inputs }
        ensures { IfOk result (λ chip. chip.recording ≡ recording_of net.now.raw choice.now runs.now) }
    {
        let _order = net.order();
        let _depth = choice.depth();
        let _count = runs.count();
        let register = SigReg::new(alloc, choice)?;
        match Player::new(alloc, net, runs) {
            Ok(player) => equipped(alloc, player, choice, register, bytes),
            Err(want) => {
                drop(register);
                Err(want)
            }
        }
    }

    /// The recording has its widths, and its netlist has passed the check.
    pub fn is_recording(&self)
        ensures { IsRecording self.now.recording }
    {
        let _state = self.player.state();
    }

    /// The dump of a moment: its state, unloaded through the scan chain, and its stored signature. Runs are numbered
    /// from 1, and cycles from 0.
    pub fn dump_at(&mut self, alloc: Global, run: u32, cycle: u32) -> Result<Dump, NoMemory>
        requires { IsMoment self.old.recording.runs (moment run cycle) }
        ensures dump { IfOk result (λ dump. dump ≡ dump_at self.old.recording (moment run cycle)) }
        ensures kept { self.new ≡ self.old }
    {
        let moment = Moment { run, cycle };
        bring(&mut self.player, &mut self.register, &self.track, moment);
        dump_of(alloc, self.player.state(), &self.register)
    }

    /// The input that was recorded of a run at a cycle. It leads from this cycle to the next one.
    pub fn input_at(&self, alloc: Global, run: u32, cycle: u32) -> Result<Bits, NoMemory>
        requires { IsMoment self.now.recording.runs (moment run (cycle + 1)) }
        ensures { IfOk result (λ input. input ≡ slice_index_or (run_of self.now.recording.runs run) cycle []) }
    {
        self.player.input_at(alloc, run, cycle)
    }

    /// The first moment, by cycle and then by run, at which a run is in a listed state, with its dump. After a hit the
    /// lanes stand at its cycle.
    pub fn first<S: HasState>(&mut self, alloc: Global, list: &[S]) -> Result<Option<Hit>, NoMemory>
        requires { All (λ listed. length (S.shown listed) ≡ length self.old.recording.circuit.flops) list.now }
        ensures first { IfOk result (λ hit. first_moment_of self.old.recording.circuit self.old.recording.runs (map S.shown list.now) ≡ option_map (λ hit. moment hit.run hit.cycle) hit) }
        ensures dump { IfOk result (λ hit. IfSome hit (λ hit. hit.dump ≡ dump_at self.old.recording (moment hit.run hit.cycle))) }
        ensures stands { IfOk result (λ hit. IfSome hit (λ hit. self.new.at ≡ hit.cycle)) }
        ensures kept { self.new.recording ≡ self.old.recording }
    {
        match self.moment_of(alloc, list)? {
            Some(Moment { run, cycle }) => {
                let dump = self.dump_at(alloc, run, cycle)?;
                Ok(Some(Hit { run, cycle, dump }))
            }
            None => Ok(None),
        }
    }

    /// The first moment at which a run is in a listed state. The lanes stand at its cycle then.
    fn moment_of<S: HasState>(
        &mut self,
        alloc: Global,
        list: &[S],
    ) -> Result<Option<Moment>, NoMemory>
        requires { All (λ listed. length (S.shown listed) ≡ length self.old.recording.circuit.flops) list.now }
        ensures first { IfOk result (λ found. found ≡ first_moment_of self.old.recording.circuit self.old.recording.runs (map S.shown list.now)) }
        ensures found { IfOk result (λ found. IfSome found (IsMoment self.old.recording.runs)) }
        ensures stands { IfOk result (λ found. IfSome found (λ moment. self.new.at ≡ moment.cycle)) }
        ensures kept { self.new.recording ≡ self.old.recording }
    {
        let width = self.player.width();
        grow(
            &mut self.index,
            &self.pass,
            &self.track,
            width,
            &mut self.credit,
        )?;
        let kept = self.track.len();
        let from = start(&self.index, list).min(kept);
        let bank = Bank::load(alloc, list, width)?;
        let found = first_moment(
            alloc,
            &mut self.pass,
            &bank,
            &mut self.track,
            self.most,
            from,
        )?;
        self.credit = credited(self.credit, from, kept, found);
        Ok(found)
    }

    /// The signatures of the recorded states.
    pub fn signature_hashes(&self, alloc: Global) -> Result<SignatureHashes<'a>, NoMemory>
        ensures { IfOk result (λ signature_hashes. signature_hashes ≡ self.now.recording) }
    {
        let _state = self.player.state();
        SignatureHashes::new(alloc, self.player.net(), self.choice, self.player.runs())
    }

    /// Keeps the planes of the cycles up to one, and of some more, as far as the bound allows: the dump of a moment of a kept
    /// cycle takes no replay.
    pub fn keep_to(&mut self, alloc: Global, cycle: u32) -> Result<(), NoMemory>
        ensures kept { self.new ≡ self.old }
    {
        let kept = self.track.len();
        if (cycle as usize) < kept || self.most <= kept {
            return Ok(());
        }
        keep_ahead(alloc, &mut self.pass, &mut self.track, self.most, cycle)
    }

    /// The first run behind a number that lasts to a cycle and whose state there has a signature, by planes that show the cycle.
    pub fn next_alike(&self, planes: &[u64], stored: &Bits, cycle: u32, from: u32) -> Option<u32>
        requires items { length stored.now ≡ length self.now.recording.choice.items }
        requires shows { ShowsCycle self.now.recording.circuit self.now.recording.runs planes.now cycle }
        ensures { MatchOption result (NoneAlike self.now.recording stored.now cycle from (length self.now.recording.runs)) (IsNextAlike self.now.recording stored.now cycle from) }
    {
        next_in(&self.pass, self.choice, planes, stored, cycle, from)
    }

    /// The planes of a cycle, if they are kept.
    pub fn kept(&self, cycle: usize) -> Option<&[u64]>
        ensures { IfSome result (λ planes. ShowsCycle self.now.recording.circuit self.now.recording.runs planes.now cycle) }
    {
        if cycle < self.track.len() {
            Some(self.track.get(cycle).slice())
        } else {
            None
        }
    }

    /// Makes the signatures of the cycles up to one, out of the kept planes where there are some.
    pub fn lend_signature_hashes(
        &self,
        alloc: Global,
        signature_hashes: &mut SignatureHashes<'_>,
        cycle: u32,
    ) -> Result<(), NoMemory>
        requires recording { signature_hashes.old ≡ self.now.recording }
        requires few { cycle ≤ MAX_CYCLES }
        ensures kept { signature_hashes.new ≡ signature_hashes.old }
    {
        signature_hashes.follow(alloc, &self.track, cycle)
    }

    /// The netlist.
    pub fn net(&self) -> &'a Netlist
        ensures { circuit result.now ≡ self.now.recording.circuit }
    {
        self.player.net()
    }

    /// All runs at reset, to be stepped apart from the chip.
    pub fn pass(&self, alloc: Global) -> Result<Pass<'a>, NoMemory>
        ensures { IfOk result (λ pass. pass ≡ record { circuit = self.now.recording.circuit; runs = self.now.recording.runs; cycle = 0 }) }
    {
        let pass = Pass::new(alloc, self.player.net(), self.player.runs())?;
        Ok(pass)
    }

    /// The chip's lanes. Each run that lasts to the cycle at which they stand is in its state there: after a `first` that
    /// gave a hit, and until the next one, at the hit's cycle.
    pub fn lanes(&self) -> &Lanes<'a>
        ensures { StandsAt self.now.recording result.now self.now.at }
    {
        self.pass.lanes()
    }
}
