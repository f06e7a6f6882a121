//! The track: the flip-flops' planes of the first cycles, which are stepped once and looked at many times.
ghost use Rattle.std.specs.Prelude.{◌≡◌, ◌⊎◌, ◌<◌, ◌≤◌, ◌+◌, ◌∷◌, [], length, IfOk, IfSome, MatchOption};
ghost use Rattle.bs_net.specs.Netlist.{circuit};
ghost use Rattle.bs_stim.specs.Runs.{inputs_of};
ghost use Rattle.bs_stim.specs.declared.limits.TheConstants.{MAX_CYCLES};
ghost use Rattle.bs_scan.specs.Moments.{IsMoment, first_moment as first_moment_of, run_of, state_of};
ghost use Rattle.bs_scan.specs.Signature.{stored_at};
ghost use Rattle.bs_chip.specs.Lockstep.{Extends, IsFirstIn, IsSamePass, NoneBefore, NoneReached, TrackShows};
ghost use Rattle.bs_chip.specs.Replay.{in_state, IsSameChip};

use crate::lockstep::Pass;
use crate::run_simulator::Player;
use bs_bits::{List, NoMemory};
use bs_break::Bank;
use bs_net::Netlist;
use bs_scan::{HasState, Moment, SigReg};
use bs_stim::Runs;
use std::alloc::Global;

/// How many cycles are kept ahead of the one that is asked for.
/// The planes where the runs stand are copied away and back each time: so once for several cycles.
const CYCLES_AHEAD: u32 = 32;

/// A track of one cycle.
fn first_track(alloc: Global, planes: &[u64]) -> Result<List<List<u64>>, NoMemory>
    ensures { IfOk result (λ track. track ≡ planes.now ∷ []) }
{
    let mut track = List::new(alloc);
    track.push(List::of(Vec::from_slice(alloc, planes)?))?;
    Ok(track)
}

/// All runs at reset, and a track of that cycle.
#[derive(Drop)]
pub struct Started<'a> {
    pub pass: Pass<'a>,
    pub track: List<List<u64>>,
}

/// All runs of a netlist at reset, with a track of that cycle.
pub fn at_reset<'a>(
    alloc: Global,
    net: &'a Netlist,
    runs: &'a Runs,
) -> Result<Started<'a>, NoMemory>
    requires { runs.now.width ≡ length (circuit net.now).inputs }
    ensures pass { IfOk result (λ s. s.pass ≡ record { circuit = circuit net.now; runs = inputs_of runs.now; cycle = 0 }) }
    ensures track { IfOk result (λ s. TrackShows (circuit net.now) (inputs_of runs.now) s.track) }
{
    let pass = Pass::new(alloc, net, runs)?;
    match first_track(alloc, pass.planes()) {
        Ok(track) => Ok(Started { pass, track }),
        Err(want) => {
            drop(pass);
            Err(want)
        }
    }
}

/// Puts the planes of a cycle at the end of a track that has all cycles before, unless it has as many cycles as it may.
/// The track is as before where memory runs out.
fn keep(
    alloc: Global,
    track: &mut List<List<u64>>,
    planes: &[u64],
    cycle: usize,
    most: usize,
) -> Result<(), NoMemory>
    ensures { Extends track.old track.new planes.now cycle }
{
    if track.len() != cycle || most <= cycle {
        return Ok(());
    }
    let copy = List::of(Vec::from_slice(alloc, planes)?);
    track.push(copy)
}

/// The first moment of the cycles of a track that is in a listed state, where none is before a cycle.
fn first_tracked<S: HasState>(
    pass: &mut Pass<'_>,
    bank: &Bank<'_, S>,
    track: &List<List<u64>>,
    from: usize,
) -> Option<Moment>
    requires within { from ≤ length track.now }
    requires none { NoneBefore pass.old.circuit pass.old.runs bank.now.states from }
    requires width { bank.now.width ≡ length pass.old.circuit.flops }
    requires shows { TrackShows pass.old.circuit pass.old.runs track.now }
    ensures kept { pass.new ≡ pass.old }
    ensures first { MatchOption result (NoneBefore pass.old.circuit pass.old.runs bank.now.states (length track.now)) (IsFirstIn pass.old.circuit pass.old.runs bank.now.states) }
    ensures tracked { IfSome result (λ moment. moment.cycle < length track.now) }
{
    'cycles: for at in from..track.len() {
        let cycle = at as u32;
        if let Some(run) = pass.lowest_in(bank, track.get(at).slice(), cycle) {
            return Some(Moment { run, cycle });
        }
    }
    None
}

/// The first moment, behind those of a track, that is in a listed state. The track grows by the cycles that are stepped,
/// up to so many.
fn first_behind<S: HasState>(
    alloc: Global,
    pass: &mut Pass<'_>,
    bank: &Bank<'_, S>,
    track: &mut List<List<u64>>,
    most: usize,
) -> Result<Option<Moment>, NoMemory>
    requires width { bank.now.width ≡ length pass.old.circuit.flops }
    requires shows { TrackShows pass.old.circuit pass.old.runs track.old }
    requires none { NoneBefore pass.old.circuit pass.old.runs bank.now.states (length track.old) }
    ensures same { IsSamePass pass.old pass.new }
    ensures shows { TrackShows pass.old.circuit pass.old.runs track.new }
    ensures first { IfOk result (λ found. MatchOption found (NoneReached pass.old.circuit pass.old.runs bank.now.states) (IsFirstIn pass.old.circuit pass.old.runs bank.now.states)) }
    ensures stands { IfOk result (λ found. IfSome found (λ moment. pass.new.cycle ≡ moment.cycle)) }
{
    let last = track.len() - 1;
    pass.load(track.get(last).slice(), last as u32);
    'cycles: for at in last..pass.longest() as usize {
        pass.step();
        keep(alloc, track, pass.planes(), at + 1, most)?;
        if let Some(run) = pass.lowest(bank) {
            return Ok(Some(Moment {
                run,
                cycle: at as u32 + 1,
            }));
        }
    }
    Ok(None)
}

/// The first moment that is in a listed state, where none is before a cycle. The runs stand at its cycle then. The track
/// grows by the cycles that are stepped, up to so many.
pub fn first_moment<S: HasState>(
    alloc: Global,
    pass: &mut Pass<'_>,
    bank: &Bank<'_, S>,
    track: &mut List<List<u64>>,
    most: usize,
    from: usize,
) -> Result<Option<Moment>, NoMemory>
    requires within { from ≤ length track.old }
    requires none { NoneBefore pass.old.circuit pass.old.runs bank.now.states from }
    requires width { bank.now.width ≡ length pass.old.circuit.flops }
    requires shows { TrackShows pass.old.circuit pass.old.runs track.old }
    ensures same { IsSamePass pass.old pass.new }
    ensures shows { TrackShows pass.old.circuit pass.old.runs track.new }
    ensures first { IfOk result (λ found. found ≡ first_moment_of pass.old.circuit pass.old.runs bank.now.states) }
    ensures found { IfOk result (λ found. IfSome found (IsMoment pass.old.runs)) }
    ensures stands { IfOk result (λ found. IfSome found (λ moment. pass.new.cycle ≡ moment.cycle)) }
{
    match first_tracked(pass, bank, track, from) {
        Some(moment) => {
            pass.load(track.get(moment.cycle as usize).slice(), moment.cycle);
            Ok(Some(moment))
        }
        None => first_behind(alloc, pass, bank, track, most),
    }
}

/// Puts the planes of the cycles up to one behind those of a track, up to so many in all.
fn keep_up(
    alloc: Global,
    pass: &mut Pass<'_>,
    track: &mut List<List<u64>>,
    most: usize,
    end: usize,
) -> Result<(), NoMemory>
    requires few { end ≤ MAX_CYCLES }
    requires shows { TrackShows pass.old.circuit pass.old.runs track.old }
    ensures same { IsSamePass pass.old pass.new }
    ensures shows { TrackShows pass.old.circuit pass.old.runs track.new }
{
    let last = track.len() - 1;
    pass.load(track.get(last).slice(), last as u32);
    'cycles: for at in last..end {
        pass.step();
        keep(alloc, track, pass.planes(), at + 1, most)?;
    }
    Ok(())
}

/// Puts the planes of the cycles up to one, and of some more, behind those of a track, up to so many in all. The runs stand
/// where they did.
pub fn keep_ahead(
    alloc: Global,
    pass: &mut Pass<'_>,
    track: &mut List<List<u64>>,
    most: usize,
    cycle: u32,
) -> Result<(), NoMemory>
    requires shows { TrackShows pass.old.circuit pass.old.runs track.old }
    ensures pass { pass.new ≡ pass.old }
    ensures shows { TrackShows pass.old.circuit pass.old.runs track.new }
{
    let at = pass.cycle();
    let shown = Vec::from_slice(alloc, pass.planes())?;
    let end = cycle.saturating_add(CYCLES_AHEAD).min(pass.longest()) as usize;
    let kept = keep_up(alloc, pass, track, most, end.min(most));
    pass.load(shown.as_slice(), at);
    kept
}

/// Brings all runs to a cycle of a track. They stay where they are, if it is none of them.
pub fn lend(track: &List<List<u64>>, pass: &mut Pass<'_>, number: usize)
    requires shows { TrackShows pass.old.circuit pass.old.runs track.now }
    ensures same { IsSamePass pass.old pass.new }
    ensures there { (pass.new.cycle ≡ pass.old.cycle) ⊎ (pass.new.cycle ≡ number) }
{
    if number < track.len() {
        pass.load(track.get(number).slice(), number as u32);
    }
}

/// Brings a register to what it holds at a moment of a track: it is clocked from as many cycles before as it keeps
/// signatures.
fn recall_register(
    player: &mut Player<'_>,
    register: &mut SigReg<'_>,
    track: &List<List<u64>>,
    moment: Moment,
)
    requires moment { IsMoment player.old.runs moment }
    requires tracked { moment.cycle < length track.now }
    requires shows { TrackShows player.old.circuit player.old.runs track.now }
    requires width { register.old.choice.width ≡ length player.old.circuit.flops }
    ensures same { IsSameChip player.old player.new }
    ensures stored { register.new ≡ record { choice = register.old.choice; stored = stored_at player.old.circuit register.old.choice (run_of player.old.runs moment.run) moment.cycle } }
{
    register.clear();
    let first = moment.cycle.saturating_sub(u32::from(register.depth()));
    'cycles: for cycle in first..moment.cycle {
        player.enter(track.get(cycle as usize).slice(), moment.run);
        register.clock(player.state());
    }
}

/// Brings a player and a register to a moment of a track.
pub fn recall(
    player: &mut Player<'_>,
    register: &mut SigReg<'_>,
    track: &List<List<u64>>,
    moment: Moment,
)
    requires moment { IsMoment player.old.runs moment }
    requires tracked { moment.cycle < length track.now }
    requires shows { TrackShows player.old.circuit player.old.runs track.now }
    requires width { register.old.choice.width ≡ length player.old.circuit.flops }
    ensures player { player.new ≡ in_state player.old (state_of player.old.circuit player.old.runs moment) }
    ensures stored { register.new ≡ record { choice = register.old.choice; stored = stored_at player.old.circuit register.old.choice (run_of player.old.runs moment.run) moment.cycle } }
{
    recall_register(player, register, track, moment);
    player.enter(track.get(moment.cycle as usize).slice(), moment.run);
}
