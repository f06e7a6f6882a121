//! Where the recorded states lead, as hashes by cycle and run: states that lead elsewhere under every input are passed over.
ghost use Rattle.std.specs.Prelude.{◌≡◌, ◌⊎◌, ◌<◌, ◌≤◌, ◌+◌, ◌==◌, ◌||◌, false, true, length, slice_index_or, IfOk, IsTrue, OnOk};
ghost use Rattle.bs_net.specs.Netlist.{circuit};
ghost use Rattle.bs_preimage_recorded.specs.Independent.{IsIndependent};
ghost use Rattle.bs_stim.specs.declared.limits.TheConstants.{MAX_CYCLES};
ghost use Rattle.bs_scan.specs.Moments.{moment, run_of, state_at, IsMoment};
ghost use Rattle.bs_lanes.specs.Lanes.{is_wide};
ghost use Rattle.bs_preimage_recorded.specs.Forward.{Extended, Holds, IsAim, IsForward, IsSide, LeadsNowhere, NoneLeadBefore, TellsRow};
ghost use Rattle.bs_chip.specs.Lockstep.{IsSamePass};

use crate::firsts::{Firsts, first_of, note_rows};
use crate::flops::independent_flops;
use crate::groups::parity_hash;
use crate::held::HeldInput;
use crate::split::{Split, split_of};
use bs_bits::{Bits, List, NoMemory};
use bs_chip::{Chip, Pass, step_to};
use bs_net::Netlist;
use std::alloc::Global;
use std::marker::Model;

/// The hashes of a present state's bits that no data input but one moves: where this one is 0, and where it is 1.
#[derive(Clone, Copy)]
pub struct PresentHashes {
    pub low: u64,
    pub high: u64,
}

/// The hashes of where all runs lead from one cycle: where the data input is 0, and where it is 1.
#[derive(Drop)]
pub struct NextStateHashes {
    pub low: List<u64>,
    pub high: List<u64>,
}

/// The flip-flops that are independent where there is no data input.
fn unsplit(alloc: Global, net: &Netlist) -> Result<Split, NoMemory>
    ensures low { IfOk result (λ split. IsIndependent (circuit net.now) split.input false split.low) }
    ensures high { IfOk result (λ split. IsIndependent (circuit net.now) split.input true split.high) }
{
    let low = independent_flops(alloc, net, 0, false)?;
    let high = independent_flops(alloc, net, 0, true)?;
    Ok(Split {
        input: 0,
        low,
        high,
    })
}

/// A data input, if there is one, and the flip-flops that no other one moves.
fn best_split(alloc: Global, net: &Netlist) -> Result<Split, NoMemory>
    ensures low { IfOk result (λ split. IsIndependent (circuit net.now) split.input false split.low) }
    ensures high { IfOk result (λ split. IsIndependent (circuit net.now) split.input true split.high) }
{
    match split_of(alloc, net)? {
        Some(split) => Ok(split),
        None => unsplit(alloc, net),
    }
}

/// A netlist with a data input held at 0, and with the same one held at 1.
#[derive(Drop)]
struct Sides<'a> {
    low: HeldInput<'a>,
    high: HeldInput<'a>,
}

/// The second side of a split beside the first.
fn beside<'a>(
    alloc: Global,
    net: &'a Netlist,
    wide: usize,
    low: HeldInput<'a>,
    split: &Split,
) -> Result<Sides<'a>, NoMemory>
    requires wide { IsTrue (is_wide wide) }
    requires some { 1 ≤ wide }
    requires few { wide ≤ 4 }
    requires independent { IsIndependent (circuit net.now) split.now.input true split.now.high }
    ensures low { IfOk result (λ sides. sides.low ≡ low.entry) }
    ensures high { IfOk result (λ sides. Holds (circuit net.now) wide split.now.input true sides.high) }
{
    let high = HeldInput::new(alloc, net, wide, split.input as usize, true, &split.high)?;
    Ok(Sides { low, high })
}

/// Both sides of a split.
fn sides_of<'a>(
    alloc: Global,
    net: &'a Netlist,
    wide: usize,
    split: &Split,
) -> Result<Sides<'a>, NoMemory>
    requires wide { IsTrue (is_wide wide) }
    requires some { 1 ≤ wide }
    requires few { wide ≤ 4 }
    requires low { IsIndependent (circuit net.now) split.now.input false split.now.low }
    requires high { IsIndependent (circuit net.now) split.now.input true split.now.high }
    ensures low { IfOk result (λ sides. Holds (circuit net.now) wide split.now.input false sides.low) }
    ensures high { IfOk result (λ sides. Holds (circuit net.now) wide split.now.input true sides.high) }
{
    let side = HeldInput::new(alloc, net, wide, split.input as usize, false, &split.low)?;
    let sides = beside(alloc, net, wide, side, split)?;
    Ok(sides)
}

/// Where all runs lead from the cycle of a pass.
fn row_of(
    alloc: Global,
    pass: &Pass<'_>,
    low: &mut HeldInput<'_>,
    high: &mut HeldInput<'_>,
) -> Result<NextStateHashes, NoMemory>
    requires low { IsSide pass.now low.old false }
    requires high { IsSide pass.now high.old true }
    ensures low { low.new ≡ low.old }
    ensures high { high.new ≡ high.old }
    ensures row { IfOk result (λ row. TellsRow pass.now low.old high.old row pass.now.cycle) }
{
    let lows = low.hashes(alloc, pass.planes(), pass.count())?;
    let highs = high.hashes(alloc, pass.planes(), pass.count())?;
    Ok(NextStateHashes {
        low: lows,
        high: highs,
    })
}

/// The row of one more cycle.
fn advance(
    alloc: Global,
    pass: &mut Pass<'_>,
    low: &mut HeldInput<'_>,
    high: &mut HeldInput<'_>,
    rows: &mut List<NextStateHashes>,
) -> Result<(), NoMemory>
    requires ahead { IsForward pass.old low.old high.old rows.old }
    requires few { length rows.old ≤ MAX_CYCLES }
    ensures same { IsSamePass pass.old pass.new }
    ensures low { low.new ≡ low.old }
    ensures high { high.new ≡ high.old }
    ensures ahead { IsForward pass.new low.old high.old rows.new }
    ensures grows { Extended rows.old rows.new }
    ensures more { OnOk result (length rows.new ≡ length rows.old + 1) }
{
    step_to(pass, rows.len());
    let row = row_of(alloc, pass, low, high)?;
    rows.push(row)
}

/// The rows of all cycles up to one.
fn reach(
    alloc: Global,
    pass: &mut Pass<'_>,
    low: &mut HeldInput<'_>,
    high: &mut HeldInput<'_>,
    rows: &mut List<NextStateHashes>,
    cycle: usize,
) -> Result<(), NoMemory>
    requires ahead { IsForward pass.old low.old high.old rows.old }
    requires few { cycle ≤ MAX_CYCLES }
    ensures same { IsSamePass pass.old pass.new }
    ensures low { low.new ≡ low.old }
    ensures high { high.new ≡ high.old }
    ensures ahead { IsForward pass.new low.old high.old rows.new }
    ensures grows { Extended rows.old rows.new }
    ensures there { OnOk result (cycle < length rows.new) }
{
    'cycles: for _ in rows.len()..cycle + 1 {
        advance(alloc, pass, low, high, rows)?;
    }
    Ok(())
}

/// Brings a pass to a cycle that a chip keeps. It stays where it is, if the cycle is not kept.
fn lend(chip: &Chip<'_>, pass: &mut Pass<'_>, cycle: usize)
    requires circuit { pass.old.circuit ≡ chip.now.recording.circuit }
    requires runs { pass.old.runs ≡ chip.now.recording.runs }
    requires few { cycle ≤ MAX_CYCLES }
    ensures same { IsSamePass pass.old pass.new }
    ensures there { (pass.new.cycle ≡ pass.old.cycle) ⊎ (pass.new.cycle ≡ cycle) }
{
    match chip.kept(cycle) {
        Some(planes) => pass.load(planes, cycle as u32),
        None => {}
    }
}

/// The row of one more cycle, out of the planes that a chip keeps, or else by a step.
fn advance_by(
    alloc: Global,
    chip: &Chip<'_>,
    pass: &mut Pass<'_>,
    low: &mut HeldInput<'_>,
    high: &mut HeldInput<'_>,
    rows: &mut List<NextStateHashes>,
) -> Result<(), NoMemory>
    requires circuit { pass.old.circuit ≡ chip.now.recording.circuit }
    requires runs { pass.old.runs ≡ chip.now.recording.runs }
    requires ahead { IsForward pass.old low.old high.old rows.old }
    requires few { length rows.old ≤ MAX_CYCLES }
    ensures same { IsSamePass pass.old pass.new }
    ensures low { low.new ≡ low.old }
    ensures high { high.new ≡ high.old }
    ensures ahead { IsForward pass.new low.old high.old rows.new }
    ensures grows { Extended rows.old rows.new }
    ensures more { OnOk result (length rows.new ≡ length rows.old + 1) }
{
    lend(chip, pass, rows.len());
    advance(alloc, pass, low, high, rows)
}

/// The rows of all cycles up to one, out of the planes that a chip keeps as far as it has them.
fn reach_by(
    alloc: Global,
    chip: &Chip<'_>,
    pass: &mut Pass<'_>,
    low: &mut HeldInput<'_>,
    high: &mut HeldInput<'_>,
    rows: &mut List<NextStateHashes>,
    cycle: usize,
) -> Result<(), NoMemory>
    requires circuit { pass.old.circuit ≡ chip.now.recording.circuit }
    requires runs { pass.old.runs ≡ chip.now.recording.runs }
    requires ahead { IsForward pass.old low.old high.old rows.old }
    requires few { cycle ≤ MAX_CYCLES }
    ensures same { IsSamePass pass.old pass.new }
    ensures low { low.new ≡ low.old }
    ensures high { high.new ≡ high.old }
    ensures ahead { IsForward pass.new low.old high.old rows.new }
    ensures grows { Extended rows.old rows.new }
{
    'cycles: for _ in rows.len()..cycle + 1 {
        advance_by(alloc, chip, pass, low, high, rows)?;
    }
    Ok(())
}

/// Whether a lane has one of two hashes.
fn is_aimed(row: &NextStateHashes, lane: usize, aim: PresentHashes) -> bool
    requires low { lane < length row.now.low }
    requires high { lane < length row.now.high }
    ensures { result ≡ ((slice_index_or row.now.low lane 0 == aim.low) || (slice_index_or row.now.high lane 0 == aim.high)) }
{
    let low = *row.low.get(lane);
    let high = *row.high.get(lane);
    low == aim.low || high == aim.high
}

/// Where the recorded states lead, made cycle by cycle as it is asked for: 16 bytes for a run and a cycle. Next states are
/// made where one data input is 0 and where it is 1, and are looked at in the flip-flops that no other data input moves
/// then, by the parities of groups of them. Contracts see the machine, the runs, and these groups.
pub struct Forward<'a> {
    pass: Pass<'a>,
    low: HeldInput<'a>,
    high: HeldInput<'a>,
    rows: List<NextStateHashes>,
    firsts: Firsts,
}

// One function for every place that drops one, so that the proof of each such place stays small.
impl<'a> Drop for Forward<'a> {
    fn drop(self) {
        let Forward {
            pass,
            low,
            high,
            rows,
            firsts,
        } = self;
        drop(pass);
        drop(low);
        drop(high);
        drop(rows);
        drop(firsts);
    }
}

impl<'a> Model for Forward<'a> {
    ghost use Rattle.bs_preimage_recorded.specs.Firsts.{AreNoted};
    ghost use Rattle.bs_preimage_recorded.specs.Forward.{Ahead, IsForward};

    ghost Value = { Ahead };

    ghost view = { λ f. record { circuit = f.pass.circuit; runs = f.pass.runs; low = f.low.groups; high = f.high.groups } };

    ghost invariant = { λ f. IsForward f.pass f.low f.high f.rows × AreNoted f.firsts.low f.firsts.high f.firsts.cycles f.rows };
}

/// Where the runs of a pass at reset lead, of no cycle yet.
fn started<'a>(
    alloc: Global,
    net: &'a Netlist,
    split: &Split,
    pass: Pass<'a>,
) -> Result<Forward<'a>, NoMemory>
    requires net { circuit net.now ≡ pass.circuit }
    requires reset { pass.cycle ≡ 0 }
    requires low { IsIndependent (circuit net.now) split.now.input false split.now.low }
    requires high { IsIndependent (circuit net.now) split.now.input true split.now.high }
    ensures circuit { IfOk result (λ f. f.circuit ≡ pass.entry.circuit) }
    ensures runs { IfOk result (λ f. f.runs ≡ pass.entry.runs) }
{
    let Sides { low, high } = sides_of(alloc, net, pass.wide(), split)?;
    Ok(Forward {
        pass,
        low,
        high,
        rows: List::new(alloc),
        firsts: Firsts::new(alloc),
    })
}

impl<'a> Forward<'a> {
    /// Where the recorded runs of a chip lead, of no cycle yet.
    pub fn new(alloc: Global, chip: &Chip<'a>) -> Result<Forward<'a>, NoMemory>
        ensures circuit { IfOk result (λ f. f.circuit ≡ chip.now.recording.circuit) }
        ensures runs { IfOk result (λ f. f.runs ≡ chip.now.recording.runs) }
    {
        let net = chip.net();
        let split = best_split(alloc, net)?;
        let pass = chip.pass(alloc)?;
        let forward = started(alloc, net, &split, pass)?;
        Ok(forward)
    }

    /// What a recorded state that leads to a present one is looked up by.
    pub fn aim(&self, present: &Bits) -> PresentHashes
        requires { length present.now ≡ length self.now.circuit.flops }
        ensures { IsAim self.now present.now result }
    {
        let low = parity_hash(self.low.groups(), present);
        let high = parity_hash(self.high.groups(), present);
        PresentHashes { low, high }
    }

    /// A cycle before which no recorded state leads to a present one, of which this is the aim, under any input.
    pub fn start(&mut self, present: &Bits, aim: PresentHashes) -> Result<u32, NoMemory>
        requires { IsAim self.old present.now aim }
        ensures none { IfOk result (NoneLeadBefore self.old.circuit self.old.runs present.now) }
        ensures kept { self.new ≡ self.old }
    {
        let _width = present.len();
        note_rows(&mut self.firsts, &self.rows)?;
        Ok(first_of(&self.firsts, aim))
    }

    /// Sees where the recorded states of the cycles up to one lead, out of the planes that a chip of the same recording keeps
    /// where there are some.
    pub fn follow(&mut self, alloc: Global, chip: &Chip<'_>, cycle: u32) -> Result<(), NoMemory>
        requires circuit { self.old.circuit ≡ chip.now.recording.circuit }
        requires runs { self.old.runs ≡ chip.now.recording.runs }
        requires few { cycle ≤ MAX_CYCLES }
        ensures kept { self.new ≡ self.old }
    {
        reach_by(
            alloc,
            chip,
            &mut self.pass,
            &mut self.low,
            &mut self.high,
            &mut self.rows,
            cycle as usize,
        )
    }

    /// Whether the state of a moment may lead to a present one, of which this is the aim. Where it says no, it does so
    /// under no input. Runs are numbered from 1, and cycles from 0.
    pub fn may_lead(
        &mut self,
        alloc: Global,
        present: &Bits,
        aim: PresentHashes,
        run: u32,
        cycle: u32,
    ) -> Result<bool, NoMemory>
        requires moment { IsMoment self.old.runs (moment run cycle) }
        requires aim { IsAim self.old present.now aim }
        ensures lead { IfOk result (λ may. may ≡ false → LeadsNowhere self.old.circuit (state_at self.old.circuit (run_of self.old.runs run) cycle) present.now) }
        ensures kept { self.new ≡ self.old }
    {
        let _cycles = self.pass.cycles(run);
        reach(
            alloc,
            &mut self.pass,
            &mut self.low,
            &mut self.high,
            &mut self.rows,
            cycle as usize,
        )?;
        let row = self.rows.get(cycle as usize);
        Ok(is_aimed(row, run as usize - 1, aim))
    }
}
