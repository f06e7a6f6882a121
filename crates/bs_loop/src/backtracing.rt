//! The whole way back: turns until a stop, and the report of them.
ghost use Rattle.std.specs.Prelude.{◌≡◌, ◌≤◌, ◌<◌, ◌^◌, ◌+◌, [], false, length, map, All, Err, IfOk, MatchOption, MatchResult};
ghost use Rattle.bs_log.specs.LineForms.{HasText};
ghost use Rattle.bs_log.specs.Refusal.{history_of, IsAccepted};
ghost use Rattle.bs_log.specs.Lean.{IsLean};
ghost use Rattle.bs_scan.specs.Crash.{crash_of, DumpFits};
ghost use Rattle.bs_encode.specs.Depth.{basis_of};
ghost use Rattle.bs_report.specs.Chain.{present_of};
ghost use Rattle.bs_report.specs.Stop.{StopsFor};
ghost use Rattle.bs_report.specs.Good.{IsGood};
ghost use Rattle.bs_report.specs.Progress.{GoesBack};
ghost use Rattle.bs_report.specs.Trace.{trace_end, trace_inputs, trace_states};
ghost use Rattle.bs_report.specs.Text.{HasReportText};
ghost use Rattle.bs_report.specs.Valid.{IsValid};
ghost use Rattle.bs_report.specs.declared.report.Stop.TheVariants.{Reset, Length};
ghost use Rattle.bs_preimage.specs.Preimage.{fresh};
ghost use Rattle.bs_loop.specs.Budget.{IsBudget};
ghost use Rattle.bs_loop.specs.HitInput.{TakesRecorded};
ghost use Rattle.bs_loop.specs.Made.{HasMade};
ghost use Rattle.bs_loop.specs.Way.{HasEnded};
ghost use Rattle.bs_report.specs.WideCands.{HasWideCands};
ghost use Rattle.bs_loop.specs.Report.{IsAlikeButLog, IsOfWay, IsWithLog};
ghost use Rattle.bs_loop.specs.Bound.{HasBound};
ghost use Rattle.bs_loop.specs.Searched.{AreSearched, is_cut, is_last_cut, TellsCut, WereSearched};

use crate::known::SearchExtent;
use crate::steps::turn;
use crate::trace::{inputs_back, states_back};
use bs_bits::{Bits, List, NoMemory};
use bs_chip::Chip;
use bs_log::Log;
use bs_preimage::Preimage;
use bs_preimage_recorded::Finder;
use bs_report::{Budgets, Report, Step, Stop, end_of};
use bs_scan::{Dump, Seen};
use std::alloc::Global;

/// The steps made, and why no more are made.
#[derive(Drop)]
struct Way {
    steps: List<Step>,
    stop: Stop,
}

/// The cause at a present, where all steps are made.
fn cause_at(now: &Dump) -> Stop
    ensures { MatchOption now.now.stored (result ≡ Reset) (λ _. result ≡ Length) }
{
    match &now.stored {
        None => Stop::Reset,
        Some(_) => Stop::Length,
    }
}

/// Turn after turn from the dump until a stop, with what searches the recorded moments.
fn walk_turns<'a>(
    alloc: Global,
    chip: &mut Chip<'a>,
    finder: &mut Finder<'a, '_>,
    preimage: &mut Preimage<'_>,
    dump: &Dump,
    budgets: &Budgets,
    searched: &mut List<SearchExtent>,
) -> Result<Way, NoMemory>
    requires searched { searched.old ≡ [] }
    requires finder { finder.old.recording ≡ chip.old.recording }
    requires fresh { preimage.old ≡ fresh chip.old.recording.circuit chip.old.recording.choice }
    requires dump { DumpFits chip.old.recording.circuit chip.old.recording.choice dump.now }
    requires budgets { IsBudget budgets.now }
    ensures searched { IfOk result (λ way. AreSearched chip.old.recording budgets.now.conflicts way.steps searched.new) }
    ensures made { IfOk result (λ way. HasMade (crash_of chip.old.recording dump.now) budgets.now way.steps preimage.new) }
    ensures few { IfOk result (λ way. length way.steps ≤ budgets.now.steps) }
    ensures stop { IfOk result (λ way. StopsFor (crash_of chip.old.recording dump.now) budgets.now way.steps way.stop) }
    ensures chip { chip.new.recording ≡ chip.old.recording }
{
    let mut steps = List::new(alloc);
    let mut now = dump.copy()?;
    let mut at = None;
    'turns: for _ in 0..budgets.steps {
        match turn(
            alloc, chip, finder, preimage, budgets, &mut steps, searched, &mut now, &mut at,
        )? {
            Some(stop) => return Ok(Way { steps, stop }),
            None => {}
        }
    }
    let stop = cause_at(&now);
    Ok(Way { steps, stop })
}

/// What searches the recorded moments of a chip for predecessors of the same netlist and signature.
fn finder_of<'a, 'p>(
    alloc: Global,
    chip: &Chip<'a>,
    preimage: &Preimage<'p>,
) -> Result<Finder<'a, 'p>, NoMemory>
    requires circuit { preimage.now.circuit ≡ chip.now.recording.circuit }
    requires choice { preimage.now.choice ≡ chip.now.recording.choice }
    ensures { IfOk result (λ finder. finder.recording ≡ chip.now.recording) }
{
    match preimage.probe(alloc) {
        Ok(probe) => Finder::new(alloc, chip, probe),
        Err(want) => Err(want),
    }
}

/// Whether a search was cut.
fn is_cut(reach: SearchExtent) -> bool
    ensures { result ≡ is_cut reach }
{
    match reach {
        SearchExtent::Whole => false,
        SearchExtent::Limited(_) => true,
        SearchExtent::Unanswered(_) => true,
    }
}

/// Whether the last of some searches was cut.
fn is_last_cut(reaches: &[SearchExtent]) -> bool
    ensures { result ≡ is_last_cut reaches.now }
{
    match reaches.last() {
        None => false,
        Some(reach) => is_cut(*reach),
    }
}

/// Turn after turn from the dump until a stop, and whether the search for the last step was cut.
fn walk(
    alloc: Global,
    chip: &mut Chip<'_>,
    preimage: &mut Preimage<'_>,
    dump: &Dump,
    budgets: &Budgets,
    cut: &mut bool,
) -> Result<Way, NoMemory>
    requires fresh { preimage.old ≡ fresh chip.old.recording.circuit chip.old.recording.choice }
    requires dump { DumpFits chip.old.recording.circuit chip.old.recording.choice dump.now }
    requires budgets { IsBudget budgets.now }
    ensures searched { IfOk result (λ way. WereSearched chip.old.recording budgets.now.conflicts way.steps) }
    ensures cut { IfOk result (λ way. TellsCut chip.old.recording budgets.now.conflicts way.steps cut.new) }
    ensures made { IfOk result (λ way. HasMade (crash_of chip.old.recording dump.now) budgets.now way.steps preimage.new) }
    ensures few { IfOk result (λ way. length way.steps ≤ budgets.now.steps) }
    ensures stop { IfOk result (λ way. StopsFor (crash_of chip.old.recording dump.now) budgets.now way.steps way.stop) }
    ensures chip { chip.new.recording ≡ chip.old.recording }
{
    match finder_of(alloc, chip, preimage) {
        Ok(found) => {
            let mut finder = found;
            let mut searched = List::new(alloc);
            let way = walk_turns(
                alloc,
                chip,
                &mut finder,
                preimage,
                dump,
                budgets,
                &mut searched,
            );
            *cut = is_last_cut(searched.slice());
            drop(searched);
            drop(finder);
            way
        }
        Err(want) => Err(want),
    }
}

/// The trace of steps from a dump: its states, its inputs, and which places of the last state are not known.
#[derive(Drop)]
struct Trace {
    states: List<Bits>,
    inputs: List<Bits>,
    free: Bits,
}

/// The trace of the steps.
fn traced(alloc: Global, chip: &Chip<'_>, dump: &Dump, steps: &[Step]) -> Result<Trace, NoMemory>
    requires { All (HasWideCands chip.now.recording.circuit) steps.now }
    ensures states { IfOk result (λ trace. trace.states ≡ trace_states (trace_end (crash_of chip.now.recording dump.now) steps.now).bits steps.now) }
    ensures inputs { IfOk result (λ trace. trace.inputs ≡ trace_inputs steps.now) }
    ensures free { IfOk result (λ trace. trace.free ≡ (trace_end (crash_of chip.now.recording dump.now) steps.now).free) }
{
    let Seen { bits, free } = end_of(alloc, chip.net(), &dump.state, steps)?;
    let states = states_back(alloc, steps, &bits)?;
    let inputs = inputs_back(alloc, steps)?;
    Ok(Trace {
        states,
        inputs,
        free,
    })
}

/// The report of a way and its trace, with no line of a log.
fn report_of(alloc: Global, way: Way, trace: Trace, dump: &Dump, budgets: &Budgets) -> Report
    ensures depth { result.depth ≡ dump.now.depth }
    ensures asked { result.budgets ≡ budgets.now }
    ensures steps { result.steps ≡ way.steps }
    ensures stop { result.stop ≡ way.stop }
    ensures states { result.states ≡ trace.states }
    ensures inputs { result.inputs ≡ trace.inputs }
    ensures free { result.free ≡ trace.free }
{
    Report {
        depth: dump.depth,
        budgets: *budgets,
        steps: way.steps,
        stop: way.stop,
        states: trace.states,
        inputs: trace.inputs,
        free: trace.free,
        log: Log::new(alloc),
    }
}

/// The report of a way, with no line of a log.
fn reported(
    alloc: Global,
    chip: &Chip<'_>,
    way: Way,
    dump: &Dump,
    budgets: &Budgets,
) -> Result<Report, NoMemory>
    requires { All (HasWideCands chip.now.recording.circuit) way.steps }
    ensures { IfOk result (IsOfWay (crash_of chip.now.recording dump.now) budgets.now way.steps way.stop) }
{
    match traced(alloc, chip, dump, way.steps.slice()) {
        Ok(trace) => Ok(report_of(alloc, way, trace, dump, budgets)),
        Err(want) => Err(want),
    }
}

/// The way back from a dump, its report with no line of a log, and whether the search for the last step was cut.
fn unlogged(
    alloc: Global,
    chip: &mut Chip<'_>,
    preimage: &mut Preimage<'_>,
    dump: &Dump,
    budgets: &Budgets,
    cut: &mut bool,
) -> Result<Report, NoMemory>
    requires fresh { preimage.old ≡ fresh chip.old.recording.circuit chip.old.recording.choice }
    requires dump { DumpFits chip.old.recording.circuit chip.old.recording.choice dump.now }
    requires budgets { IsBudget budgets.now }
    ensures searched { IfOk result (λ r. WereSearched chip.old.recording budgets.now.conflicts r.steps) }
    ensures cut { IfOk result (λ r. TellsCut chip.old.recording budgets.now.conflicts r.steps cut.new) }
    ensures way { IfOk result (λ r. IsOfWay (crash_of chip.old.recording dump.now) budgets.now r.steps r.stop r) }
    ensures ended { IfOk result (λ r. HasEnded (crash_of chip.old.recording dump.now) budgets.now r.steps preimage.new r.stop) }
    ensures chip { chip.new.recording ≡ chip.old.recording }
{
    match walk(alloc, chip, preimage, dump, budgets, cut) {
        Ok(way) => reported(alloc, chip, way, dump, budgets),
        Err(want) => Err(want),
    }
}

/// The log of the search.
fn log_of(preimage: Preimage<'_>) -> Log
    ensures lines { history_of result ≡ preimage.entry.history }
    ensures lean { preimage.entry.failed ≡ false → IsLean preimage.entry.problem (history_of result) }
    ensures accepted { preimage.entry.failed ≡ false → IsAccepted preimage.entry.problem result }
    ensures texts { All HasText result }
    ensures few { length result < 2 ^ 64 }
{
    let log = preimage.into_log();
    let _lines = log.len();
    log
}

/// The report with a log.
fn with_log(report: Report, log: Log) -> Report
    ensures log { result.log ≡ log }
    ensures alike { IsAlikeButLog report result }
{
    let mut report = report;
    report.log = log;
    report
}

/// The report with the log of the search, where there is a report.
fn logged(report: Result<Report, NoMemory>, preimage: Preimage<'_>) -> Result<Report, NoMemory>
    ensures { MatchResult report (λ report. IfOk result (IsWithLog preimage.entry report)) (λ want. result ≡ Err want) }
{
    match report {
        Ok(report) => {
            let log = log_of(preimage);
            Ok(with_log(report, log))
        }
        Err(want) => {
            drop(preimage);
            Err(want)
        }
    }
}

/// The backtrace of a dump: its report is good and valid. The dump has the widths of the chip, and `preimage` is of the same
/// netlist and signature. The moment before a hit is among the candidates that follow, unless their list ends with conflicts. Where a
/// list is about to be cut, the recorded moments are searched. Where the search was whole the step hits the first moment of any run whose
/// state is a predecessor that agrees with the stored signatures, of all predecessors and not only of the listed ones, unless its list
/// ends with conflicts; and where it was cut, no moment before the one that it came to is in a predecessor. It was cut where it had asked
/// about as many states as it may, or where a solve about that moment's state spent its budget, or the state cannot be asked about.
/// Where the dump is known in part and the input recorded at the first hit leads to what is known of it, the first step lists this input.
/// Behind the call `cut` tells whether the search for the last step was cut.
pub fn backtrace(
    alloc: Global,
    chip: &mut Chip<'_>,
    preimage: Preimage<'_>,
    dump: &Dump,
    budgets: &Budgets,
    cut: &mut bool,
) -> Result<Report, NoMemory>
    requires fresh { preimage ≡ fresh chip.old.recording.circuit chip.old.recording.choice }
    requires dump { DumpFits chip.old.recording.circuit chip.old.recording.choice dump.now }
    requires budgets { IsBudget budgets.now }
    ensures budgets { IfOk result (λ r. r.budgets ≡ budgets.now) }
    ensures good { IfOk result (IsGood (crash_of chip.old.recording dump.now)) }
    ensures valid { IfOk result (λ r. IsValid (crash_of chip.old.recording dump.now) (basis_of chip.old.recording.circuit chip.old.recording.choice (map present_of r.steps)) r) }
    ensures progress { IfOk result GoesBack }
    ensures bound { IfOk result (λ r. HasBound (basis_of chip.old.recording.circuit chip.old.recording.choice (map present_of r.steps)).problem r) }
    ensures readable { IfOk result HasReportText }
    ensures trace { IfOk result (λ r. length r.states ≡ length r.inputs + 1) }
    ensures lean { IfOk result (λ r. IsLean (basis_of chip.old.recording.circuit chip.old.recording.choice (map present_of r.steps)).problem (history_of r.log)) }
    ensures searched { IfOk result (λ r. WereSearched chip.old.recording budgets.now.conflicts r.steps) }
    ensures cut { IfOk result (λ r. TellsCut chip.old.recording budgets.now.conflicts r.steps cut.new) }
    ensures takes { IfOk result (λ r. All (TakesRecorded chip.old.recording.circuit chip.old.recording.runs) r.steps) }
    ensures chip { chip.new.recording ≡ chip.old.recording }
{
    chip.is_recording();
    let mut preimage = preimage;
    let report = unlogged(alloc, chip, &mut preimage, dump, budgets, cut);
    logged(report, preimage)
}
