//! The text of the values that one run alone has.
ghost use Rattle.std.specs.Prelude.{◌≡◌, ◌<◌, ◌≤◌, ◌-◌, ◌^◌, [], length, map, All, IfOk};
ghost use Rattle.bs_net.specs.Netlist.{circuit};
ghost use Rattle.bs_inspect_view.specs.Signals.{AreSignals, signal_in};
ghost use Rattle.bs_stim.specs.Runs.{inputs_of};
ghost use Rattle.bs_inspect_report.specs.Keys.{flop_keys as flop_keys_of};
ghost use Rattle.bs_inspect_near.specs.Novel.{TellsSignals, TellsNovel, TellsOf};
ghost use Rattle.bs_inspect_near.specs.Known.{all_places, AreOwn, AreWhole};

use crate::novel_line::{alone_text, first_of, novelties_text};
use crate::novelty::{novelties_of, ordered};
use crate::run::ChosenRun;
use crate::run_states::own_states;
use crate::sets::sets_of;
use bs_bits::{Bits, List, NoMemory};
use bs_inspect_report::flop_keys;
use bs_inspect_view::{Signal, signals};
use bs_net::Netlist;
use bs_stim::Runs;
use std::alloc::Global;

/// The text by the states of the run.
fn text_by_states(
    run: &ChosenRun<'_>,
    most: u64,
    signals: &[Signal<'_>],
    sets: &[List<Bits>],
    own: &List<Bits>,
) -> Result<Vec<u8>, NoMemory>
    requires own { AreOwn (circuit run.now.net.now) (inputs_of run.now.runs.now) run.now.number own.now }
    requires narrow { All (λ s. length s.places < 2 ^ 32) signals.now }
    requires sets { AreWhole (circuit run.now.net.now) (inputs_of run.now.runs.now) run.now.number (all_places signals.now) sets.now }
    ensures { IfOk result (λ text. TellsOf (circuit run.now.net.now) (inputs_of run.now.runs.now) run.now.number most (map signal_in signals.now) text.items) }
{
    let novelties = novelties_of(run, own, signals, sets)?;
    let ordered = ordered(novelties)?;
    let first = first_of(ordered.as_slice(), most);
    let text = novelties_text(run, own, signals, first)?;
    drop(ordered);
    Ok(text)
}

/// The text by the values that other runs have.
#[tactic(auto, using(crate::proofs::NovelLemmas::run_there))]
fn text_by_sets(
    run: &ChosenRun<'_>,
    most: u64,
    signals: &[Signal<'_>],
    sets: &[List<Bits>],
) -> Result<Vec<u8>, NoMemory>
    requires inputs { run.now.runs.now.width ≡ length (circuit run.now.net.now).inputs }
    requires from_one { 1 ≤ run.now.number }
    requires there { run.now.number ≤ length run.now.runs.now.runs }
    requires narrow { All (λ s. length s.places < 2 ^ 32) signals.now }
    requires sets { AreWhole (circuit run.now.net.now) (inputs_of run.now.runs.now) run.now.number (all_places signals.now) sets.now }
    ensures { IfOk result (λ text. TellsOf (circuit run.now.net.now) (inputs_of run.now.runs.now) run.now.number most (map signal_in signals.now) text.items) }
{
    let own = own_states(run)?;
    let text = text_by_states(run, most, signals, sets, &own);
    drop(own);
    text
}

/// The text of these signals.
fn text_of(run: &ChosenRun<'_>, most: u64, signals: &[Signal<'_>]) -> Result<Vec<u8>, NoMemory>
    requires inputs { run.now.runs.now.width ≡ length (circuit run.now.net.now).inputs }
    requires from_one { 1 ≤ run.now.number }
    requires there { run.now.number ≤ length run.now.runs.now.runs }
    requires narrow { All (λ s. length s.places < 2 ^ 32) signals.now }
    ensures { IfOk result (λ text. TellsOf (circuit run.now.net.now) (inputs_of run.now.runs.now) run.now.number most (map signal_in signals.now) text.items) }
{
    let sets = sets_of(run, signals)?;
    let text = text_by_sets(run, most, signals, sets.as_slice());
    drop(sets);
    text
}

/// The signals of keys.
#[tactic(auto, using(crate::proofs::PlaceLemmas::few_places))]
fn all_signals<'a>(alloc: Global, keys: &[&'a str]) -> Result<Vec<Signal<'a>>, NoMemory>
    requires { length keys.now < 2 ^ 32 }
    ensures are { IfOk result (λ signals. AreSignals [] (map (λ s. s.now) keys.now) (map signal_in signals.items)) }
    ensures narrow { IfOk result (λ signals. All (λ s. length s.places < 2 ^ 32) signals.items) }
{
    let signals = signals(alloc, keys, &[])?;
    Ok(signals)
}

/// The text of the signals of keys.
#[tactic(auto, using(crate::proofs::NovelLemmas::tells_signals))]
fn text_of_keys(run: &ChosenRun<'_>, most: u64, keys: &[&str]) -> Result<Vec<u8>, NoMemory>
    requires inputs { run.now.runs.now.width ≡ length (circuit run.now.net.now).inputs }
    requires from_one { 1 ≤ run.now.number }
    requires there { run.now.number ≤ length run.now.runs.now.runs }
    requires few { length keys.now < 2 ^ 32 }
    requires keys { map (λ s. s.now) keys.now ≡ flop_keys_of run.now.net.now.raw }
    ensures { IfOk result (λ text. TellsSignals run.now.net.now.raw (inputs_of run.now.runs.now) run.now.number most text.items) }
{
    let signals = all_signals(run.alloc, keys)?;
    let text = text_of(run, most, signals.as_slice())?;
    drop(signals);
    Ok(text)
}

/// The text of the signals of a netlist's flip-flops.
fn text_of_flops(run: &ChosenRun<'_>, most: u64) -> Result<Vec<u8>, NoMemory>
    requires inputs { run.now.runs.now.width ≡ length (circuit run.now.net.now).inputs }
    requires from_one { 1 ≤ run.now.number }
    requires there { run.now.number ≤ length run.now.runs.now.runs }
    ensures { IfOk result (λ text. TellsSignals run.now.net.now.raw (inputs_of run.now.runs.now) run.now.number most text.items) }
{
    let keys = flop_keys(run.alloc, run.net)?;
    let text = text_of_keys(run, most, keys.as_slice());
    drop(keys);
    text
}

/// The signals of a netlist's flip-flops that in a run have a value which no other run ever has, by the first cycle of such a value: so
/// many at most. Told are those of which the others have `MAX_VALUES` values at most. Runs are numbered from 1. The runs are moved in
/// lock step; beside the values it takes a byte for each flip-flop and each cycle of the one run.
#[tactic(auto, using(crate::proofs::NovelLemmas::tells_alone, crate::proofs::NovelLemmas::tells_several))]
pub fn novel_text(
    alloc: Global,
    net: &Netlist,
    runs: &Runs,
    number: u32,
    most: u64,
) -> Result<Vec<u8>, NoMemory>
    requires inputs { runs.now.width ≡ length (circuit net.now).inputs }
    requires from_one { 1 ≤ number }
    requires there { number ≤ length runs.now.runs }
    ensures { IfOk result (λ text. TellsNovel net.now.raw runs.now number most text.items) }
{
    if runs.count() <= 1 {
        let text = alone_text(alloc)?;
        return Ok(text);
    }
    let run = ChosenRun {
        alloc,
        net,
        runs,
        number,
    };
    let text = text_of_flops(&run, most)?;
    Ok(text)
}
