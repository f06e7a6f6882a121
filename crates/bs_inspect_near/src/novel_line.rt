//! What is found, a line each.
ghost use Rattle.std.specs.Prelude.{◌≡◌, ◌<◌, ◌+◌, ◌^◌, ◌++◌, length, map, take, All, IfOk, OnOk};
ghost use Rattle.std.specs.List.{flat_map};
ghost use Rattle.bs_net.specs.Netlist.{circuit};
ghost use Rattle.bs_inspect_view.specs.Signals.{signal_in};
ghost use Rattle.bs_stim.specs.Runs.{inputs_of};
ghost use Rattle.bs_inspect_near.specs.Novel.{alone_text, novelty_line, novelties_text};
ghost use Rattle.bs_inspect_near.specs.Known.{AreOwn};
ghost use Rattle.bs_inspect_near.specs.Shown.{IsShowable, state_line};

use crate::novelty::Novelty;
use crate::run::ChosenRun;
use bs_bits::{Bits, List, NoMemory, end_line, push_line, push_number, push_piece};
use bs_inspect_report::push_signal_value;
use bs_inspect_view::{Signal, push_rtl_name};
use std::alloc::Global;

/// Appends a line: a cycle, a signal with its value in a state, and a number of values.
fn push_state(
    text: &mut Vec<u8>,
    cycle: usize,
    signal: &Signal<'_>,
    state: &Bits,
    count: usize,
) -> Result<(), NoMemory>
    requires { length signal.now.places < 2 ^ 32 }
    ensures { OnOk result (text.new.items ≡ text.old.items ++ state_line cycle (signal_in signal.now) state.now count) }
{
    push_number(text, cycle as u64)?;
    push_piece(text, b" ")?;
    push_rtl_name(text, signal)?;
    push_piece(text, b" = ")?;
    push_signal_value(text, state, signal.places.slice())?;
    push_piece(text, b", others ")?;
    push_number(text, count as u64)?;
    end_line(text)?;
    Ok(())
}

/// Appends the line of what is found.
#[tactic(auto, using(crate::proofs::NovelTextLemmas::cycle_there))]
fn push_novelty(
    text: &mut Vec<u8>,
    run: &ChosenRun<'_>,
    own: &List<Bits>,
    signals: &[Signal<'_>],
    novelty: &Novelty,
) -> Result<(), NoMemory>
    requires own { AreOwn (circuit run.now.net.now) (inputs_of run.now.runs.now) run.now.number own.now }
    requires few { All (λ s. length s.places < 2 ^ 32) signals.now }
    requires showable { IsShowable (inputs_of run.now.runs.now) run.now.number (length signals.now) novelty.now }
    ensures { OnOk result (text.new.items ≡ text.old.items ++ novelty_line (circuit run.now.net.now) (inputs_of run.now.runs.now) run.now.number (map signal_in signals.now) novelty.now) }
{
    let _run = run;
    let signal = &signals[novelty.place];
    push_state(
        text,
        novelty.cycle,
        signal,
        own.get(novelty.cycle),
        novelty.count,
    )?;
    Ok(())
}

/// Appends the lines of what is found.
fn push_novelties(
    text: &mut Vec<u8>,
    run: &ChosenRun<'_>,
    own: &List<Bits>,
    signals: &[Signal<'_>],
    novelties: &[Novelty],
) -> Result<(), NoMemory>
    requires own { AreOwn (circuit run.now.net.now) (inputs_of run.now.runs.now) run.now.number own.now }
    requires few { All (λ s. length s.places < 2 ^ 32) signals.now }
    requires showable { All (λ f. IsShowable (inputs_of run.now.runs.now) run.now.number (length signals.now) f) novelties.now }
    ensures { OnOk result (text.new.items ≡ text.old.items ++ flat_map (novelty_line (circuit run.now.net.now) (inputs_of run.now.runs.now) run.now.number (map signal_in signals.now)) novelties.now) }
{
    'novelties: for novelty in novelties {
        push_novelty(text, run, own, signals, novelty)?;
    }
    Ok(())
}

/// The first of what is found.
#[tactic(auto, using(crate::proofs::NovelTextLemmas::all_first))]
pub(crate) fn first_of(novelties: &[Novelty], most: u64) -> &[Novelty]
    ensures { result.now ≡ take most novelties.now }
{
    if most < novelties.len() as u64 {
        &novelties[..most as usize]
    } else {
        novelties
    }
}

/// The text of what is found: a line each, or that there is nothing.
#[tactic(auto, using(crate::proofs::NovelTextLemmas::text_none, crate::proofs::NovelTextLemmas::text_some))]
pub(crate) fn novelties_text(
    run: &ChosenRun<'_>,
    own: &List<Bits>,
    signals: &[Signal<'_>],
    novelties: &[Novelty],
) -> Result<Vec<u8>, NoMemory>
    requires own { AreOwn (circuit run.now.net.now) (inputs_of run.now.runs.now) run.now.number own.now }
    requires few { All (λ s. length s.places < 2 ^ 32) signals.now }
    requires showable { All (λ f. IsShowable (inputs_of run.now.runs.now) run.now.number (length signals.now) f) novelties.now }
    ensures { IfOk result (λ text. text.items ≡ novelties_text (circuit run.now.net.now) (inputs_of run.now.runs.now) run.now.number (map signal_in signals.now) novelties.now) }
{
    let mut text = Vec::new(run.alloc);
    if novelties.is_empty() {
        push_line(&mut text, b"nothing new")?;
        return Ok(text);
    }
    push_novelties(&mut text, run, own, signals, novelties)?;
    Ok(text)
}

/// That there is no other run.
pub(crate) fn alone_text(alloc: Global) -> Result<Vec<u8>, NoMemory>
    ensures { IfOk result (λ text. text.items ≡ alone_text) }
{
    let mut text = Vec::new(alloc);
    push_line(&mut text, b"no other run")?;
    Ok(text)
}
