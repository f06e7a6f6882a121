//! A look at the recorded runs for the state of a dump, and what is said of it.
ghost use Rattle.std.specs.Prelude.{◌≡◌, ◌∷◌, [], ◌++◌, length, option_map, reverse, IfOk, IfSome};
ghost use Rattle.bs_scan.specs.Crash.{dump_at};
ghost use Rattle.bs_scan.specs.Moments.{moment};
ghost use Rattle.bs_note_files.specs.Notes.{plain_text};
ghost use Rattle.bs_call.specs.Fits.{fit_of};
ghost use Rattle.bs_call.specs.Looks.{looked_text, moment_in, never_text, recorded_text, turned_advice, turned_or, turned_text};

use crate::fit::{Fit, fit_of};
use crate::reversed_bits::turned;
use crate::sentence::place_said;
use bs_bits::{Bits, List, NoMemory, push_piece};
use bs_chip::{Chip, Hit};
use bs_note_files::{pair_note, plain_note};
use bs_scan::Dump;
use std::alloc::Global;

/// A list of one state.
fn only(alloc: Global, state: Bits) -> Result<List<Bits>, NoMemory>
    ensures { IfOk result (λ list. list ≡ state ∷ []) }
{
    let mut list = List::new(alloc);
    list.push(state)?;
    Ok(list)
}

/// The first moment of the runs in a state.
#[tactic(auto, using(crate::proofs::LookLemmas::one_fits))]
fn first_in(alloc: Global, chip: &mut Chip<'_>, state: Bits) -> Result<Option<Hit>, NoMemory>
    requires { length state ≡ length chip.old.recording.circuit.flops }
    ensures first { IfOk result (λ hit. moment_in chip.old.recording state ≡ option_map (λ hit. moment hit.run hit.cycle) hit) }
    ensures dump { IfOk result (λ hit. IfSome hit (λ hit. hit.dump ≡ dump_at chip.old.recording (moment hit.run hit.cycle))) }
    ensures chip { chip.new.recording ≡ chip.old.recording }
{
    let list = only(alloc, state)?;
    chip.first(alloc, list.slice())
}

/// A note, and a sentence behind it.
fn followed(alloc: Global, said: &[u8], sentence: &[u8]) -> Result<Vec<u8>, NoMemory>
    ensures { IfOk result (λ note. note.items ≡ said.now ++ plain_text sentence.now) }
{
    let line = plain_note(alloc, sentence)?;
    let mut note = said.to_vec(alloc)?;
    push_piece(&mut note, &line)?;
    Ok(note)
}

/// The note where a run was in the state.
fn recorded_note(alloc: Global, said: &[u8], hit: &Hit, fit: Fit) -> Result<Vec<u8>, NoMemory>
    ensures { IfOk result (λ note. note.items ≡ recorded_text said.now (moment hit.now.run hit.now.cycle) hit.now.dump fit) }
{
    let place = place_said(alloc, "", hit)?;
    match fit {
        Fit::Same => followed(alloc, said, &place),
        Fit::Turned => pair_note(
            alloc,
            &place,
            b"this dump has it read backwards: turn it around, so that the bit of the signature's first line is the first on the left",
        ),
        Fit::Other => pair_note(
            alloc,
            &place,
            b"this dump has another: were state and `sig` read at the same cycle, and is the signature file the chip's?",
        ),
    }
}

/// What to do with a state that was recorded read backwards.
fn turned_advice(fit: Fit) -> &'static str
    ensures { result.now ≡ turned_advice fit }
{
    match fit {
        Fit::Same =>
            "turn the state around: its bits are in the order of the netlist's flip-flops, the first on the left",
        Fit::Turned =>
            "turn state and `sig` around: bits are in the order of the netlist's flip-flops and of the signature's lines, the first on the left",
        Fit::Other =>
            "turn the state around: its bits are in the order of the netlist's flip-flops, the first on the left; this dump has another `sig`",
    }
}

/// The note where a run was in the state read backwards.
fn turned_note(alloc: Global, hit: &Hit, fit: Fit) -> Result<Vec<u8>, NoMemory>
    ensures { IfOk result (λ note. note.items ≡ turned_text (moment hit.now.run hit.now.cycle) hit.now.dump fit) }
{
    let place = place_said(alloc, "read backwards, ", hit)?;
    pair_note(alloc, &place, turned_advice(fit).as_bytes())
}

/// The note where no run was in the state.
fn never_note(alloc: Global, said: &[u8]) -> Result<Vec<u8>, NoMemory>
    ensures { IfOk result (λ note. note.items ≡ never_text said.now) }
{
    followed(
        alloc,
        said,
        b"the dump's state itself was never recorded, nor that state read backwards; this alone is no fault: a crash need not be in a run",
    )
}

/// The same where no run was in the state itself, by the first moment in it.
fn turned_at(alloc: Global, dump: &Dump, hit: Hit) -> Result<Vec<u8>, NoMemory>
    ensures { IfOk result (λ note. note.items ≡ turned_text (moment hit.run hit.cycle) hit.dump (fit_of hit.dump dump.now)) }
{
    let fit = fit_of(alloc, &hit.dump, dump)?;
    turned_note(alloc, &hit, fit)
}

/// The note where a run was in the state, by the first moment in it.
fn recorded_at(alloc: Global, dump: &Dump, said: &[u8], hit: Hit) -> Result<Vec<u8>, NoMemory>
    ensures { IfOk result (λ note. note.items ≡ recorded_text said.now (moment hit.run hit.cycle) hit.dump (fit_of hit.dump dump.now)) }
{
    let fit = fit_of(alloc, &hit.dump, dump)?;
    recorded_note(alloc, said, &hit, fit)
}

/// The note where no run was in the state.
#[tactic(auto, using(crate::proofs::LookLemmas::turned_hit, crate::proofs::LookLemmas::turned_never, crate::proofs::LookLemmas::turned_fits))]
fn unrecorded(
    alloc: Global,
    chip: &mut Chip<'_>,
    dump: &Dump,
    said: &[u8],
) -> Result<Vec<u8>, NoMemory>
    requires { length dump.now.state.bits ≡ length chip.old.recording.circuit.flops }
    ensures text { IfOk result (λ note. note.items ≡ turned_or chip.old.recording dump.now said.now (moment_in chip.old.recording (reverse dump.now.state.bits))) }
    ensures chip { chip.new.recording ≡ chip.old.recording }
{
    let state = turned(alloc, &dump.state.bits)?;
    match first_in(alloc, chip, state)? {
        Some(hit) => turned_at(alloc, dump, hit),
        None => never_note(alloc, said),
    }
}

/// The note on a stop in the first step, which says this, once the runs were looked at for the state of the dump. The bits of the
/// state are in the order of the netlist's flip-flops.
#[tactic(auto, using(crate::proofs::LookLemmas::recorded_hit, crate::proofs::LookLemmas::not_recorded))]
pub fn looked_note(
    alloc: Global,
    chip: &mut Chip<'_>,
    dump: &Dump,
    said: &[u8],
) -> Result<Vec<u8>, NoMemory>
    requires { length dump.now.state.bits ≡ length chip.old.recording.circuit.flops }
    ensures text { IfOk result (λ note. note.items ≡ looked_text chip.old.recording dump.now said.now) }
    ensures chip { chip.new.recording ≡ chip.old.recording }
{
    let state = dump.state.bits.copy()?;
    match first_in(alloc, chip, state)? {
        Some(hit) => recorded_at(alloc, dump, said, hit),
        None => unrecorded(alloc, chip, dump, said),
    }
}
