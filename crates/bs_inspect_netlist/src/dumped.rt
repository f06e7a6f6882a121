//! The dump at a cycle of a simulation.
ghost use Rattle.std.specs.Prelude.{◌≡◌, ◌<◌, ◌≤◌, ◌-◌, ◌++◌, [], codes, length, slice_index_or, All, None, Some, IfOk};
ghost use Rattle.std.specs.List.{list_any};
ghost use Rattle.bs_bits.specs.Lines.{line};
ghost use Rattle.bs_scan.specs.SeenText.{seen_text};
ghost use Rattle.bs_scan.specs.Choice.{depth_of};
ghost use Rattle.bs_scan.specs.Dump.{IsDump};
ghost use Rattle.bs_scan.specs.DumpText.{dump_text as text_of};
ghost use Rattle.bs_scan.specs.Signature.{signature};
ghost use Rattle.bs_inspect_netlist.specs.Dumped.{dump_lines, dumped, free_among, kept_before, older_before, seen_by};

use bs_bits::{Bits, List, NoMemory, end_line, push_piece};
use bs_scan::{Choice, Dump, Seen};
use std::alloc::Global;

/// The state at a cycle.
#[tactic(auto, using(crate::proofs::DumpedLemmas::at_place, crate::proofs::DumpedLemmas::wide_at))]
fn state_at(states: &List<Bits>, cycle: usize, _width: usize) -> &Bits
    requires there { cycle < length states.now }
    requires wide { All (λ s. length s ≡ _width) states.now }
    ensures is { result.now ≡ slice_index_or states.now cycle [] }
    ensures wide { length result.now ≡ _width }
{
    states.get(cycle)
}

/// The signature of the state so many cycles before, if there is one.
fn kept_before(
    alloc: Global,
    choice: &Choice,
    states: &List<Bits>,
    cycle: usize,
    back: usize,
) -> Result<Option<Bits>, NoMemory>
    requires there { cycle < length states.now }
    requires wide { All (λ s. length s ≡ choice.now.width) states.now }
    ensures { IfOk result (λ kept. kept ≡ kept_before choice.now states.now cycle back) }
{
    if cycle < back {
        return Ok(None);
    }
    let signature = choice.of(alloc, state_at(states, cycle - back, choice.width()))?;
    Ok(Some(signature))
}

/// The signature of the state two cycles before, where two are kept.
fn older_before(
    alloc: Global,
    choice: &Choice,
    states: &List<Bits>,
    cycle: usize,
) -> Result<Option<Bits>, NoMemory>
    requires there { cycle < length states.now }
    requires wide { All (λ s. length s ≡ choice.now.width) states.now }
    ensures { IfOk result (λ kept. kept ≡ older_before choice.now states.now cycle) }
{
    if choice.depth() == 2 {
        kept_before(alloc, choice, states, cycle, 2)
    } else {
        Ok(None)
    }
}

/// Whether a bit is marked.
#[tactic(auto, using(crate::proofs::DumpedLemmas::mark_more, crate::proofs::DumpedLemmas::mark_found, crate::proofs::DumpedLemmas::mark_none))]
fn has_mark(marks: &Bits) -> bool
    ensures { result ≡ list_any (λ m. m) marks.now }
{
    'marks: for i in 0..marks.len() {
        if marks.get(i) {
            return true;
        }
    }
    false
}

/// Which bits are not known, where one is not.
fn free_among(alloc: Global, marks: &Bits) -> Result<Bits, NoMemory>
    ensures { IfOk result (λ free. free ≡ free_among marks.now) }
{
    if has_mark(marks) {
        marks.copy()
    } else {
        Ok(Bits::new(alloc))
    }
}

/// What is known of a state.
fn seen_by(alloc: Global, state: &Bits, marks: &Bits) -> Result<Seen, NoMemory>
    ensures { IfOk result (λ seen. seen ≡ seen_by state.now marks.now) }
{
    let bits = state.copy()?;
    let free = free_among(alloc, marks)?;
    Ok(Seen { bits, free })
}

/// The dump at a cycle.
fn dump_at(
    alloc: Global,
    choice: &Choice,
    states: &List<Bits>,
    marks: &Bits,
    cycle: usize,
) -> Result<Dump, NoMemory>
    requires there { cycle < length states.now }
    requires wide { All (λ s. length s ≡ choice.now.width) states.now }
    ensures is { IfOk result (λ dump. dump ≡ dumped choice.now states.now marks.now cycle) }
{
    let state = seen_by(alloc, state_at(states, cycle, choice.width()), marks)?;
    let stored = kept_before(alloc, choice, states, cycle, 1)?;
    let older = older_before(alloc, choice, states, cycle)?;
    Ok(Dump {
        state,
        stored,
        older,
        depth: choice.depth(),
    })
}

/// The text of a dump.
fn text_of(alloc: Global, dump: &Dump) -> Result<Vec<u8>, NoMemory>
    requires { IsDump dump.now }
    ensures { IfOk result (λ text. text.items ≡ text_of dump.now) }
{
    let mut text = Vec::new(alloc);
    dump.text(&mut text)?;
    Ok(text)
}

/// The dump of a chip at a cycle of a simulation, by the states of its cycles from reset on, each as it was just before the edge
/// that ends the cycle: what is known of the state, by marks on the bits that are not, and the signatures that a register of this choice
/// holds there (docs/FORMATS.md, "Dump").
#[tactic(auto, using(crate::proofs::DumpedLemmas::dump_is))]
fn dump_text(
    alloc: Global,
    choice: &Choice,
    states: &List<Bits>,
    marks: &Bits,
    cycle: usize,
) -> Result<Vec<u8>, NoMemory>
    requires there { cycle < length states.now }
    requires wide { All (λ s. length s ≡ choice.now.width) states.now }
    ensures { IfOk result (λ text. text.items ≡ text_of (dumped choice.now states.now marks.now cycle)) }
{
    let _depth = choice.depth();
    match dump_at(alloc, choice, states, marks, cycle) {
        Ok(dump) => text_of(alloc, &dump),
        Err(refused) => Err(refused),
    }
}

/// The same at the last of these cycles. Where there are no marks, all of the state is known.
pub fn last_dump(
    alloc: Global,
    choice: &Choice,
    states: &List<Bits>,
    marks: &Bits,
) -> Result<Vec<u8>, NoMemory>
    requires some { 0 < length states.now }
    requires wide { All (λ s. length s ≡ choice.now.width) states.now }
    ensures { IfOk result (λ text. text.items ≡ dump_lines (Some choice.now) states.now marks.now) }
{
    dump_text(alloc, choice, states, marks, states.len() - 1)
}

/// The last of these states.
#[tactic(auto, using(crate::proofs::DumpedLemmas::at_place))]
fn last_of(states: &List<Bits>) -> &Bits
    requires { 0 < length states.now }
    ensures { result.now ≡ slice_index_or states.now (length states.now - 1) [] }
{
    states.get(states.len() - 1)
}

/// What is known of a state, as the line of a dump.
fn line_of(alloc: Global, seen: &Seen) -> Result<Vec<u8>, NoMemory>
    ensures { IfOk result (λ text. text.items ≡ line (codes "state " ++ seen_text seen.now)) }
{
    let mut text = Vec::new(alloc);
    push_piece(&mut text, b"state ")?;
    seen.text(&mut text)?;
    end_line(&mut text)?;
    Ok(text)
}

/// What is known of the last of these states, by marks on the bits that are not, as the line of a dump.
pub fn last_state(alloc: Global, states: &List<Bits>, marks: &Bits) -> Result<Vec<u8>, NoMemory>
    requires { 0 < length states.now }
    ensures { IfOk result (λ text. text.items ≡ dump_lines None states.now marks.now) }
{
    let seen = seen_by(alloc, last_of(states), marks)?;
    let text = line_of(alloc, &seen)?;
    Ok(text)
}
