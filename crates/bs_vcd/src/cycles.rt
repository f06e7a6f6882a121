//! The states of a cycle and of those before it, out of the text of a VCD.
ghost use Rattle.std.specs.Prelude.{◌≡◌, ◌<◌, ◌≤◌, ◌+◌, ◌^◌, ◌∷◌, ◌++◌, [], drop, length, map, option_map, slice_index_or, take, All, IfOk, OnOk};
ghost use Rattle.bs_bits.specs.Reading.{Answers};
ghost use Rattle.bs_vcd_header.specs.declared.fault.VcdFault.TheVariants.{NoMemory as Want};
ghost use Rattle.bs_vcd_header.specs.Header.{begun_in, declared_in, header_in};
ghost use Rattle.bs_vcd_header.specs.Tokens.{tokens_from};
ghost use Rattle.bs_vcd.specs.Cycles.{begin_in, cycle_ends, cycle_in, edges_counted, edges_until, is_late, lacks_from, lacks_in, marked_in, marks_in, sampling_by, states_at, states_by, states_from, states_in, states_of, states_when, window};
ghost use Rattle.bs_vcd.specs.History.{history_of};
ghost use Rattle.bs_vcd.specs.Sampled.{lines_asked};
ghost use Rattle.bs_vcd.specs.Stimulus.{sampling_in};

use crate::clock_edges::{LineSpan, SampledLines, SamplingRequest, Unknowns, watch_lines};
use crate::stimulus_run::{ClockAndInputs, found_sampling, lacks_of, sampling_of};
use bs_bits::{Bits, List, NoMemory};
use bs_vcd_header::{
    Behind, BitSource, HeaderDeclarations, HeaderState, VcdFault, nothing, take_words,
};
use std::alloc::Global;

/// When a state is taken: in the cycle under way at a time, or in the cycle with a number, from 0.
#[derive(Clone, Copy)]
pub enum When {
    Time(u64),
    Cycle(u64),
}

/// The edges of a clock up to a time.
fn edges_until(
    alloc: Global,
    clock: BitSource,
    time: u64,
    behind: Behind<'_>,
) -> Result<SampledLines, VcdFault>
    requires { behind.line + length behind.rest.now < 2 ^ 64 }
    ensures { Answers Want (λ sampled. sampled) result (lines_asked (edges_until clock time) (history_of (tokens_from behind.entry.line behind.entry.rest.now))) }
{
    let asked = SamplingRequest {
        clock,
        inputs: &[],
        span: None,
        unknowns: Unknowns::Refused,
        until: Some(time),
        tail: false,
    };
    let sampled = watch_lines(alloc, &asked, behind.line, behind.rest)?;
    Ok(sampled)
}

/// How many edges there are up to a time, which is not behind the last one.
fn edges_counted(time: u64, sampled: SampledLines) -> Result<u64, VcdFault>
    ensures { Answers Want (λ count. count) result (edges_counted time sampled) }
{
    if sampled.last < time {
        return Err(VcdFault::NoTime(sampled.last));
    }
    Ok(sampled.lines.len() as u64)
}

/// The number of the cycle.
fn cycle_in(alloc: Global, clock: BitSource, behind: Behind<'_>, at: When) -> Result<u64, VcdFault>
    requires { behind.line + length behind.rest.now < 2 ^ 64 }
    ensures { Answers Want (λ cycle. cycle) result (cycle_in clock (history_of (tokens_from behind.entry.line behind.entry.rest.now)) at) }
{
    match at {
        When::Cycle(cycle) => Ok(cycle),
        When::Time(time) => {
            let sampled = edges_until(alloc, clock, time, behind)?;
            let count = edges_counted(time, sampled)?;
            Ok(count)
        }
    }
}

/// The end of each cycle, with bits at those of a cycle and of so many before it.
fn cycle_ends(
    alloc: Global,
    unknowns: Unknowns,
    sampling: &ClockAndInputs,
    behind: Behind<'_>,
    back: u64,
    cycle: u64,
) -> Result<SampledLines, VcdFault>
    requires { behind.line + length behind.rest.now < 2 ^ 64 }
    ensures { Answers Want (λ sampled. sampled) result (lines_asked (cycle_ends unknowns (sampling_in sampling.now) cycle back) (history_of (tokens_from behind.entry.line behind.entry.rest.now))) }
{
    let asked = SamplingRequest {
        clock: sampling.clock,
        inputs: sampling.inputs.as_slice(),
        span: Some(LineSpan {
            first: cycle.saturating_sub(back),
            last: cycle,
        }),
        unknowns,
        until: None,
        tail: true,
    };
    let sampled = watch_lines(alloc, &asked, behind.line, behind.rest)?;
    Ok(sampled)
}

/// Puts a line at the end.
fn put_line(lines: &mut List<Bits>, line: &Bits) -> Result<(), NoMemory>
    ensures { OnOk result (lines.new ≡ lines.old ++ line.now ∷ []) }
{
    let own = line.copy()?;
    lines.push(own)?;
    Ok(())
}

/// The lines between two places, of which the second is not in.
#[tactic(auto, using(crate::proofs::CycleLemmas::between_none, crate::proofs::CycleLemmas::between_more))]
fn between(
    alloc: Global,
    lines: &List<Bits>,
    first: usize,
    behind: usize,
) -> Result<List<Bits>, NoMemory>
    requires some { first ≤ behind }
    requires there { behind ≤ length lines.now }
    ensures { IfOk result (λ own. own ≡ drop first (take behind lines.now)) }
{
    let mut own = List::new(alloc);
    'lines: for i in first..behind {
        put_line(&mut own, lines.get(i))?;
    }
    Ok(own)
}

/// The time of the first change, or 0 where there is none.
pub fn begin_in(sampled: &SampledLines) -> u64
    ensures { result ≡ begin_in sampled.now }
{
    match sampled.first {
        Some(first) => first,
        None => 0,
    }
}

/// Whether cycles are wanted before those of the values, which begin behind time 0.
fn is_late(sampled: &SampledLines, back: u64, cycle: u64) -> bool
    ensures { result ≡ is_late cycle back sampled.now }
{
    let begin = begin_in(sampled);
    cycle < back && 0 < begin
}

/// The lines of a cycle and of so many before it, where there are that many.
#[tactic(auto, using(crate::proofs::CycleLemmas::window_there, crate::proofs::CycleLemmas::window_late, crate::proofs::CycleLemmas::window_short))]
fn window(
    alloc: Global,
    sampled: &SampledLines,
    back: u64,
    cycle: u64,
) -> Result<List<Bits>, VcdFault>
    ensures { Answers Want (λ own. own) result (window cycle back sampled.now) }
{
    let count = sampled.lines.len() as u64;
    if cycle >= count {
        return Err(VcdFault::NoCycle(count.saturating_sub(1)));
    }
    if is_late(sampled, back, cycle) {
        return Err(VcdFault::Late(begin_in(sampled)));
    }
    let first = cycle.saturating_sub(back);
    let own = between(alloc, &sampled.lines, first as usize, cycle as usize + 1)?;
    Ok(own)
}

/// The states of a cycle and of so many before it.
fn states_at(
    alloc: Global,
    unknowns: Unknowns,
    sampling: &ClockAndInputs,
    behind: Behind<'_>,
    back: u64,
    cycle: u64,
) -> Result<List<Bits>, VcdFault>
    requires { behind.line + length behind.rest.now < 2 ^ 64 }
    ensures { Answers Want (λ states. states) result (states_at unknowns (sampling_in sampling.now) (history_of (tokens_from behind.entry.line behind.entry.rest.now)) back cycle) }
{
    let sampled = cycle_ends(alloc, unknowns, sampling, behind, back, cycle)?;
    let states = window(alloc, &sampled, back, cycle)?;
    Ok(states)
}

/// The same by when it is.
fn states_when(
    alloc: Global,
    unknowns: Unknowns,
    sampling: &ClockAndInputs,
    behind: Behind<'_>,
    at: When,
    back: u64,
) -> Result<List<Bits>, VcdFault>
    requires { behind.line + length behind.rest.now < 2 ^ 64 }
    ensures { Answers Want (λ states. states) result (states_when unknowns (sampling_in sampling.now) (history_of (tokens_from behind.entry.line behind.entry.rest.now)) at back) }
{
    let cycle = cycle_in(alloc, sampling.clock, behind, at)?;
    let states = states_at(alloc, unknowns, sampling, behind, back, cycle)?;
    Ok(states)
}

/// The clock, and these names: each of them is there, unless bits may be unknown.
fn sampling_by(
    alloc: Global,
    unknowns: Unknowns,
    declared: &HeaderDeclarations<'_>,
    scope: Option<&[u8]>,
    clock: &[u8],
    keys: &[&[u8]],
) -> Result<ClockAndInputs, VcdFault>
    ensures { Answers Want sampling_in result (sampling_by unknowns (declared_in declared.now) (option_map (λ path. path.now) scope.entry) clock.now (map (λ key. key.now) keys.now)) }
{
    match unknowns {
        Unknowns::Refused => sampling_of(alloc, declared, scope, clock, keys),
        Unknowns::Low => found_sampling(alloc, declared, scope, clock, keys),
        Unknowns::Marked => found_sampling(alloc, declared, scope, clock, keys),
    }
}

/// The same by what is declared and the text behind that.
fn states_of(
    alloc: Global,
    unknowns: Unknowns,
    declared: &HeaderDeclarations<'_>,
    behind: Behind<'_>,
    scope: Option<&[u8]>,
    clock: &[u8],
    keys: &[&[u8]],
    at: When,
    back: u64,
) -> Result<List<Bits>, VcdFault>
    requires { behind.line + length behind.rest.now < 2 ^ 64 }
    ensures { Answers Want (λ states. states) result (states_of unknowns (header_in behind.entry declared.now) (option_map (λ path. path.now) scope.entry) clock.now (map (λ key. key.now) keys.now) at back) }
{
    let sampling = sampling_by(alloc, unknowns, declared, scope, clock, keys)?;
    let states = states_when(alloc, unknowns, &sampling, behind, at, back)?;
    Ok(states)
}

/// The same, where so much is read of the declarations.
fn states_from<'a>(
    alloc: Global,
    unknowns: Unknowns,
    text: &'a [u8],
    scope: Option<&[u8]>,
    clock: &[u8],
    keys: &[&[u8]],
    at: When,
    back: u64,
    begun: &mut HeaderState<'a>,
) -> Result<List<Bits>, VcdFault>
    requires { length text.now < 2 ^ 63 }
    ensures { Answers Want (λ states. states) result (states_from unknowns (begun_in begun.old) (tokens_from 1 text.now) (option_map (λ path. path.now) scope.entry) clock.now (map (λ key. key.now) keys.now) at back) }
{
    let behind = take_words(alloc, 1, text, begun)?;
    let states = states_of(
        alloc,
        unknowns,
        &begun.declared,
        behind,
        scope,
        clock,
        keys,
        at,
        back,
    )?;
    Ok(states)
}

/// The states of a cycle and of so many before it, out of a text.
fn taken_states(
    alloc: Global,
    unknowns: Unknowns,
    text: &[u8],
    scope: Option<&[u8]>,
    clock: &[u8],
    keys: &[&[u8]],
    at: When,
    back: u64,
) -> Result<List<Bits>, VcdFault>
    requires { length text.now < 2 ^ 63 }
    ensures { Answers Want (λ states. states) result (states_by unknowns text.now (option_map (λ path. path.now) scope.entry) clock.now (map (λ key. key.now) keys.now) at back) }
{
    let mut begun = nothing(alloc)?;
    let states = states_from(
        alloc, unknowns, text, scope, clock, keys, at, back, &mut begun,
    )?;
    Ok(states)
}

/// The same: there is one at least, and each has a bit for each name.
#[tactic(auto, using(crate::proofs::CycleLemmas::states_some, crate::proofs::CycleLemmas::states_wide))]
fn read_states(
    alloc: Global,
    unknowns: Unknowns,
    text: &[u8],
    scope: Option<&[u8]>,
    clock: &[u8],
    keys: &[&[u8]],
    at: When,
    back: u64,
) -> Result<List<Bits>, VcdFault>
    requires { length text.now < 2 ^ 63 }
    ensures is { Answers Want (λ states. states) result (states_by unknowns text.now (option_map (λ path. path.now) scope.entry) clock.now (map (λ key. key.now) keys.now) at back) }
    ensures some { IfOk result (λ states. 0 < length states) }
    ensures wide { IfOk result (λ states. All (λ s. length s ≡ length keys.now) states) }
{
    let states = taken_states(alloc, unknowns, text, scope, clock, keys, at, back)?;
    Ok(states)
}

/// The bits of these names at the end of a cycle of the text of a VCD, and before them those of so many cycles before it, or of as many
/// as there are where the values begin at time 0, in the scope with this path or else in that of the first variable that has the clock (docs/FORMATS.md, "Value changes
/// (VCD)"). The names are keys. It takes one pass over the text, and for a time two.
pub fn states(
    alloc: Global,
    text: &[u8],
    scope: Option<&[u8]>,
    clock: &[u8],
    keys: &[&[u8]],
    at: When,
    back: u64,
) -> Result<List<Bits>, VcdFault>
    requires { length text.now < 2 ^ 63 }
    ensures is { Answers Want (λ states. states) result (states_in text.now (option_map (λ path. path.now) scope.entry) clock.now (map (λ key. key.now) keys.now) at back) }
    ensures some { IfOk result (λ states. 0 < length states) }
    ensures wide { IfOk result (λ states. All (λ s. length s ≡ length keys.now) states) }
{
    read_states(alloc, Unknowns::Refused, text, scope, clock, keys, at, back)
}

/// States, whether each bit of the last one is not known, and how many of its names no variable has.
#[derive(Drop)]
pub struct MarkedStates {
    pub states: List<Bits>,
    pub marks: Bits,
    pub lacks: usize,
}

/// The first of some lines.
#[tactic(auto, using(crate::proofs::CycleLemmas::first_of))]
fn first_of(lines: &List<Bits>) -> &Bits
    requires { 0 < length lines.now }
    ensures { result.now ≡ slice_index_or lines.now 0 [] }
{
    lines.get(0)
}

/// Whether each bit at the end of a cycle is not known.
fn marks(
    alloc: Global,
    text: &[u8],
    scope: Option<&[u8]>,
    clock: &[u8],
    keys: &[&[u8]],
    at: When,
) -> Result<Bits, VcdFault>
    requires { length text.now < 2 ^ 63 }
    ensures { Answers Want (λ marks. marks) result (marks_in text.now (option_map (λ path. path.now) scope.entry) clock.now (map (λ key. key.now) keys.now) at) }
{
    let lines = read_states(alloc, Unknowns::Marked, text, scope, clock, keys, at, 0)?;
    let marks = first_of(&lines).copy()?;
    Ok(marks)
}

/// How many of these names no variable has, where so much is read of the declarations.
fn lacks_from<'a>(
    alloc: Global,
    text: &'a [u8],
    scope: Option<&[u8]>,
    clock: &[u8],
    keys: &[&[u8]],
    begun: &mut HeaderState<'a>,
) -> Result<usize, VcdFault>
    requires { length text.now < 2 ^ 63 }
    ensures { Answers Want (λ count. count) result (lacks_from (begun_in begun.old) (tokens_from 1 text.now) (option_map (λ path. path.now) scope.entry) clock.now (map (λ key. key.now) keys.now)) }
{
    let _behind = take_words(alloc, 1, text, begun)?;
    let count = lacks_of(alloc, &begun.declared, scope, clock, keys)?;
    Ok(count)
}

/// How many of these names no variable has.
fn lacks(
    alloc: Global,
    text: &[u8],
    scope: Option<&[u8]>,
    clock: &[u8],
    keys: &[&[u8]],
) -> Result<usize, VcdFault>
    requires { length text.now < 2 ^ 63 }
    ensures { Answers Want (λ count. count) result (lacks_in text.now (option_map (λ path. path.now) scope.entry) clock.now (map (λ key. key.now) keys.now)) }
{
    let mut begun = nothing(alloc)?;
    let count = lacks_from(alloc, text, scope, clock, keys, &mut begun)?;
    Ok(count)
}

/// The same as `states`, where bits at the end of the cycle may be unknown, and names may be missing of which no variable has them, but not
/// all: these bits are 0, and a mark for each bit says whether it is not known. It takes one pass more, and for a time two.
pub fn marked_states(
    alloc: Global,
    text: &[u8],
    scope: Option<&[u8]>,
    clock: &[u8],
    keys: &[&[u8]],
    at: When,
    back: u64,
) -> Result<MarkedStates, VcdFault>
    requires { length text.now < 2 ^ 63 }
    ensures is { Answers Want (λ marked. marked) result (marked_in text.now (option_map (λ path. path.now) scope.entry) clock.now (map (λ key. key.now) keys.now) at back) }
    ensures some { IfOk result (λ marked. 0 < length marked.states) }
    ensures wide { IfOk result (λ marked. All (λ s. length s ≡ length keys.now) marked.states) }
{
    let states = read_states(alloc, Unknowns::Low, text, scope, clock, keys, at, back)?;
    let marks = marks(alloc, text, scope, clock, keys, at)?;
    let lacks = lacks(alloc, text, scope, clock, keys)?;
    Ok(MarkedStates {
        states,
        marks,
        lacks,
    })
}
