//! The value changes of a text, word by word, up to the lines that are asked for.
ghost use Rattle.std.specs.Prelude.{◌≡◌, ◌<◌, ◌+◌, ◌^◌, ◌&&◌, Some, length, map, OnOk};
ghost use Rattle.std.specs.Option.{option_or};
ghost use Rattle.bs_bits.specs.Reading.{Answers};
ghost use Rattle.bs_vcd_header.specs.declared.fault.VcdFault.TheVariants.{NoMemory as Want};
ghost use Rattle.bs_vcd_header.specs.Tokens.{tokens_from};
ghost use Rattle.bs_vcd.specs.History.{Plain, change_in, history_of, mode_in, step};
ghost use Rattle.bs_vcd.specs.Levels.{known_in};
ghost use Rattle.bs_vcd.specs.Sampled.{asked_in, is_last, is_until, is_within, line_by, line_of, lines_asked, rises, sampled, unknowns_of, wanted};
ghost use Rattle.bs_vcd.specs.Watching.{closed, ended, finished, known_after, lined, may_end, moved, nothing_watched, tailed, timed, took, watch_in, watched_from, with_change, with_times};

use crate::changes::{ValueChange, WordEffect, WordPlace, word_step};
use crate::levels::{apply, first_unknown, high_bits, rises, unknown_bits};
use bs_bits::{Bits, List, NoMemory};
use bs_vcd_header::{BitSource, VcdFault, next_token};
use std::alloc::Global;
use std::collections::HashMap;

/// The numbers of the first and the last line of some, counted from 0.
#[derive(Clone, Copy)]
pub struct LineSpan {
    pub first: u64,
    pub last: u64,
}

/// What the last line of a span is where some of its bits are not known. Each line before it is refused there.
#[derive(Clone, Copy, Debug, PartialEq, Eq)]
pub enum Unknowns {
    /// The line is refused.
    Refused,
    /// Each such bit is 0.
    Low,
    /// Each bit says whether it is not known.
    Marked,
}

/// The edges of a clock, up to a time, where one is given, and the end of the text, where that is asked for; the sources whose
/// bits stand in the lines of a span, or in all; and what the last line of the span is where some bits are not known.
#[derive(Clone, Copy)]
pub struct SamplingRequest<'a> {
    pub clock: BitSource,
    pub inputs: &'a [BitSource],
    pub span: Option<LineSpan>,
    pub unknowns: Unknowns,
    pub until: Option<u64>,
    pub tail: bool,
}

/// Lines, with the time of the first change, if there is one, and the last time.
#[derive(Drop)]
pub struct SampledLines {
    pub first: Option<u64>,
    pub last: u64,
    pub lines: List<Bits>,
}

/// The time of the moment under way, that of the first change so far, what is known before the moment, its changes so far, and the
/// lines so far.
#[derive(Drop)]
pub struct SamplingState<'a> {
    pub time: u64,
    pub first: Option<u64>,
    pub known: HashMap<u64, &'a [u8]>,
    pub changes: Vec<ValueChange<'a>>,
    pub lines: List<Bits>,
}

/// Nothing is known before the first word.
fn nothing<'a>(alloc: Global) -> SamplingState<'a>
    ensures { watch_in result ≡ nothing_watched }
{
    SamplingState {
        time: 0,
        first: None,
        known: HashMap::new(alloc),
        changes: Vec::new(alloc),
        lines: List::new(alloc),
    }
}

// ---- a line

/// Whether the number of a line lies in a span.
fn is_within(span: Option<LineSpan>, number: u64) -> bool
    ensures { result ≡ is_within span number }
{
    match span {
        None => true,
        Some(span) => span.first <= number && number <= span.last,
    }
}

/// Whether a time is not behind another.
fn is_until(until: Option<u64>, time: u64) -> bool
    ensures { result ≡ is_until until time }
{
    match until {
        None => true,
        Some(until) => time <= until,
    }
}

/// The sources whose bits stand in the line with this number.
fn wanted<'a>(asked: &SamplingRequest<'a>, number: u64) -> &'a [BitSource]
    ensures { result.now ≡ wanted (asked_in asked.now) number }
{
    if is_within(asked.span, number) {
        asked.inputs
    } else {
        &[]
    }
}

/// Whether a line is the last one of a span.
fn is_last(span: Option<LineSpan>, number: u64) -> bool
    ensures { result ≡ is_last span number }
{
    match span {
        None => false,
        Some(span) => number == span.last,
    }
}

/// What the line with this number is where some bits are not known.
fn unknowns_of(asked: &SamplingRequest<'_>, number: u64) -> Unknowns
    ensures { result ≡ unknowns_of (asked_in asked.now) number }
{
    if is_last(asked.span, number) {
        asked.unknowns
    } else {
        Unknowns::Refused
    }
}

/// The bit of each input by what is known.
fn line_of(
    alloc: Global,
    time: u64,
    known: &HashMap<u64, &[u8]>,
    inputs: &[BitSource],
) -> Result<Bits, VcdFault>
    ensures { Answers Want (λ bits. bits) result (line_of time (known_in known.now) inputs.now) }
{
    match first_unknown(known, inputs) {
        Some(input) => Err(VcdFault::Unknown(input as u64, time)),
        None => {
            let bits = high_bits(alloc, known, inputs)?;
            Ok(bits)
        }
    }
}

/// The line of some inputs by what is known.
fn line_by(
    alloc: Global,
    unknowns: Unknowns,
    time: u64,
    known: &HashMap<u64, &[u8]>,
    inputs: &[BitSource],
) -> Result<Bits, VcdFault>
    ensures { Answers Want (λ bits. bits) result (line_by unknowns time (known_in known.now) inputs.now) }
{
    match unknowns {
        Unknowns::Refused => line_of(alloc, time, known, inputs),
        Unknowns::Low => {
            let bits = high_bits(alloc, known, inputs)?;
            Ok(bits)
        }
        Unknowns::Marked => {
            let bits = unknown_bits(alloc, known, inputs)?;
            Ok(bits)
        }
    }
}

/// Puts a line behind the lines.
fn add_line(
    alloc: Global,
    asked: &SamplingRequest<'_>,
    time: u64,
    known: &HashMap<u64, &[u8]>,
    lines: &mut List<Bits>,
) -> Result<(), VcdFault>
    ensures { Answers Want (λ _. lines.new) result (lined (asked_in asked.now) time (known_in known.now) lines.old) }
{
    let number = lines.len() as u64;
    let inputs = wanted(asked, number);
    let line = line_by(alloc, unknowns_of(asked, number), time, known, inputs)?;
    lines.push(line)?;
    Ok(())
}

// ---- a moment

/// Whether the line of a moment is asked for.
fn stops(
    asked: &SamplingRequest<'_>,
    time: u64,
    known: &HashMap<u64, &[u8]>,
    changes: &[ValueChange<'_>],
) -> bool
    ensures { result ≡ is_until asked.now.until time && rises asked.now.clock (known_in known.now) (known_after (known_in known.now) (map change_in changes.now)) }
{
    let early = is_until(asked.until, time);
    let edge = rises(known, changes, asked.clock);
    early && edge
}

/// Puts the line of a moment behind the lines, where that is asked for.
fn close(
    alloc: Global,
    asked: &SamplingRequest<'_>,
    time: u64,
    known: &HashMap<u64, &[u8]>,
    changes: &[ValueChange<'_>],
    lines: &mut List<Bits>,
) -> Result<(), VcdFault>
    ensures { Answers Want (λ _. lines.new) result (closed (asked_in asked.now) time (known_in known.now) (map change_in changes.now) lines.old) }
{
    if !stops(asked, time, known, changes) {
        return Ok(());
    }
    add_line(alloc, asked, time, known, lines)?;
    Ok(())
}

/// Ends the moment under way, and begins the next.
fn move_on(
    alloc: Global,
    asked: &SamplingRequest<'_>,
    time: u64,
    watch: &mut SamplingState<'_>,
) -> Result<(), VcdFault>
    ensures { Answers Want (λ _. watch_in watch.new) result (moved (asked_in asked.now) time (watch_in watch.old)) }
{
    close(
        alloc,
        asked,
        watch.time,
        &watch.known,
        watch.changes.as_slice(),
        &mut watch.lines,
    )?;
    apply(&mut watch.known, watch.changes.as_slice())?;
    watch.changes.clear();
    watch.time = time;
    Ok(())
}

/// Takes a time, which stands in the line with this number.
fn take_time(
    alloc: Global,
    asked: &SamplingRequest<'_>,
    line: u64,
    time: u64,
    watch: &mut SamplingState<'_>,
) -> Result<(), VcdFault>
    ensures { Answers Want (λ _. watch_in watch.new) result (timed (asked_in asked.now) line time (watch_in watch.old)) }
{
    if time < watch.time {
        return Err(VcdFault::Line(line));
    }
    if time == watch.time {
        return Ok(());
    }
    move_on(alloc, asked, time, watch)?;
    Ok(())
}

/// The first of two times, where there is one before the second.
fn first_or(first: Option<u64>, time: u64) -> Option<u64>
    ensures { result ≡ option_or first (Some time) }
{
    match first {
        Some(first) => Some(first),
        None => Some(time),
    }
}

/// Takes a change.
#[tactic(auto, using(crate::proofs::TakingLemmas::change_taken))]
fn take_change<'a>(change: ValueChange<'a>, watch: &mut SamplingState<'a>) -> Result<(), NoMemory>
    ensures { OnOk result (watch_in watch.new ≡ with_change (watch_in watch.old) (change_in change.entry)) }
{
    watch.changes.push(change)?;
    watch.first = first_or(watch.first, watch.time);
    Ok(())
}

/// Takes a word, which stands in the line with this number, and answers where the next one stands.
fn take<'a>(
    alloc: Global,
    asked: &SamplingRequest<'_>,
    line: u64,
    mode: WordPlace<'a>,
    text: &'a [u8],
    watch: &mut SamplingState<'a>,
) -> Result<WordPlace<'a>, VcdFault>
    ensures { Answers Want (λ next. (mode_in next, watch_in watch.new)) result (took (asked_in asked.now) line (step (mode_in mode.entry) text.now) (watch_in watch.old)) }
{
    match word_step(mode, text) {
        None => Err(VcdFault::Line(line)),
        Some(WordEffect::Goes(next)) => Ok(next),
        Some(WordEffect::Changes(change)) => {
            take_change(change, watch)?;
            Ok(WordPlace::Plain)
        }
        Some(WordEffect::Begins(time)) => {
            take_time(alloc, asked, line, time, watch)?;
            Ok(WordPlace::Plain)
        }
        Some(WordEffect::Stops) => Err(VcdFault::DumpOff(line)),
    }
}

// ---- the end

/// Whether a text may end here.
fn may_end(mode: WordPlace<'_>) -> bool
    ensures { result ≡ may_end (mode_in mode.entry) }
{
    match mode {
        WordPlace::Plain => true,
        _ => false,
    }
}

/// Puts the line of the text's end behind the lines, where that is asked for.
fn add_tail(
    alloc: Global,
    asked: &SamplingRequest<'_>,
    time: u64,
    known: &HashMap<u64, &[u8]>,
    lines: &mut List<Bits>,
) -> Result<(), VcdFault>
    ensures { Answers Want (λ _. lines.new) result (tailed (asked_in asked.now) time (known_in known.now) lines.old) }
{
    if !asked.tail {
        return Ok(());
    }
    add_line(alloc, asked, time, known, lines)?;
    Ok(())
}

/// Puts the line of the text's end behind the lines of the last moment.
fn put_tail(
    alloc: Global,
    asked: &SamplingRequest<'_>,
    watch: &mut SamplingState<'_>,
) -> Result<(), VcdFault>
    ensures lines { Answers Want (λ _. (watch_in watch.new).lines) result (tailed (asked_in asked.now) (watch_in watch.old).time (known_after (watch_in watch.old).known (watch_in watch.old).changes) (watch_in watch.old).lines) }
    ensures time { watch.new.time ≡ watch.old.time }
    ensures first { watch.new.first ≡ watch.old.first }
{
    apply(&mut watch.known, watch.changes.as_slice())?;
    add_tail(alloc, asked, watch.time, &watch.known, &mut watch.lines)
}

/// Ends the last moment.
fn end(
    alloc: Global,
    asked: &SamplingRequest<'_>,
    watch: &mut SamplingState<'_>,
) -> Result<(), VcdFault>
    ensures lines { Answers Want (λ _. (watch_in watch.new).lines) result (ended (asked_in asked.now) (watch_in watch.old)) }
    ensures time { watch.new.time ≡ watch.old.time }
    ensures first { watch.new.first ≡ watch.old.first }
{
    close(
        alloc,
        asked,
        watch.time,
        &watch.known,
        watch.changes.as_slice(),
        &mut watch.lines,
    )?;
    put_tail(alloc, asked, watch)?;
    Ok(())
}

/// Ends the last moment, if the text may end here.
fn finish(
    alloc: Global,
    asked: &SamplingRequest<'_>,
    mode: WordPlace<'_>,
    watch: &mut SamplingState<'_>,
) -> Result<(), VcdFault>
    ensures lines { Answers Want (λ _. (watch_in watch.new).lines) result (finished (asked_in asked.now) (mode_in mode.entry) (watch_in watch.old)) }
    ensures time { watch.new.time ≡ watch.old.time }
    ensures first { watch.new.first ≡ watch.old.first }
{
    if !may_end(mode) {
        return Err(VcdFault::Ended);
    }
    end(alloc, asked, watch)?;
    Ok(())
}

/// Takes all words of a text whose first line has this number.
#[tactic(auto, using(crate::proofs::TakingLemmas::word_taken, crate::proofs::TakingLemmas::word_faulty, crate::proofs::TakingLemmas::end_taken, crate::proofs::TakingLemmas::end_faulty))]
fn take_all<'a>(
    alloc: Global,
    asked: &SamplingRequest<'_>,
    line: u64,
    text: &'a [u8],
    watch: &mut SamplingState<'a>,
) -> Result<(), VcdFault>
    requires { line + length text.now < 2 ^ 64 }
    ensures { Answers Want (λ _. with_times (watch_in watch.new) (watch_in watch.new).lines) result (watched_from (asked_in asked.now) Plain (watch_in watch.old) (tokens_from line text.now)) }
{
    let mut mode = WordPlace::Plain;
    let mut line = line;
    let mut rest = text;
    'words: while let Some((token, behind)) = next_token(line, rest) {
        mode = take(alloc, asked, token.line, mode, token.text, watch)?;
        line = token.line;
        rest = behind;
    }
    finish(alloc, asked, mode, watch)?;
    Ok(())
}

/// The lines that are asked for, in value changes whose first line has this number, with the time of the first change and the last time.
#[tactic(auto, using(crate::proofs::SamplingLemmas::lines_whole, crate::proofs::SamplingLemmas::lines_faulty))]
pub fn watch_lines(
    alloc: Global,
    asked: &SamplingRequest<'_>,
    line: u64,
    text: &[u8],
) -> Result<SampledLines, VcdFault>
    requires { line + length text.now < 2 ^ 64 }
    ensures { Answers Want (λ sampled. sampled) result (lines_asked (asked_in asked.now) (history_of (tokens_from line text.now))) }
{
    let mut watch = nothing(alloc);
    take_all(alloc, asked, line, text, &mut watch)?;
    Ok(SampledLines {
        first: watch.first,
        last: watch.time,
        lines: watch.lines,
    })
}

/// The lines of all rising edges of a clock, in value changes whose first line has this number.
#[tactic(auto, using(crate::proofs::SamplingLemmas::all_sampled))]
pub fn sample(
    alloc: Global,
    clock: BitSource,
    inputs: &[BitSource],
    line: u64,
    text: &[u8],
) -> Result<SampledLines, VcdFault>
    requires { line + length text.now < 2 ^ 64 }
    ensures { Answers Want (λ sampled. sampled) result (sampled clock inputs.now (history_of (tokens_from line text.now))) }
{
    let asked = SamplingRequest {
        clock,
        inputs,
        span: None,
        unknowns: Unknowns::Refused,
        until: None,
        tail: false,
    };
    let sampled = watch_lines(alloc, &asked, line, text)?;
    Ok(sampled)
}
