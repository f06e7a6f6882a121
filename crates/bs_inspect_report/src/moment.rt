//! One cycle of a trace.
ghost use Rattle.std.specs.Prelude.{◌≡◌, ◌<◌, ◌≤◌, ◌+◌, ◌^◌, ◌++◌, Some, length, map, decimal, slice_get, All, OnOk, option_map};
ghost use Rattle.bs_bits.specs.Lines.{line};
ghost use Rattle.bs_inspect_view.specs.Signals.{signal_in};
ghost use Rattle.bs_inspect_report.specs.Trace.{cycle_lines, flops_at, found_words, free_at, inputs_at, is_partial, moment_words, origin_words, place_words, row_before};
ghost use Rattle.bs_inspect_report.specs.Lines.{signals_in};
ghost use Rattle.bs_inspect_report.specs.Window.{shown_piece};

use crate::execution::{is_execution, push_place_word};
use crate::named::Signals;
use crate::recorded::step_moment;
use crate::signal::push_signals;
use crate::window::{Window, is_shown};
use bs_bits::{Bits, List, NoMemory, end_line, push_number, push_piece};
use bs_inspect_view::Signal;
use bs_report::Report;

/// Appends the moment at which a state was recorded.
fn push_moment(text: &mut Vec<u8>, moment: Option<(u32, u32)>) -> Result<(), NoMemory>
    ensures { OnOk result (text.new.items ≡ text.old.items ++ moment_words moment) }
{
    match moment {
        Some((run, cycle)) => {
            push_piece(text, b" state hit ")?;
            push_number(text, u64::from(run))?;
            push_piece(text, b" ")?;
            push_number(text, u64::from(cycle))
        }
        None => push_piece(text, b" state none"),
    }
}

/// The member at a place, if there is one.
pub fn member<T>(list: &List<T>, place: usize) -> Option<&T>
    ensures { option_map (λ m. m.now) result ≡ slice_get list.now place }
{
    list.slice().get(place)
}

/// Appends where a state of a backtrace comes from.
fn push_found(text: &mut Vec<u8>, report: &Report, i: usize) -> Result<(), NoMemory>
    requires there { i < length report.now.states }
    requires small { i + 1 < 2 ^ 64 }
    ensures { OnOk result (text.new.items ≡ text.old.items ++ found_words report.now i) }
{
    if i + 1 == report.states.len() {
        return push_piece(text, b" state dump");
    }
    push_moment(
        text,
        step_moment(member(&report.steps, report.states.len() - 2 - i)),
    )
}

/// Appends where a state of an execution stands.
fn push_place(text: &mut Vec<u8>, report: &Report, i: usize) -> Result<(), NoMemory>
    requires there { i < length report.now.states }
    requires small { i + 1 < 2 ^ 64 }
    ensures { OnOk result (text.new.items ≡ text.old.items ++ place_words report.now i) }
{
    push_piece(text, b" state ")?;
    push_place_word(text, report, i)
}

/// Appends where a state of the trace comes from.
pub(crate) fn push_origin(text: &mut Vec<u8>, report: &Report, i: usize) -> Result<(), NoMemory>
    requires there { i < length report.now.states }
    requires small { i + 1 < 2 ^ 64 }
    ensures { OnOk result (text.new.items ≡ text.old.items ++ origin_words report.now i) }
{
    if is_execution(report) {
        push_place(text, report, i)
    } else {
        push_found(text, report, i)
    }
}

/// Whether some flip-flops of a state are not known.
fn is_partial(report: &Report, i: usize) -> bool
    ensures { result ≡ is_partial report.now i }
{
    report.free.len() != 0 && report.states.len().saturating_sub(i) == 1
}

/// The flip-flops that are not known in a state.
pub(crate) fn free_at(report: &Report, i: usize) -> Option<&Bits>
    ensures { option_map (λ b. b.now) result ≡ free_at report.now i }
{
    if is_partial(report, i) {
        Some(&report.free)
    } else {
        None
    }
}

/// The state, or the input, before the one with this number, where what has not changed since is left out.
fn row_before(rows: &List<Bits>, all: bool, i: usize) -> Option<&Bits>
    ensures { option_map (λ b. b.now) result ≡ row_before rows.now all i }
{
    if all || i == 0 {
        return None;
    }
    member(rows, i - 1)
}

/// Appends the flip-flops that changed, or all where some are not known.
fn push_flops(
    text: &mut Vec<u8>,
    report: &Report,
    flops: &[Signal<'_>],
    all: bool,
    i: usize,
) -> Result<(), NoMemory>
    requires { All (λ s. length s.places < 2 ^ 32) flops.now }
    ensures { OnOk result (text.new.items ≡ text.old.items ++ flops_at report.now (map signal_in flops.now) all i (slice_get report.now.states i)) }
{
    match member(&report.states, i) {
        Some(state) => {
            if is_partial(report, i) {
                push_signals(
                    text,
                    b" flop ",
                    i as u64,
                    Some(&report.free),
                    None,
                    state,
                    flops,
                )
            } else {
                push_signals(
                    text,
                    b" flop ",
                    i as u64,
                    None,
                    row_before(&report.states, all, i),
                    state,
                    flops,
                )
            }
        }
        None => Ok(()),
    }
}

/// Appends the data inputs that changed.
fn push_inputs(
    text: &mut Vec<u8>,
    report: &Report,
    inputs: &[Signal<'_>],
    all: bool,
    i: usize,
) -> Result<(), NoMemory>
    requires { All (λ s. length s.places < 2 ^ 32) inputs.now }
    ensures { OnOk result (text.new.items ≡ text.old.items ++ inputs_at report.now (map signal_in inputs.now) all i (slice_get report.now.inputs i)) }
{
    match member(&report.inputs, i) {
        Some(input) => push_signals(
            text,
            b" input ",
            i as u64,
            None,
            row_before(&report.inputs, all, i),
            input,
            inputs,
        ),
        None => Ok(()),
    }
}

/// Appends the line of a cycle.
fn push_head(text: &mut Vec<u8>, report: &Report, i: usize) -> Result<(), NoMemory>
    requires there { i < length report.now.states }
    requires small { i + 1 < 2 ^ 64 }
    ensures { OnOk result (text.new.items ≡ text.old.items ++ line (decimal i ++ origin_words report.now i)) }
{
    push_number(text, i as u64)?;
    push_origin(text, report, i)?;
    end_line(text)
}

/// Appends a cycle of the trace.
fn push_cycle(
    text: &mut Vec<u8>,
    report: &Report,
    signals: &Signals<'_>,
    all: bool,
    i: usize,
) -> Result<(), NoMemory>
    requires there { i < length report.now.states }
    requires small { i + 1 < 2 ^ 64 }
    ensures { OnOk result (text.new.items ≡ text.old.items ++ cycle_lines report.now (signals_in signals.now) all i) }
{
    push_head(text, report, i)?;
    push_flops(text, report, signals.flops.as_slice(), all, i)?;
    push_inputs(text, report, signals.inputs.as_slice(), all, i)
}

/// Appends a cycle of the trace, where it is in a window.
pub(crate) fn push_shown(
    text: &mut Vec<u8>,
    report: &Report,
    signals: &Signals<'_>,
    all: bool,
    window: Window,
    i: usize,
) -> Result<(), NoMemory>
    requires there { i < length report.now.states }
    requires small { i + 1 < 2 ^ 64 }
    ensures { OnOk result (text.new.items ≡ text.old.items ++ shown_piece window (length report.now.states) (cycle_lines report.now (signals_in signals.now) all) i) }
{
    if is_shown(window, report.states.len(), i) {
        push_cycle(text, report, signals, all, i)
    } else {
        Ok(())
    }
}
