//! The trace of a report as a table for scripts.
ghost use Rattle.std.specs.Prelude.{◌≡◌, ◌<◌, ◌+◌, ◌^◌, ◌++◌, codes, decimal, length, map, slice_get, All, IfOk, OnOk, option_map};
ghost use Rattle.std.specs.List.{flat_map, range_with_len};
ghost use Rattle.std.specs.Str.{bytes_eq};
ghost use Rattle.bs_inspect_view.specs.Rtl.{rtl_text};
ghost use Rattle.bs_inspect_view.specs.Signals.{signal_in};
ghost use Rattle.bs_inspect_report.specs.Table.{TellsTable, found_cells, head_row, is_column, mark, name_cell, name_cells, origin_cells, place_cells, recorded_cells, state_row, state_rows, trace_rows, value_cell, value_cells};
ghost use Rattle.bs_inspect_report.specs.Lines.{signals_in};
ghost use Rattle.bs_inspect_report.specs.Trace.{free_at};
ghost use Rattle.bs_inspect_report.specs.Window.{shown_piece};

use crate::execution::{is_execution, push_place_word};
use crate::field::push_field;
use crate::moment::{free_at, member};
use crate::named::Signals;
use crate::recorded::step_moment;
use crate::signal::push_seen_value;
use crate::trace::trace_signals;
use crate::window::{Window, is_shown};
use bs_bits::{Bits, NoMemory, end_line, push_number, push_piece};
use bs_inspect_view::{Signal, push_rtl_name};
use bs_net::Netlist;
use bs_report::Report;
use std::alloc::Global;

/// The name of a signal, as RTL writes it.
fn name_of(alloc: Global, signal: &Signal<'_>) -> Result<Vec<u8>, NoMemory>
    ensures { IfOk result (λ name. name.items ≡ rtl_text (signal_in signal.now)) }
{
    let mut name = Vec::new(alloc);
    push_rtl_name(&mut name, signal)?;
    Ok(name)
}

/// Whether two texts are the same.
fn is_text(text: &[u8], word: &[u8]) -> bool
    ensures { result ≡ bytes_eq text.now word.now }
{
    text == word
}

/// Whether a name is that of one of the first columns.
fn is_column(name: &[u8]) -> bool
    ensures { result ≡ is_column name.now }
{
    is_text(name, b"state")
        || is_text(name, b"from")
        || is_text(name, b"run")
        || is_text(name, b"cycle")
}

/// Appends a `\`, where a name is that of one of the first columns.
fn push_mark(text: &mut Vec<u8>, name: &[u8]) -> Result<(), NoMemory>
    ensures { OnOk result (text.new.items ≡ text.old.items ++ mark name.now) }
{
    if is_column(name) {
        push_piece(text, b"\\")
    } else {
        Ok(())
    }
}

/// Appends the name of a signal behind a comma.
fn push_name_cell(text: &mut Vec<u8>, signal: &Signal<'_>) -> Result<(), NoMemory>
    ensures { OnOk result (text.new.items ≡ text.old.items ++ name_cell (signal_in signal.now)) }
{
    let name = name_of(*text.allocator(), signal)?;
    push_piece(text, b",")?;
    push_mark(text, name.as_slice())?;
    push_field(text, name.as_slice())
}

/// Appends the names of signals.
#[tactic(auto, using(crate::proofs::TableLemmas::cells_more))]
fn push_name_cells(text: &mut Vec<u8>, signals: &[Signal<'_>]) -> Result<(), NoMemory>
    ensures { OnOk result (text.new.items ≡ text.old.items ++ name_cells (map signal_in signals.now)) }
{
    'signals: for signal in signals {
        push_name_cell(text, signal)?;
    }
    Ok(())
}

/// Appends the first row.
fn push_head_row(text: &mut Vec<u8>, signals: &Signals<'_>) -> Result<(), NoMemory>
    ensures { OnOk result (text.new.items ≡ text.old.items ++ head_row (signals_in signals.now)) }
{
    push_piece(text, b"state,from,run,cycle")?;
    push_name_cells(text, signals.flops.as_slice())?;
    push_name_cells(text, signals.inputs.as_slice())?;
    end_line(text)
}

/// Appends the value of a signal behind a comma.
fn push_value_cell(
    text: &mut Vec<u8>,
    free: Option<&Bits>,
    bits: Option<&Bits>,
    signal: &Signal<'_>,
) -> Result<(), NoMemory>
    requires { length signal.now.places < 2 ^ 32 }
    ensures { OnOk result (text.new.items ≡ text.old.items ++ value_cell (option_map (λ b. b.now) free.entry) (option_map (λ b. b.now) bits.entry) (signal_in signal.now)) }
{
    match bits {
        Some(bits) => {
            push_piece(text, b",")?;
            push_seen_value(text, free, bits, signal.places.slice())
        }
        None => push_piece(text, b","),
    }
}

/// Appends the values of signals.
#[tactic(auto, using(crate::proofs::TableLemmas::values_more))]
fn push_value_cells(
    text: &mut Vec<u8>,
    free: Option<&Bits>,
    bits: Option<&Bits>,
    signals: &[Signal<'_>],
) -> Result<(), NoMemory>
    requires { All (λ s. length s.places < 2 ^ 32) signals.now }
    ensures { OnOk result (text.new.items ≡ text.old.items ++ value_cells (option_map (λ b. b.now) free.entry) (option_map (λ b. b.now) bits.entry) (map signal_in signals.now)) }
{
    'signals: for signal in signals {
        push_value_cell(text, free, bits, signal)?;
    }
    Ok(())
}

/// Appends the moment at which a state was recorded.
fn push_recorded_cells(text: &mut Vec<u8>, moment: Option<(u32, u32)>) -> Result<(), NoMemory>
    ensures { OnOk result (text.new.items ≡ text.old.items ++ recorded_cells moment) }
{
    match moment {
        Some((run, cycle)) => {
            push_piece(text, b",hit,")?;
            push_number(text, u64::from(run))?;
            push_piece(text, b",")?;
            push_number(text, u64::from(cycle))
        }
        None => push_piece(text, b",none,,"),
    }
}

/// Appends where a state of a backtrace comes from.
fn push_found_cells(text: &mut Vec<u8>, report: &Report, i: usize) -> Result<(), NoMemory>
    requires there { i < length report.now.states }
    requires small { i + 1 < 2 ^ 64 }
    ensures { OnOk result (text.new.items ≡ text.old.items ++ found_cells report.now i) }
{
    if i + 1 == report.states.len() {
        return push_piece(text, b",dump,,");
    }
    push_recorded_cells(
        text,
        step_moment(member(&report.steps, report.states.len() - 2 - i)),
    )
}

/// Appends where a state of an execution stands.
fn push_place_cells(text: &mut Vec<u8>, report: &Report, i: usize) -> Result<(), NoMemory>
    requires there { i < length report.now.states }
    requires small { i + 1 < 2 ^ 64 }
    ensures { OnOk result (text.new.items ≡ text.old.items ++ place_cells report.now i) }
{
    push_piece(text, b",")?;
    push_place_word(text, report, i)?;
    push_piece(text, b",,")
}

/// Appends where a state of the trace comes from.
fn push_origin_cells(text: &mut Vec<u8>, report: &Report, i: usize) -> Result<(), NoMemory>
    requires there { i < length report.now.states }
    requires small { i + 1 < 2 ^ 64 }
    ensures { OnOk result (text.new.items ≡ text.old.items ++ origin_cells report.now i) }
{
    if is_execution(report) {
        push_place_cells(text, report, i)
    } else {
        push_found_cells(text, report, i)
    }
}

/// Appends the flip-flops of a state.
fn push_flop_cells(
    text: &mut Vec<u8>,
    report: &Report,
    flops: &[Signal<'_>],
    i: usize,
) -> Result<(), NoMemory>
    requires { All (λ s. length s.places < 2 ^ 32) flops.now }
    ensures { OnOk result (text.new.items ≡ text.old.items ++ value_cells (free_at report.now i) (slice_get report.now.states i) (map signal_in flops.now)) }
{
    push_value_cells(text, free_at(report, i), member(&report.states, i), flops)
}

/// Appends the row of a state.
fn push_state_row(
    text: &mut Vec<u8>,
    report: &Report,
    signals: &Signals<'_>,
    i: usize,
) -> Result<(), NoMemory>
    requires there { i < length report.now.states }
    requires small { i + 1 < 2 ^ 64 }
    ensures { OnOk result (text.new.items ≡ text.old.items ++ state_row report.now (signals_in signals.now) i) }
{
    push_number(text, i as u64)?;
    push_origin_cells(text, report, i)?;
    push_flop_cells(text, report, signals.flops.as_slice(), i)?;
    push_value_cells(
        text,
        None,
        member(&report.inputs, i),
        signals.inputs.as_slice(),
    )?;
    end_line(text)
}

/// Appends the row of a state, where it is in a window.
fn push_shown_row(
    text: &mut Vec<u8>,
    report: &Report,
    signals: &Signals<'_>,
    window: Window,
    i: usize,
) -> Result<(), NoMemory>
    requires there { i < length report.now.states }
    requires small { i + 1 < 2 ^ 64 }
    ensures { OnOk result (text.new.items ≡ text.old.items ++ shown_piece window (length report.now.states) (state_row report.now (signals_in signals.now)) i) }
{
    if is_shown(window, report.states.len(), i) {
        push_state_row(text, report, signals, i)
    } else {
        Ok(())
    }
}

/// Appends the rows of the states in a window.
#[tactic(auto, using(bs_bits::proofs::RangeLemmas::places_step))]
fn push_state_rows(
    text: &mut Vec<u8>,
    report: &Report,
    signals: &Signals<'_>,
    window: Window,
) -> Result<(), NoMemory>
    ensures { OnOk result (text.new.items ≡ text.old.items ++ state_rows report.now (signals_in signals.now) window) }
{
    'states: for i in 0..report.states.len() {
        push_shown_row(text, report, signals, window, i)?;
    }
    Ok(())
}

/// The table of a trace with these signals.
fn table_of(
    alloc: Global,
    report: &Report,
    signals: &Signals<'_>,
    window: Window,
) -> Result<Vec<u8>, NoMemory>
    ensures { IfOk result (λ text. text.items ≡ trace_rows report.now (signals_in signals.now) window) }
{
    let mut text = Vec::new(alloc);
    push_head_row(&mut text, signals)?;
    push_state_rows(&mut text, report, signals, window)?;
    Ok(text)
}

/// The trace of a report as a table of comma-separated values: a column for each signal, under its name as RTL writes it, and a row
/// for each state in a window, with the values that the text of the trace has. Where names are given, these alone.
pub fn trace_table(
    alloc: Global,
    net: &Netlist,
    report: &Report,
    window: Window,
    only: &[&str],
) -> Result<Vec<u8>, NoMemory>
    ensures { IfOk result (λ text. TellsTable net.now.raw report.now window (map (λ s. s.now) only.now) text.items) }
{
    match trace_signals(alloc, net, only) {
        Ok(signals) => table_of(alloc, report, &signals, window),
        Err(refused) => Err(refused),
    }
}
