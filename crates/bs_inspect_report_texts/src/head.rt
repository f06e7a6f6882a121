//! What stands before the first cycle of a test bench, and behind the last.
ghost use Rattle.std.specs.Prelude.{◌≡◌, ◌++◌, map, OnOk};
ghost use Rattle.std.specs.List.{flat_map};
ghost use Rattle.bs_net_names.specs.Keys.{parts_in};
ghost use Rattle.bs_inspect_view.specs.Signals.{signal_in};
ghost use Rattle.bs_inspect_report_texts.specs.Text.{begin_lines, clock_line, dump_lines, end_lines, further_connection, head_lines, instance_line, shown_line, tail_lines, variable_line};

use crate::port::{is_rising, push_bounds, push_connection, push_word};
use bs_bits::{NoMemory, push_line, push_number, push_piece};
use bs_inspect_view::Signal;
use bs_net_names::KeyParts;

/// Appends the variable of a port.
fn push_variable(text: &mut Vec<u8>, signal: &Signal<'_>) -> Result<(), NoMemory>
    ensures { OnOk result (text.new.items ≡ text.old.items ++ variable_line (signal_in signal.now)) }
{
    push_piece(text, b"  reg ")?;
    push_bounds(text, signal.high, signal.places.len(), is_rising(signal))?;
    push_word(text, signal.base)?;
    push_line(text, b";")
}

/// Appends the variables of ports.
#[tactic(auto, using(crate::proofs::TextLemmas::variables_more))]
fn push_variables(text: &mut Vec<u8>, signals: &[Signal<'_>]) -> Result<(), NoMemory>
    ensures { OnOk result (text.new.items ≡ text.old.items ++ flat_map variable_line (map signal_in signals.now)) }
{
    'signals: for signal in signals {
        push_variable(text, signal)?;
    }
    Ok(())
}

/// Appends the variable of the clock.
#[tactic(auto, unfolding(crate::specs::Text::clock_line))]
fn push_clock(text: &mut Vec<u8>, clock: KeyParts<'_>) -> Result<(), NoMemory>
    ensures { OnOk result (text.new.items ≡ text.old.items ++ clock_line (parts_in clock.entry)) }
{
    push_piece(text, b"  reg ")?;
    push_bounds(text, clock.bit, 1, false)?;
    push_word(text, clock.base)?;
    push_line(text, b" = 0;")
}

/// Appends a port behind another one.
fn push_further(text: &mut Vec<u8>, signal: &Signal<'_>) -> Result<(), NoMemory>
    ensures { OnOk result (text.new.items ≡ text.old.items ++ further_connection (signal_in signal.now)) }
{
    push_piece(text, b", ")?;
    push_connection(text, signal.base)
}

/// Appends ports.
#[tactic(auto, using(crate::proofs::TextLemmas::connections_more))]
fn push_connections(text: &mut Vec<u8>, signals: &[Signal<'_>]) -> Result<(), NoMemory>
    ensures { OnOk result (text.new.items ≡ text.old.items ++ flat_map further_connection (map signal_in signals.now)) }
{
    'signals: for signal in signals {
        push_further(text, signal)?;
    }
    Ok(())
}

/// Appends the design.
#[tactic(auto, unfolding(crate::specs::Text::instance_line))]
fn push_instance(
    text: &mut Vec<u8>,
    top: &[u8],
    clock: KeyParts<'_>,
    signals: &[Signal<'_>],
) -> Result<(), NoMemory>
    ensures { OnOk result (text.new.items ≡ text.old.items ++ instance_line top.now (parts_in clock.entry) (map signal_in signals.now)) }
{
    push_piece(text, b"  ")?;
    push_piece(text, top)?;
    push_piece(text, b" dut (")?;
    push_connection(text, clock.base)?;
    push_connections(text, signals)?;
    push_line(text, b");")
}

/// Appends the lines that begin the module.
#[tactic(auto, unfolding(crate::specs::Text::begin_lines))]
fn push_begin(text: &mut Vec<u8>) -> Result<(), NoMemory>
    ensures { OnOk result (text.new.items ≡ text.old.items ++ begin_lines) }
{
    push_line(text, b"`timescale 1ns/1ns")?;
    push_line(text, b"module bench;")?;
    Ok(())
}

/// Appends the lines that name the file of the signals.
#[tactic(auto, unfolding(crate::specs::Text::dump_lines))]
fn push_dump(text: &mut Vec<u8>) -> Result<(), NoMemory>
    ensures { OnOk result (text.new.items ≡ text.old.items ++ dump_lines) }
{
    push_line(text, b"  initial begin")?;
    push_line(text, b"    $dumpfile(\"bench.vcd\");")?;
    push_line(text, b"    $dumpvars(0, bench);")?;
    Ok(())
}

/// Appends the lines before the first cycle.
pub(crate) fn push_head(
    text: &mut Vec<u8>,
    top: &[u8],
    clock: KeyParts<'_>,
    signals: &[Signal<'_>],
) -> Result<(), NoMemory>
    ensures { OnOk result (text.new.items ≡ text.old.items ++ head_lines top.now (parts_in clock.entry) (map signal_in signals.now)) }
{
    push_begin(text)?;
    push_clock(text, clock)?;
    push_variables(text, signals)?;
    push_instance(text, top, clock, signals)?;
    push_dump(text)
}

/// Appends the line that shows how many cycles there were.
fn push_shown(text: &mut Vec<u8>, count: usize) -> Result<(), NoMemory>
    ensures { OnOk result (text.new.items ≡ text.old.items ++ shown_line count) }
{
    push_piece(text, b"    #5 $display(\"cycle ")?;
    push_number(text, count as u64)?;
    push_line(text, b"\");")?;
    Ok(())
}

/// Appends the lines that end the module.
#[tactic(auto, unfolding(crate::specs::Text::end_lines))]
fn push_end(text: &mut Vec<u8>) -> Result<(), NoMemory>
    ensures { OnOk result (text.new.items ≡ text.old.items ++ end_lines) }
{
    push_line(text, b"    $finish;")?;
    push_line(text, b"  end")?;
    push_line(text, b"endmodule")?;
    Ok(())
}

/// Appends the lines behind the last of so many cycles.
pub(crate) fn push_tail(text: &mut Vec<u8>, count: usize) -> Result<(), NoMemory>
    ensures { OnOk result (text.new.items ≡ text.old.items ++ tail_lines count) }
{
    push_shown(text, count)?;
    push_end(text)
}
