//! A save file of gtkwave for a waveform.
ghost use Rattle.std.specs.Prelude.{◌≡◌, ◌+◌, ◌-◌, ◌++◌, length, map, OnOk, IfOk};
ghost use Rattle.std.specs.List.{flat_map};
ghost use Rattle.bs_net_names.specs.Ranges.{range_text};
ghost use Rattle.bs_inspect_view.specs.Signals.{signal_in};
ghost use Rattle.bs_inspect_view.specs.Drawn.{asked_in};
ghost use Rattle.bs_inspect_view.specs.Save.{IsSaveFile, format_line, full_name, path_words, save_head, save_lines, scope_word, shown_lines};
ghost use Rattle.bs_inspect_view.specs.Scopes.{parts_of};

use crate::drawn::drawn_signals;
use crate::request::ViewRequest;
use crate::scopes::{leaf_of, path_of, word_of};
use crate::signal::Signal;
use bs_bits::{NoMemory, end_line, push_line, push_number_line, push_piece};
use bs_net::Netlist;
use bs_net_names::{first_split, push_range};
use std::alloc::Global;

/// Appends the name of a scope, and the dot behind it.
fn push_scope_word(text: &mut Vec<u8>, part: &[u8]) -> Result<(), NoMemory>
    ensures { OnOk result (text.new.items ≡ text.old.items ++ scope_word part.now) }
{
    push_piece(text, word_of(part))?;
    push_piece(text, b".")
}

/// Appends the names of the scopes that the parts of a path are.
#[tactic(auto, using(crate::proofs::ScopeLemmas::word_more, crate::proofs::ScopeLemmas::fewer_parts))]
fn push_scope_words(text: &mut Vec<u8>, path: &[u8]) -> Result<(), NoMemory>
    ensures { OnOk result (text.new.items ≡ text.old.items ++ flat_map scope_word (parts_of path.now)) }
{
    let mut rest = path;
    'parts: while let Some((part, behind)) = first_split(b'.', rest) {
        push_scope_word(text, part)?;
        rest = behind;
    }
    push_scope_word(text, rest)?;
    Ok(())
}

/// Appends a path, as it stands before a name.
fn push_path(text: &mut Vec<u8>, path: &[u8]) -> Result<(), NoMemory>
    ensures { OnOk result (text.new.items ≡ text.old.items ++ path_words path.now) }
{
    if path.is_empty() {
        return Ok(());
    }
    push_scope_words(text, path)
}

/// Appends the numbers of a vector's bits.
fn push_bit_range(text: &mut Vec<u8>, signal: &Signal<'_>) -> Result<(), NoMemory>
    ensures { OnOk result (text.new.items ≡ text.old.items ++ range_text signal.now.high (length signal.now.places)) }
{
    match signal.high {
        Some(high) => push_range(text, high, signal.places.len()),
        None => Ok(()),
    }
}

/// Appends the name of a signal behind those of its scopes.
fn push_full_name(text: &mut Vec<u8>, signal: &Signal<'_>) -> Result<(), NoMemory>
    ensures { OnOk result (text.new.items ≡ text.old.items ++ full_name (signal_in signal.now)) }
{
    push_piece(text, b"trace.")?;
    push_path(text, path_of(signal.base))?;
    push_piece(text, word_of(leaf_of(signal.base)))?;
    push_bit_range(text, signal)
}

/// Appends the line on how the values of so many bits are shown.
fn push_format_line(text: &mut Vec<u8>, count: usize) -> Result<(), NoMemory>
    ensures { OnOk result (text.new.items ≡ text.old.items ++ format_line count) }
{
    if count == 1 {
        push_line(text, b"@28")
    } else {
        push_line(text, b"@22")
    }
}

/// Appends the lines of a signal.
fn push_shown(text: &mut Vec<u8>, signal: &Signal<'_>) -> Result<(), NoMemory>
    ensures { OnOk result (text.new.items ≡ text.old.items ++ shown_lines (signal_in signal.now)) }
{
    push_format_line(text, signal.places.len())?;
    push_full_name(text, signal)?;
    end_line(text)
}

/// Appends the lines of signals.
#[tactic(auto, using(crate::proofs::PlaceLemmas::shown_more))]
fn push_all_shown(text: &mut Vec<u8>, signals: &[Signal<'_>]) -> Result<(), NoMemory>
    ensures { OnOk result (text.new.items ≡ text.old.items ++ flat_map shown_lines (map signal_in signals.now)) }
{
    'signals: for signal in signals {
        push_shown(text, signal)?;
    }
    Ok(())
}

/// Appends the lines before those of the signals.
fn push_save_head(text: &mut Vec<u8>, wave: &[u8], from: u64, last: u64) -> Result<(), NoMemory>
    ensures { OnOk result (text.new.items ≡ text.old.items ++ save_head wave.now from last) }
{
    push_piece(text, b"[dumpfile] \"")?;
    push_piece(text, wave)?;
    push_line(text, b"\"")?;
    push_number_line(text, b"[timestart] ", from)?;
    push_number_line(text, b"*0.000000 ", last)?;
    push_piece(text, b"@24\nrecorded.run\nrecorded.cycle\n")?;
    Ok(())
}

/// The save file that shows signals over these times.
fn text_of(
    alloc: Global,
    wave: &[u8],
    from: u64,
    last: u64,
    signals: &[Signal<'_>],
) -> Result<Vec<u8>, NoMemory>
    ensures { IfOk result (λ text. text.items ≡ save_lines wave.now from last (map signal_in signals.now)) }
{
    let mut text = Vec::new(alloc);
    push_save_head(&mut text, wave, from, last)?;
    push_all_shown(&mut text, signals)?;
    Ok(text)
}

/// The save file of signals, where the last of so many moments is marked.
fn marked_at_last(
    alloc: Global,
    wave: &[u8],
    from: u64,
    states: usize,
    signals: &[Signal<'_>],
) -> Result<Vec<u8>, NoMemory>
    ensures { IfOk result (λ text. text.items ≡ save_lines wave.now from (from + (states - 1)) (map signal_in signals.now)) }
{
    match from.checked_add(states.saturating_sub(1) as u64) {
        Some(last) => text_of(alloc, wave, from, last, signals),
        None => Err(NoMemory),
    }
}

/// A save file for gtkwave, which opens the waveform under this name and shows the run and the cycle of the recorded states, and then
/// the signals that `drawing` draws of a trace of so many states, with what is asked. Its marker stands at the last state. What is asked
/// of remarks and recorded moments has no part in it.
pub fn save_file(
    alloc: Global,
    net: &Netlist,
    wave: &str,
    asked: &ViewRequest<'_>,
    states: usize,
) -> Result<Vec<u8>, NoMemory>
    ensures { IfOk result (λ text. IsSaveFile net.now.raw (asked_in asked.now) wave.now states text.items) }
{
    match drawn_signals(alloc, net, asked) {
        Ok(signals) => marked_at_last(
            alloc,
            wave.as_bytes(),
            asked.from,
            states,
            signals.as_slice(),
        ),
        Err(refused) => Err(refused),
    }
}
