//! Texts of waves, what they are read as, and the traces that they show: no run of the programs reads a waveform.
ghost use Rattle.std.specs.Prelude.{◌≡◌, length, All};
ghost use Rattle.std.specs.Bool.{OnTrue};

use crate::netlists::netlist;
use bs_bits::{Bits, List, NoMemory, push_number, push_piece};
use bs_net::Netlist;
use bs_wave::{Trace, Value, Wave, WaveFault};
use std::alloc::Global;
use std::test::Fail;

const TOGGLE: &str = "module t(ck); input ck; not g(d,q); dff f(ck,q,d); endmodule";

const SHIFT: &str = "module sh(ck,a); input ck,a; dff f0(ck,q0,a); dff f1(ck,q1,q0); endmodule";

const ONE: &str = "module c(ck,a); input ck,a; and g(d,a,1'b1); dff f(ck,\\q[0] ,d); endmodule";

const TOGGLED: &str =
    "$timescale 1ns $end\n$scope module trace $end\n$var wire 1 ! ck $end\n$var wire 1 \" d $end\n$var wire 1 # q $end\n$upscope $end\n$enddefinitions $end\n#0\n0!\n1\"\n0#\n#1\nx\"\n1#\n";

const DUMPED: &str =
    "$timescale 1ns $end\n$scope module trace $end\n$var wire 1 ! ck $end\n$var wire 1 \" a $end\n$var wire 1 # q0 $end\n$var wire 1 $ q1 $end\n$upscope $end\n$enddefinitions $end\n#0\n0!\nx\"\n1#\n1$\n";

const RESTED: &str =
    "$timescale 1ns $end\n$scope module trace $end\n$var wire 1 ! ck $end\n$var wire 1 \" a $end\n$var wire 1 # q0 $end\n$var wire 1 $ q1 $end\n$upscope $end\n$enddefinitions $end\n#0\n0!\n0\"\n0#\n0$\n#1\n#2\nx\"\n";

const HELD: &str =
    "$timescale 1ns $end\n$scope module trace $end\n$var wire 1 ! ck $end\n$var wire 1 \" a $end\n$var wire 1 # d $end\n$var wire 1 $ 1'b1 $end\n$var wire 1 % \\q[0] $end\n$upscope $end\n$enddefinitions $end\n#0\n0!\n1\"\n1#\n1$\n0%\n#1\nx\"\nx#\n1%\n";

/// Whether each of a list has so many values.
fn are_full(moments: &[List<Value>], count: usize) -> bool
    ensures { OnTrue result (All (λ values. length values ≡ count) moments.now) }
{
    'moments: for values in moments {
        if values.len() != count {
            return false;
        }
    }
    true
}

/// Bits as words of a line.
fn push_words(list: &[Bits], into: &mut Vec<u8>) -> Result<(), NoMemory> {
    for bits in list {
        bits.text(into)?;
        into.push(b' ')?;
    }
    Ok(())
}

/// The words of a trace's states and those of its inputs, with a `/` between them.
fn push_trace(trace: &Trace, into: &mut Vec<u8>) -> Result<(), NoMemory> {
    push_words(trace.states.slice(), into)?;
    into.push(b'/')?;
    push_words(trace.inputs.slice(), into)
}

/// Whether a trace is spelled so.
fn is_spelled(alloc: Global, trace: &Trace, want: &str) -> Result<bool, NoMemory> {
    let mut words = Vec::new(alloc);
    push_trace(trace, &mut words)?;
    Ok(words.as_slice() == want.as_bytes())
}

/// Whether a wave shows the trace that is spelled so, or none where nothing is wanted.
fn shows(alloc: Global, net: &Netlist, wave: &Wave, want: &str) -> Result<bool, NoMemory> {
    if !are_full(wave.moments.slice(), wave.keys.len()) {
        return Ok(want.is_empty());
    }
    match wave.trace(alloc, net)? {
        Some(trace) => is_spelled(alloc, &trace, want),
        None => Ok(want.is_empty()),
    }
}

/// Whether a wave has this text.
fn has_text(alloc: Global, wave: &Wave, text: &[u8]) -> Result<bool, NoMemory> {
    let mut again = Vec::new(alloc);
    wave.text(&mut again)?;
    Ok(again.as_slice() == text)
}

/// Whether a text is read over a netlist, and what is read has this text again and shows this trace.
fn is_read_over(alloc: Global, net: &Netlist, text: &[u8], trace: &str) -> Result<bool, NoMemory> {
    match Wave::read(alloc, text) {
        Ok(wave) => Ok(has_text(alloc, &wave, text)? && shows(alloc, net, &wave, trace)?),
        Err(_) => Ok(false),
    }
}

/// The same over the netlist of a text.
fn is_read(alloc: Global, circuit: &[u8], text: &[u8], trace: &str) -> Result<bool, NoMemory> {
    match netlist(alloc, circuit) {
        Some(net) => is_read_over(alloc, &net, text, trace),
        None => Ok(false),
    }
}

/// A text with the first place of another in it changed.
fn changed(alloc: Global, text: &str, from: &str, to: &str) -> Result<String, NoMemory> {
    match text.split_once(from) {
        Some((before, after)) => Ok(format!(in alloc; "{before}{to}{after}")?),
        None => Ok(String::from_str(alloc, "")?),
    }
}

/// The line at which a text is refused, or 0.
fn refused_line(alloc: Global, text: &str) -> u64 {
    match Wave::read(alloc, text.as_bytes()) {
        Err(WaveFault::Line(line)) => line,
        _ => 0,
    }
}

/// Changes of a text, and the line at which it is refused then.
static WRONG: [(&str, &str, u64); 13] = [
    ("module trace", "module top", 2),
    ("! ck", "! c k", 3),
    ("$var wire 1 # q $end\n", "", 10),
    ("$upscope $end\n", "", 6),
    ("0!\n", "0!!\n", 9),
    ("#1\n", "#2\n", 12),
    ("x\"\n", "1\"\n", 13),
    ("x\"\n1#\n", "1#\nx\"\n", 14),
    ("1#\n", "1$\n", 14),
    ("1#\n", "1#", 14),
    ("1#\n", "1#\n\n", 15),
    ("1\"\n0#\n#1\nx\"\n1#\n", "", 10),
    ("1#\n", "1#\n#2\n", 0),
];

/// Whether a changed text is refused at this line.
fn is_wrong(alloc: Global, (from, to, line): &(&str, &str, u64)) -> Result<bool, NoMemory> {
    let text = changed(alloc, TOGGLED, from, to)?;
    Ok(refused_line(alloc, text.as_str()) == *line)
}

#[test]
fn wrong_lines_are_named(rt: HostRuntime) -> Result<(), Fail> {
    for row in &WRONG {
        assert!(rt; is_wrong(rt.alloc(), row)?);
    }
    assert_eq!(rt; refused_line(rt.alloc(), ""), 1);
    Ok(())
}

/// Changes of a text, and the trace that is shown then. The first four change nothing.
static SHOWN: [(&str, &str, &str, &str, &str); 9] = [
    (TOGGLE, TOGGLED, "#1", "#1", "0 1 /. "),
    (SHIFT, DUMPED, "#0", "#0", "11 /"),
    (SHIFT, RESTED, "#1", "#1", "00 00 00 /0 0 "),
    (ONE, HELD, "#1", "#1", "0 1 /1 "),
    (
        TOGGLE,
        TOGGLED,
        "1\"\n0#\n#1\nx\"",
        "x\"\n0#\n#1\n0\"",
        "0 1 /. ",
    ),
    (TOGGLE, TOGGLED, "0#", "x#", ""),
    (TOGGLE, TOGGLED, "! ck", "! cl", ""),
    (SHIFT, TOGGLED, "! ck", "! ck", ""),
    (SHIFT, RESTED, "#1\n#2\nx\"", "#1\nx\"\n#2", ""),
];

/// Whether a changed text is read so.
fn is_changed(
    alloc: Global,
    (circuit, text, from, to, trace): &(&str, &str, &str, &str, &str),
) -> Result<bool, NoMemory> {
    let wave = changed(alloc, text, from, to)?;
    is_read(alloc, circuit.as_bytes(), wave.as_bytes(), trace)
}

#[test]
fn waves_show_their_trace_or_none(rt: HostRuntime) -> Result<(), Fail> {
    for row in &SHOWN {
        assert!(rt; is_changed(rt.alloc(), row)?);
    }
    Ok(())
}

/// The text of a netlist of so many gates on one input.
fn gates(alloc: Global, count: usize) -> Result<Vec<u8>, NoMemory> {
    let mut text = Vec::new(alloc);
    push_piece(&mut text, b"module m(ck,a); input ck,a; dff (ck,q,a);\n")?;
    for number in 0..count {
        push_piece(&mut text, b"buf (b")?;
        push_number(&mut text, number as u64)?;
        push_piece(&mut text, b",a);\n")?;
    }
    push_piece(&mut text, b"endmodule")?;
    Ok(text)
}

/// Appends the identifier of a net: its number in base 94.
fn push_identifier(text: &mut Vec<u8>, number: usize) -> Result<(), NoMemory> {
    let mut rest = number;
    for _ in 0..4 {
        text.push((rest % 94).saturating_add(33) as u8)?;
        rest /= 94;
        if rest == 0 {
            return Ok(());
        }
    }
    Ok(())
}

/// Appends the declarations of nets that are named by a letter and their number from 0, the first of them with this number.
fn push_declared(text: &mut Vec<u8>, first: usize, count: usize) -> Result<(), NoMemory> {
    for number in 0..count {
        push_piece(text, b"$var wire 1 ")?;
        push_identifier(text, first.saturating_add(number))?;
        push_piece(text, b" b")?;
        push_number(text, number as u64)?;
        push_piece(text, b" $end\n")?;
    }
    Ok(())
}

/// Appends a value of so many nets, of which the first has this number.
fn push_values(text: &mut Vec<u8>, value: u8, first: usize, count: usize) -> Result<(), NoMemory> {
    for number in 0..count {
        text.push(value)?;
        push_identifier(text, first.saturating_add(number))?;
        text.push(b'\n')?;
    }
    Ok(())
}

/// The waveform of a one and a zero that are put into that netlist.
fn great_text(alloc: Global, count: usize) -> Result<Vec<u8>, NoMemory> {
    let mut text = Vec::new(alloc);
    push_piece(
        &mut text,
        b"$timescale 1ns $end\n$scope module trace $end\n$var wire 1 ! ck $end\n$var wire 1 \" a $end\n$var wire 1 # q $end\n",
    )?;
    push_declared(&mut text, 3, count)?;
    push_piece(
        &mut text,
        b"$upscope $end\n$enddefinitions $end\n#0\n0!\n1\"\n0#\n",
    )?;
    push_values(&mut text, b'1', 3, count)?;
    push_piece(&mut text, b"#1\n0\"\n1#\n")?;
    push_values(&mut text, b'0', 3, count)?;
    push_piece(&mut text, b"#2\nx\"\n0#\n")?;
    push_values(&mut text, b'x', 3, count)?;
    Ok(text)
}

/// Whether the waveform of so many gates is read.
fn is_great(alloc: Global, count: usize) -> Result<bool, NoMemory> {
    let circuit = gates(alloc, count)?;
    let text = great_text(alloc, count)?;
    is_read(alloc, &circuit, &text, "0 1 0 /1 0 ")
}

#[test]
fn ten_thousand_nets_are_read(rt: HostRuntime) -> Result<(), Fail> {
    assert!(rt; is_great(rt.alloc(), 10_000)?);
    Ok(())
}
