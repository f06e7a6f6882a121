//! The lines of a netlist's flip-flops and data inputs.
ghost use Rattle.std.specs.Prelude.{◌≡◌, ◌<◌, ◌∷◌, [], ◌++◌, codes, decimal, length, IfOk, OnOk};
ghost use Rattle.bs_bits.specs.Text.{digit_of};
ghost use Rattle.bs_net.specs.Netlist.{parts_of};
ghost use Rattle.bs_net.specs.Parts.{key_at};
ghost use Rattle.bs_inspect_netlist.specs.Lines.{TellsFlops, TellsInputs, copies_text, copy_piece, flop_line, flops_lines, input_line, inputs_lines};

use crate::mark::Measure;
use crate::marking::marks;
use bs_bits::{NoMemory, end_line, push_number, push_piece};
use bs_net::{Flop, NetId, Netlist, Raw};
use std::alloc::Global;

/// The key of a net.
#[tactic(auto, using(crate::proofs::TextLemmas::key_is))]
pub fn key_at(raw: &Raw, net: u32) -> &[u8]
    requires { net < length raw.now.names }
    ensures { result.now ≡ key_at (parts_of raw.now) net }
{
    raw.names.key(NetId(net)).as_bytes()
}

/// Appends the key of a net behind a space, where it is another net than this one and shows its value.
fn push_copy(
    text: &mut Vec<u8>,
    raw: &Raw,
    sources: &[usize],
    net: u32,
    other: u32,
) -> Result<(), NoMemory>
    requires named { other < length raw.now.names }
    requires marked { other < length sources.now }
    ensures { OnOk result (text.new.items ≡ text.old.items ++ copy_piece (parts_of raw.now) sources.now net other) }
{
    if sources[other as usize] != net as usize || other == net {
        return Ok(());
    }
    push_piece(text, b" ")?;
    push_piece(text, key_at(raw, other))
}

/// Appends the keys of all nets that show the value of this one.
#[tactic(auto, using(bs_bits::proofs::RangeLemmas::places_step))]
fn push_copies(text: &mut Vec<u8>, raw: &Raw, sources: &[usize], net: u32) -> Result<(), NoMemory>
    requires { length sources.now ≡ length raw.now.names }
    ensures { OnOk result (text.new.items ≡ text.old.items ++ copies_text (parts_of raw.now) sources.now net) }
{
    'nets: for other in 0..raw.names.len() {
        push_copy(text, raw, sources, net, other)?;
    }
    Ok(())
}

/// Appends the character of a bit.
fn push_digit(text: &mut Vec<u8>, bit: bool) -> Result<(), NoMemory>
    ensures { OnOk result (text.new.items ≡ text.old.items ++ digit_of bit ∷ []) }
{
    if bit {
        push_piece(text, b"1")
    } else {
        push_piece(text, b"0")
    }
}

/// Appends a number, and the key of a net behind a space.
fn push_numbered(text: &mut Vec<u8>, raw: &Raw, number: usize, net: u32) -> Result<(), NoMemory>
    requires { net < length raw.now.names }
    ensures { OnOk result (text.new.items ≡ text.old.items ++ (decimal number ++ (codes " " ++ key_at (parts_of raw.now) net))) }
{
    push_number(text, number as u64)?;
    push_piece(text, b" ")?;
    push_piece(text, key_at(raw, net))
}

/// Appends the line of a flip-flop.
fn push_flop(
    text: &mut Vec<u8>,
    raw: &Raw,
    sources: &[usize],
    number: usize,
    flop: Flop,
) -> Result<(), NoMemory>
    requires named { flop.q.0 < length raw.now.names }
    requires marked { length sources.now ≡ length raw.now.names }
    ensures { OnOk result (text.new.items ≡ text.old.items ++ flop_line (parts_of raw.now) sources.now number flop) }
{
    push_numbered(text, raw, number, flop.q.0)?;
    push_piece(text, b" ")?;
    push_digit(text, flop.reset)?;
    push_copies(text, raw, sources, flop.q.0)?;
    end_line(text)
}

/// Appends the line of a data input.
fn push_input(
    text: &mut Vec<u8>,
    raw: &Raw,
    sources: &[usize],
    number: usize,
    input: NetId,
) -> Result<(), NoMemory>
    requires named { input.0 < length raw.now.names }
    requires marked { length sources.now ≡ length raw.now.names }
    ensures { OnOk result (text.new.items ≡ text.old.items ++ input_line (parts_of raw.now) sources.now number input) }
{
    push_numbered(text, raw, number, input.0)?;
    push_copies(text, raw, sources, input.0)?;
    end_line(text)
}

/// Appends a line for each flip-flop.
#[tactic(auto, using(bs_bits::proofs::RangeLemmas::places_step))]
fn push_flops(text: &mut Vec<u8>, raw: &Raw, sources: &[usize]) -> Result<(), NoMemory>
    requires { length sources.now ≡ length raw.now.names }
    ensures { OnOk result (text.new.items ≡ text.old.items ++ flops_lines (parts_of raw.now) sources.now) }
{
    'flops: for i in 0..raw.flops.len() {
        push_flop(text, raw, sources, i, *raw.flops.get(i))?;
    }
    Ok(())
}

/// Appends a line for each data input.
#[tactic(auto, using(bs_bits::proofs::RangeLemmas::places_step))]
fn push_inputs(text: &mut Vec<u8>, net: &Netlist, sources: &[usize]) -> Result<(), NoMemory>
    requires { length sources.now ≡ length net.now.raw.names }
    ensures { OnOk result (text.new.items ≡ text.old.items ++ inputs_lines net.now.raw sources.now) }
{
    let raw = net.raw();
    let inputs = net.data_inputs();
    'inputs: for i in 0..inputs.len() {
        push_input(text, raw, sources, i, *inputs.get(i))?;
    }
    Ok(())
}

/// A line for each flip-flop, in the order of the scan chain: its number, its key, its bit at reset, and the further keys
/// that show its value through `buf` and `assign` alone.
pub fn flops_text(alloc: Global, net: &Netlist) -> Result<Vec<u8>, NoMemory>
    ensures { IfOk result (λ text. TellsFlops net.now.raw text.items) }
{
    let sources = marks(alloc, Measure::Source, net)?;
    let mut text = Vec::new(alloc);
    push_flops(&mut text, net.raw(), sources.as_slice())?;
    Ok(text)
}

/// A line for each data input, in the order of an input's bits: its number, its key, and the further keys that show its
/// value through `buf` and `assign` alone.
pub fn inputs_text(alloc: Global, net: &Netlist) -> Result<Vec<u8>, NoMemory>
    ensures { IfOk result (λ text. TellsInputs net.now.raw text.items) }
{
    let sources = marks(alloc, Measure::Source, net)?;
    let mut text = Vec::new(alloc);
    push_inputs(&mut text, net, sources.as_slice())?;
    Ok(text)
}
