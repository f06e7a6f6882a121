//! The sizes of a netlist.
ghost use Rattle.std.specs.Prelude.{◌≡◌, ◌++◌, length, IfOk, OnOk, count_by, map, fold, max, not};
ghost use Rattle.bs_net.specs.Netlist.{circuit, parts_of};
ghost use Rattle.bs_net.specs.Parts.{PartsArePlaced};
ghost use Rattle.bs_inspect_netlist.specs.Sizes.{TellsSizes, depths_lines, dff_count, dffe_count, dffr_count, dffs_count, flops_lines, greatest, has_clear, has_enable, is_kind, is_plain, kind_count, fan_outs, most_inputs, number_line, parities_lines, ports_lines, stats_lines, tables_lines};

use crate::mark::Measure;
use crate::marking::marks;
use crate::tally::reader_counts;
use bs_bits::{NoMemory, push_number_line};
use bs_net::{Flop, Gate, Kind, Mode, Netlist, Raw};
use std::alloc::Global;

/// Whether two kinds are the same.
fn is_kind(kind: Kind, other: Kind) -> bool
    ensures { result ≡ is_kind kind other }
{
    match (kind, other) {
        (Kind::And, Kind::And) => true,
        (Kind::Nand, Kind::Nand) => true,
        (Kind::Or, Kind::Or) => true,
        (Kind::Nor, Kind::Nor) => true,
        (Kind::Xor, Kind::Xor) => true,
        (Kind::Xnor, Kind::Xnor) => true,
        (Kind::Buf, Kind::Buf) => true,
        (Kind::Not, Kind::Not) => true,
        _ => false,
    }
}

/// How many gates are of a kind.
fn kind_count(kind: Kind, gates: &[Gate]) -> usize
    ensures { result ≡ kind_count kind gates.now }
{
    gates.iter().filter(|gate| is_kind(kind, gate.kind)).count()
}

fn is_plain(mode: Mode) -> bool
    ensures { result ≡ is_plain mode }
{
    matches!(mode, Mode::Plain)
}

fn has_enable(mode: Mode) -> bool
    ensures { result ≡ has_enable mode }
{
    matches!(mode, Mode::Enable(_))
}

fn has_clear(mode: Mode) -> bool
    ensures { result ≡ has_clear mode }
{
    matches!(mode, Mode::Clear(_))
}

/// How many flip-flops are a `dff`.
fn dff_count(flops: &[Flop]) -> usize
    ensures { result ≡ dff_count flops.now }
{
    flops
        .iter()
        .filter(|flop| is_plain(flop.mode) && !flop.reset)
        .count()
}

/// How many flip-flops are a `dffs`.
fn dffs_count(flops: &[Flop]) -> usize
    ensures { result ≡ dffs_count flops.now }
{
    flops
        .iter()
        .filter(|flop| is_plain(flop.mode) && flop.reset)
        .count()
}

/// How many flip-flops are a `dffe`.
fn dffe_count(flops: &[Flop]) -> usize
    ensures { result ≡ dffe_count flops.now }
{
    flops.iter().filter(|flop| has_enable(flop.mode)).count()
}

/// How many flip-flops are a `dffr`.
fn dffr_count(flops: &[Flop]) -> usize
    ensures { result ≡ dffr_count flops.now }
{
    flops.iter().filter(|flop| has_clear(flop.mode)).count()
}

/// The greatest of some numbers.
fn greatest(numbers: &[usize]) -> usize
    ensures { result ≡ greatest numbers.now }
{
    let mut greatest = 0usize;
    'numbers: for number in numbers {
        greatest = greatest.max(*number);
    }
    greatest
}

/// The most nets that one gate reads.
fn most_inputs(gates: &[Gate]) -> usize
    ensures { result ≡ most_inputs gates.now }
{
    let mut most = 0usize;
    'gates: for gate in gates {
        most = most.max(gate.ins.slice().len());
    }
    most
}

/// Appends the lines of the flip-flops.
#[tactic(auto, unfolding(crate::specs::Sizes::flops_lines))]
fn push_cells(text: &mut Vec<u8>, flops: &[Flop]) -> Result<(), NoMemory>
    ensures { OnOk result (text.new.items ≡ text.old.items ++ flops_lines flops.now) }
{
    push_number_line(text, b"flops ", flops.len() as u64)?;
    push_number_line(text, b"dff ", dff_count(flops) as u64)?;
    push_number_line(text, b"dffs ", dffs_count(flops) as u64)?;
    push_number_line(text, b"dffe ", dffe_count(flops) as u64)?;
    push_number_line(text, b"dffr ", dffr_count(flops) as u64)
}

/// Appends the lines of the ports and nets.
#[tactic(auto, unfolding(crate::specs::Sizes::ports_lines))]
fn push_ports(text: &mut Vec<u8>, net: &Netlist) -> Result<(), NoMemory>
    ensures { OnOk result (text.new.items ≡ text.old.items ++ ports_lines net.now.raw) }
{
    let raw = net.raw();
    push_number_line(text, b"inputs ", net.data_inputs().len() as u64)?;
    push_number_line(text, b"outputs ", raw.outputs.len() as u64)?;
    push_number_line(text, b"nets ", u64::from(raw.names.len()))
}

/// Appends the line of a kind of gates.
fn push_kind(text: &mut Vec<u8>, word: &[u8], kind: Kind, gates: &[Gate]) -> Result<(), NoMemory>
    ensures { OnOk result (text.new.items ≡ text.old.items ++ number_line word.now (kind_count kind gates.now)) }
{
    push_number_line(text, word, kind_count(kind, gates) as u64)
}

/// Appends the lines of the `and` and `or` gates.
#[tactic(auto, unfolding(crate::specs::Sizes::tables_lines))]
fn push_tables(text: &mut Vec<u8>, gates: &[Gate]) -> Result<(), NoMemory>
    ensures { OnOk result (text.new.items ≡ text.old.items ++ tables_lines gates.now) }
{
    push_number_line(text, b"gates ", gates.len() as u64)?;
    push_kind(text, b"and ", Kind::And, gates)?;
    push_kind(text, b"nand ", Kind::Nand, gates)?;
    push_kind(text, b"or ", Kind::Or, gates)?;
    push_kind(text, b"nor ", Kind::Nor, gates)
}

/// Appends the lines of the other gates.
#[tactic(auto, unfolding(crate::specs::Sizes::parities_lines))]
fn push_parities(text: &mut Vec<u8>, gates: &[Gate]) -> Result<(), NoMemory>
    ensures { OnOk result (text.new.items ≡ text.old.items ++ parities_lines gates.now) }
{
    push_kind(text, b"xor ", Kind::Xor, gates)?;
    push_kind(text, b"xnor ", Kind::Xnor, gates)?;
    push_kind(text, b"buf ", Kind::Buf, gates)?;
    push_kind(text, b"not ", Kind::Not, gates)
}

/// Appends the lines of the depth and of the greatest fan-in and fan-out.
#[tactic(auto, unfolding(crate::specs::Sizes::depths_lines))]
fn push_depths(
    text: &mut Vec<u8>,
    raw: &Raw,
    levels: &[usize],
    readers: &[usize],
) -> Result<(), NoMemory>
    requires { readers.now ≡ fan_outs (parts_of raw.now) }
    ensures { OnOk result (text.new.items ≡ text.old.items ++ depths_lines (parts_of raw.now) levels.now) }
{
    push_number_line(text, b"depth ", greatest(levels) as u64)?;
    push_number_line(text, b"fanin ", most_inputs(raw.gates.slice()) as u64)?;
    push_number_line(text, b"fanout ", greatest(readers) as u64)
}

/// Appends all lines.
fn push_stats(
    text: &mut Vec<u8>,
    net: &Netlist,
    levels: &[usize],
    readers: &[usize],
) -> Result<(), NoMemory>
    requires { readers.now ≡ fan_outs net.now.raw }
    ensures { OnOk result (text.new.items ≡ text.old.items ++ stats_lines net.now.raw levels.now) }
{
    let raw = net.raw();
    push_cells(text, raw.flops.slice())?;
    push_ports(text, net)?;
    push_tables(text, raw.gates.slice())?;
    push_parities(text, raw.gates.slice())?;
    push_depths(text, raw, levels, readers)
}

/// The sizes of a netlist: its flip-flops by cell, its ports, nets and gates by kind, the depth of its levels, and the
/// greatest fan-in and fan-out.
pub fn stats_text(alloc: Global, net: &Netlist) -> Result<Vec<u8>, NoMemory>
    ensures { IfOk result (λ text. TellsSizes net.now.raw text.items) }
{
    let levels = marks(alloc, Measure::Level, net)?;
    let readers = reader_counts(alloc, net.raw())?;
    let mut text = Vec::new(alloc);
    push_stats(&mut text, net, levels.as_slice(), readers.as_slice())?;
    Ok(text)
}
