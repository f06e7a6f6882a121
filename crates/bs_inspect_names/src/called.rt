//! The keys of the flip-flops that names stand for.
ghost use Rattle.std.specs.Prelude.{◌≡◌, ◌<◌, ◌∷◌, [], ◌++◌, ◌==◌, codes, length, map, option_map, IfOk, OnOk};
ghost use Rattle.std.specs.List.{find, flat_map, list_any, range_with_len};
ghost use Rattle.bs_net.specs.Netlist.{parts_of};
ghost use Rattle.bs_net.specs.Parts.{key_at};
ghost use Rattle.bs_inspect_names.specs.Called.{AddsCone, AddsName, AddsNames, AddsNets, TellsKeys, called_at, called_key, first_unnamed, is_shown, item_line, net_named, nets_named, shows_some};
ghost use Rattle.bs_inspect_netlist.specs.Marks.{mark_at};

use crate::cone::{cone, parts_at, push_cone_line};
use bs_bits::{NoMemory, end_line, push_piece};
use bs_inspect_netlist::{Measure, key_at, marks};
use bs_net::{Flop, Netlist, Raw};
use bs_net_names::is_named;
use std::alloc::Global;

/// Puts a net at the end, where a name is its own, or its vector's.
fn put_named(nets: &mut Vec<u32>, raw: &Raw, name: &[u8], net: u32) -> Result<(), NoMemory>
    requires { net < length raw.now.names }
    ensures { OnOk result (nets.new.items ≡ nets.old.items ++ net_named (parts_of raw.now) name.now net) }
{
    if is_named(parts_at(raw, net), name) {
        nets.push(net)?;
    }
    Ok(())
}

/// The nets with a name.
#[tactic(auto, using(bs_bits::proofs::RangeLemmas::places_more))]
fn nets_named(alloc: Global, raw: &Raw, name: &[u8]) -> Result<Vec<u32>, NoMemory>
    ensures { IfOk result (λ nets. nets.items ≡ nets_named (parts_of raw.now) name.now) }
{
    let mut nets = Vec::new(alloc);
    'nets: for net in 0..raw.names.len() {
        put_named(&mut nets, raw, name, net)?;
    }
    Ok(nets)
}

/// The number of a net in a table; 0 past its end.
fn mark_at(table: &[usize], net: u32) -> usize
    ensures { result ≡ mark_at table.now net }
{
    let place = net as usize;
    if place < table.len() { table[place] } else { 0 }
}

/// Whether one of these nets shows the value of that one.
fn is_shown(sources: &[usize], nets: &[u32], net: u32) -> bool
    ensures { result ≡ is_shown sources.now nets.now net }
{
    nets.iter()
        .any(|other| mark_at(sources, *other) == net as usize)
}

/// Appends the key of a flip-flop behind a space, where one of these nets shows its value.
fn push_called(
    text: &mut Vec<u8>,
    raw: &Raw,
    sources: &[usize],
    nets: &[u32],
    flop: Flop,
) -> Result<(), NoMemory>
    requires { flop.q.0 < length raw.now.names }
    ensures { OnOk result (text.new.items ≡ text.old.items ++ called_key (parts_of raw.now) sources.now nets.now flop) }
{
    if !is_shown(sources, nets, flop.q.0) {
        return Ok(());
    }
    push_piece(text, b" ")?;
    push_piece(text, key_at(raw, flop.q.0))
}

/// Appends the keys of the flip-flops whose values these nets show.
#[tactic(auto, using(bs_bits::proofs::RangeLemmas::places_step))]
fn push_keys(text: &mut Vec<u8>, raw: &Raw, sources: &[usize], nets: &[u32]) -> Result<(), NoMemory>
    ensures { OnOk result (text.new.items ≡ text.old.items ++ flat_map (called_at (parts_of raw.now) sources.now nets.now) (range_with_len 0 (length raw.now.flops))) }
{
    'flops: for i in 0..raw.flops.len() {
        push_called(text, raw, sources, nets, *raw.flops.get(i))?;
    }
    Ok(())
}

/// Appends the item of the flip-flops whose values these nets show.
fn push_item_line(
    text: &mut Vec<u8>,
    raw: &Raw,
    sources: &[usize],
    nets: &[u32],
) -> Result<(), NoMemory>
    ensures { OnOk result (text.new.items ≡ text.old.items ++ item_line (parts_of raw.now) sources.now nets.now) }
{
    push_piece(text, b"xor")?;
    push_keys(text, raw, sources, nets)?;
    end_line(text)
}

/// Whether one of these nets shows the value of a flip-flop in a list.
fn shows_flop(sources: &[usize], nets: &[u32], flops: &[Flop]) -> bool
    ensures { result ≡ list_any (λ f. is_shown sources.now nets.now f.q.0) flops.now }
{
    flops.iter().any(|flop| is_shown(sources, nets, flop.q.0))
}

/// Whether one of these nets shows a flip-flop's value.
fn shows_some(raw: &Raw, sources: &[usize], nets: &[u32]) -> bool
    ensures { result ≡ shows_some (parts_of raw.now) sources.now nets.now }
{
    shows_flop(sources, nets, raw.flops.slice())
}

/// Appends the line of what the nets with a name are computed from.
#[tactic(auto, using(crate::proofs::CalledLemmas::cone_added))]
fn push_behind(text: &mut Vec<u8>, net: &Netlist, name: &[u8]) -> Result<(), NoMemory>
    ensures { OnOk result (AddsCone net.now.raw name.now text.old.items text.new.items) }
{
    let behind = cone(*text.allocator(), net, name)?;
    push_cone_line(text, net, behind.as_slice())?;
    Ok(())
}

/// Appends the line of these nets, which have a name.
#[tactic(auto, using(crate::proofs::CalledLemmas::item_told, crate::proofs::CalledLemmas::cone_told))]
fn push_nets_line(
    text: &mut Vec<u8>,
    net: &Netlist,
    sources: &[usize],
    name: &[u8],
    nets: &[u32],
) -> Result<(), NoMemory>
    ensures { OnOk result (AddsNets net.now.raw sources.now name.now nets.now text.old.items text.new.items) }
{
    let raw = net.raw();
    if shows_some(raw, sources, nets) {
        push_item_line(text, raw, sources, nets)?;
        Ok(())
    } else {
        push_behind(text, net, name)?;
        Ok(())
    }
}

/// Appends the line of a name.
#[tactic(auto, using(crate::proofs::CalledLemmas::nets_told))]
fn push_name_line(
    text: &mut Vec<u8>,
    net: &Netlist,
    sources: &[usize],
    name: &[u8],
) -> Result<(), NoMemory>
    ensures { OnOk result (AddsName net.now.raw sources.now name.now text.old.items text.new.items) }
{
    let nets = nets_named(*text.allocator(), net.raw(), name)?;
    push_nets_line(text, net, sources, name, nets.as_slice())?;
    Ok(())
}

/// Appends the line of a name that is a text.
#[tactic(auto, using(crate::proofs::CalledLemmas::text_added))]
fn push_text_line(
    text: &mut Vec<u8>,
    net: &Netlist,
    sources: &[usize],
    name: &str,
) -> Result<(), NoMemory>
    ensures { OnOk result (AddsName net.now.raw sources.now name.now text.old.items text.new.items) }
{
    push_name_line(text, net, sources, name.as_bytes())?;
    Ok(())
}

/// Appends a line for each name.
#[tactic(auto, using(crate::proofs::CalledLemmas::names_none, crate::proofs::CalledLemmas::names_more, crate::proofs::CalledLemmas::names_all))]
fn push_name_lines(
    text: &mut Vec<u8>,
    net: &Netlist,
    sources: &[usize],
    names: &[&str],
) -> Result<(), NoMemory>
    ensures { OnOk result (AddsNames net.now.raw sources.now (map (λ s. s.now) names.now) text.old.items text.new.items) }
{
    'names: for &name in names {
        push_text_line(text, net, sources, name)?;
    }
    Ok(())
}

/// A line for each name, as an item of a signature: `xor`, and the keys of the flip-flops whose values nets with that name show
/// through `buf` and `assign` alone. Where none shows one, the line has `from` and the keys of the flip-flops and data inputs that
/// they are computed from. A name is a key, that of a vector, or either as RTL writes it.
#[tactic(auto, using(crate::proofs::CalledLemmas::keys_told))]
pub fn keys_text(alloc: Global, net: &Netlist, names: &[&str]) -> Result<Vec<u8>, NoMemory>
    ensures { IfOk result (λ text. TellsKeys net.now.raw (map (λ s. s.now) names.now) text.items) }
{
    let sources = marks(alloc, Measure::Source, net)?;
    let mut text = Vec::new(alloc);
    push_name_lines(&mut text, net, sources.as_slice(), names)?;
    Ok(text)
}

/// Whether no net has a name.
fn is_unnamed(alloc: Global, raw: &Raw, name: &str) -> Result<bool, NoMemory>
    ensures { IfOk result (λ unnamed. unnamed ≡ (length (nets_named (parts_of raw.now) name.now) == 0)) }
{
    let nets = nets_named(alloc, raw, name.as_bytes())?;
    Ok(nets.is_empty())
}

/// The first of these names that no net has.
#[tactic(auto, using(crate::proofs::CalledLemmas::unnamed_more, crate::proofs::CalledLemmas::unnamed_found, crate::proofs::CalledLemmas::unnamed_none))]
fn unnamed_among<'a>(
    alloc: Global,
    raw: &Raw,
    names: &[&'a str],
) -> Result<Option<&'a str>, NoMemory>
    ensures { IfOk result (λ name. option_map (λ s. s.now) name ≡ first_unnamed (parts_of raw.now) (map (λ s. s.now) names.now)) }
{
    'names: for &name in names {
        if is_unnamed(alloc, raw, name)? {
            return Ok(Some(name));
        }
    }
    Ok(None)
}

/// The first of these names that is neither the key of a net nor the name of a vector of nets, nor either as RTL writes it, if
/// there is one.
pub fn first_unnamed<'a>(
    alloc: Global,
    net: &Netlist,
    names: &[&'a str],
) -> Result<Option<&'a str>, NoMemory>
    ensures { IfOk result (λ name. option_map (λ s. s.now) name ≡ first_unnamed net.now.raw (map (λ s. s.now) names.now)) }
{
    let name = unnamed_among(alloc, net.raw(), names)?;
    Ok(name)
}
