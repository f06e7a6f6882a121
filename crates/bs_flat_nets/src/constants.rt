//! The constants of a module.
ghost use Rattle.std.specs.Prelude.{◌≡◌, ◌<◌, ◌++◌, [], None, length, map, replicate, IfOk, OnOk, All, slice_index_or, string_bytes};
ghost use Rattle.std.specs.List.{flat_map, range_with_len};
ghost use Rattle.std.specs.Str.{bytes_eq};
ghost use Rattle.bs_flat_meaning.specs.Flat.{constant_bit};
ghost use Rattle.bs_verilog_scope.specs.Keys as keys;
ghost use Rattle.bs_flat_nets.specs.Blocks.{own_of};
ghost use Rattle.bs_flat_nets.specs.Constants as spec;

use crate::blocks::FlatModule;
use bs_bits::{List, NoMemory};
use bs_net::Const;
use bs_verilog_scope::constant_key;
use std::alloc::Global;

/// A net that is always 0, or always 1.
#[derive(Clone, Copy)]
pub struct Bit {
    pub net: usize,
    pub value: bool,
}

/// Whether a constant's net has the key of that constant.
fn is_named_so(names: &[String], constant: Const) -> bool
    requires { constant.net.0 < length names.now }
    ensures { result ≡ bytes_eq (slice_index_or (map string_bytes names.now) constant.net.0 []) (keys.constant_key constant.value) }
{
    names[constant.net.0 as usize].as_str() == constant_key(constant.value)
}

/// Bits of which none is known.
fn no_bits(alloc: Global, count: usize) -> Result<Vec<Option<bool>>, NoMemory>
    ensures { IfOk result (λ t. t.items ≡ replicate count None) }
{
    let table = vec![in alloc; None; count]?;
    Ok(table)
}

/// Sets the bit of a constant's net, where it is not known and the net is named so.
fn note(table: &mut Vec<Option<bool>>, constant: Const, named: bool)
    requires { constant.net.0 < length table.old.items }
    ensures { table.new.items ≡ spec.noted named constant table.old.items }
{
    if !named {
        return;
    }
    let kept = table[constant.net.0 as usize].unwrap_or(constant.value);
    table[constant.net.0 as usize] = Some(kept);
}

/// The bit of each net of a block that is a constant.
fn bit_table(alloc: Global, block: &FlatModule) -> Result<Vec<Option<bool>>, NoMemory>
    requires { All (λ k. k.net.0 < length block.now.names) block.now.consts }
    ensures { IfOk result (λ t. t.items ≡ map (constant_bit (own_of block.now)) (range_with_len 0 (length (own_of block.now).names))) }
{
    let names = block.names.slice();
    let consts = block.consts.slice();
    let mut table = no_bits(alloc, names.len())?;
    'consts: for constant in consts {
        let named = is_named_so(names, *constant);
        note(&mut table, *constant, named);
    }
    Ok(table)
}

/// Adds a net whose bit is known.
fn push_known(bits: &mut List<Bit>, net: usize, bit: Option<bool>) -> Result<(), NoMemory>
    ensures { OnOk result (bits.new ≡ bits.old ++ spec.entry net bit) }
{
    match bit {
        None => Ok(()),
        Some(value) => {
            bits.push(Bit { net, value })?;
            Ok(())
        }
    }
}

/// The nets whose bit is known, in order.
fn known_bits(alloc: Global, table: &[Option<bool>]) -> Result<List<Bit>, NoMemory>
    ensures { IfOk result (λ bits. bits ≡ flat_map (spec.entry_at table.now) (range_with_len 0 (length table.now))) }
{
    let mut bits = List::new(alloc);
    'nets: for net in 0..table.len() {
        push_known(&mut bits, net, table[net])?;
    }
    Ok(bits)
}

/// The constants of a block in the order of its nets.
pub fn block_bits(alloc: Global, block: &FlatModule) -> Result<List<Bit>, NoMemory>
    requires { All (λ k. k.net.0 < length block.now.names) block.now.consts }
    ensures { IfOk result (λ bits. bits ≡ spec.known_constants (own_of block.now)) }
{
    let table = bit_table(alloc, block)?;
    let bits = known_bits(alloc, table.as_slice())?;
    Ok(bits)
}

/// The constants of all blocks.
pub fn all_bits(alloc: Global, blocks: &[FlatModule]) -> Result<List<List<Bit>>, NoMemory>
    requires { All (λ b. All (λ k. k.net.0 < length b.names) b.consts) blocks.now }
    ensures { IfOk result (λ all. all ≡ map (λ b. spec.known_constants (own_of b)) blocks.now) }
{
    let mut all = List::new(alloc);
    'each: for block in blocks {
        let bits = block_bits(alloc, block)?;
        all.push(bits)?;
    }
    Ok(all)
}
