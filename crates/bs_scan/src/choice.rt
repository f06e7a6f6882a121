//! What a signature is taken of.
ghost use Rattle.std.specs.Prelude.{◌≡◌, ◌<◌, ◌≤◌, length, Some, slice_get, All, IfOk};
ghost use Rattle.bs_bits.specs.Lines.{lines_of};
ghost use Rattle.bs_scan.specs.Choice.{depth_of, with_depth, IsChoice, IsDepth};
ghost use Rattle.bs_bits.specs.Reading.{Answers};
ghost use Rattle.bs_scan.specs.ChoiceText.{choice_from, choice_of};
ghost use Rattle.bs_scan.specs.Reading.{bytes_in};
ghost use Rattle.bs_scan.specs.Signature.{parity_of, signature};

use crate::choice_text::{read_items, rest_behind_two};
use crate::fault::ChoiceFault;
use crate::flops::FlopNames;
use bs_bits::{Bits, List, NoMemory};
use bs_net::Netlist;
use std::alloc::Global;
use std::marker::Model;

/// The greatest number of items.
/// A limit of the format (docs/FORMATS.md, "Signature").
pub const MAX_ITEMS: u32 = 256;

/// The greatest number of flip-flop numbers in all items.
/// A signature file cannot name more, since each name takes a byte.
pub const MAX_ITEM_FLOPS: u32 = 1_048_576;

/// The greatest number of bytes of a signature file.
/// A limit of the format (docs/FORMATS.md, "Statuses").
pub const MAX_SIGNATURE_BYTES: u32 = 1_048_576;

/// What a signature is taken of: items, each a list of flip-flop numbers. The depth is the number of states whose
/// signatures the register keeps.
#[derive(Drop)]
pub struct Choice {
    width: usize,
    depth: u8,
    items: List<List<u32>>,
}

impl Model for Choice {
    ghost use Rattle.bs_scan.specs.Choice.{Chosen, IsChoice};

    ghost Value = { Chosen };

    ghost view = { λ choice. record { width = choice.width; depth = choice.depth; items = choice.items } };

    ghost invariant = { λ choice. IsChoice (record { width = choice.width; depth = choice.depth; items = choice.items }) };
}

/// The parity of an item's flip-flops in a state. A flip-flop that is named twice counts twice.
pub(crate) fn parity(item: &[u32], state: &Bits) -> bool
    requires { All (λ flop. flop < length state.now) item.now }
    ensures { result ≡ parity_of state.now item.now }
{
    let ones = item.iter().filter(|flop| state.get(**flop as usize));
    ones.count() % 2 == 1
}

/// The items of a text, whose first line has this number, in a file of this depth.
fn read_from(
    alloc: Global,
    bytes: &[u8],
    first: u32,
    depth: u8,
    net: &Netlist,
) -> Result<Choice, ChoiceFault>
    requires bytes { bytes_in (lines_of bytes.now) ≤ MAX_SIGNATURE_BYTES }
    requires first { first ≤ 2 }
    requires depth { IsDepth depth }
    ensures { Answers ChoiceFault.NoMemory (λ choice. choice) result (choice_from net.now.raw first depth (lines_of bytes.now)) }
{
    let flops = FlopNames::new(alloc, net)?;
    let items = read_items(alloc, bytes, first, &flops)?;
    Ok(Choice {
        width: net.width(),
        depth,
        items,
    })
}

impl Choice {
    /// The items that a signature file names, by the keys of the flip-flops' output nets
    /// (docs/FORMATS.md, "Signature").
    pub fn read(alloc: Global, bytes: &[u8], net: &Netlist) -> Result<Choice, ChoiceFault>
        requires { length bytes.now ≤ MAX_SIGNATURE_BYTES }
        ensures { Answers ChoiceFault.NoMemory (λ choice. choice) result (choice_of net.now.raw (lines_of bytes.now)) }
    {
        match rest_behind_two(bytes) {
            Some(rest) => read_from(alloc, rest, 2, 2, net),
            None => read_from(alloc, bytes, 1, 1, net),
        }
    }

    /// The same items with another depth.
    pub fn with_depth(self, depth: u8) -> Choice
        requires { IsDepth depth }
        ensures { result ≡ with_depth self depth }
    {
        Choice {
            width: self.width,
            depth,
            items: self.items,
        }
    }

    /// The number of states whose signatures the register keeps: the last one, or the last two.
    pub fn depth(&self) -> u8
        ensures depth { result ≡ depth_of self.now }
        ensures sound { IsChoice self.now }
    {
        self.depth
    }

    /// The number of flip-flops of the netlist.
    pub fn width(&self) -> usize
        ensures { result ≡ self.now.width }
    {
        self.width
    }

    /// The number of items.
    pub fn items(&self) -> usize
        ensures count { result ≡ length self.now.items }
        ensures sound { IsChoice self.now }
    {
        self.items.len()
    }

    /// The flip-flop numbers of an item. Items and flip-flops are numbered from 0.
    pub fn item(&self, i: usize) -> &List<u32>
        requires { i < length self.now.items }
        ensures lookup { slice_get self.now.items i ≡ Some result.now }
        ensures range { All (λ flop. flop < self.now.width) result.now }
    {
        self.items.get(i)
    }

    /// The signature of a state: a bit for each item.
    pub fn of(&self, alloc: Global, state: &Bits) -> Result<Bits, NoMemory>
        requires { length state.now ≡ self.now.width }
        ensures { IfOk result (λ bits. bits ≡ signature self.now state.now) }
    {
        let mut bits = Bits::new(alloc);
        'items: for i in 0..self.items() {
            bits.push(parity(self.item(i).slice(), state))?;
        }
        Ok(bits)
    }
}
