//! The lines of a proposal.
ghost use Rattle.std.specs.Prelude.{◌≡◌, ◌<◌, ◌^◌, ◌++◌, length, map, slice_index_or, [], All, IfOk, OnOk};
ghost use Rattle.std.specs.List.{flat_map};
ghost use Rattle.bs_inspect_signature.specs.Items.{AreWithin};
ghost use Rattle.bs_inspect_signature.specs.Proposal.{flop_keys, mixed_lines, name_words, xor_line};

use crate::keys::flop_keys;
use crate::parity_items::mixed_items;
use bs_bits::{List, NoMemory, end_line, push_piece};
use bs_net::Netlist;
use std::alloc::Global;

/// The key of a flip-flop.
#[tactic(auto, using(crate::proofs::KeyLemmas::key_is))]
fn key_text<'a>(keys: &[&'a str], flop: u32) -> &'a [u8]
    requires { flop < length keys.now }
    ensures { result.now ≡ slice_index_or (map (λ s. s.now) keys.now) flop [] }
{
    keys[flop as usize].as_bytes()
}

/// Appends a name behind a space.
fn push_name(text: &mut Vec<u8>, keys: &[&str], flop: u32) -> Result<(), NoMemory>
    requires { flop < length keys.now }
    ensures { OnOk result (text.new.items ≡ text.old.items ++ name_words (map (λ s. s.now) keys.now) flop) }
{
    push_piece(text, b" ")?;
    push_piece(text, key_text(keys, flop))
}

/// Appends the names of an item, each behind a space.
#[tactic(auto, using(crate::proofs::ItemLineLemmas::piece_more))]
fn push_names(text: &mut Vec<u8>, keys: &[&str], item: &[u32]) -> Result<(), NoMemory>
    requires { All (λ flop. flop < length keys.now) item.now }
    ensures { OnOk result (text.new.items ≡ text.old.items ++ flat_map (name_words (map (λ s. s.now) keys.now)) item.now) }
{
    'flops: for i in 0..item.len() {
        push_name(text, keys, item[i])?;
    }
    Ok(())
}

/// Appends the item of several flip-flops.
fn push_xor(text: &mut Vec<u8>, keys: &[&str], item: &[u32]) -> Result<(), NoMemory>
    requires { All (λ flop. flop < length keys.now) item.now }
    ensures { OnOk result (text.new.items ≡ text.old.items ++ xor_line (map (λ s. s.now) keys.now) item.now) }
{
    push_piece(text, b"xor")?;
    push_names(text, keys, item)?;
    end_line(text)
}

/// Appends the items of several flip-flops each.
#[tactic(auto, using(crate::proofs::ItemLineLemmas::xor_more, crate::proofs::MixedLemmas::item_under))]
pub(crate) fn push_xors(
    text: &mut Vec<u8>,
    keys: &[&str],
    items: &[List<u32>],
) -> Result<(), NoMemory>
    requires { AreWithin (length keys.now) items.now }
    ensures { OnOk result (text.new.items ≡ text.old.items ++ flat_map (xor_line (map (λ s. s.now) keys.now)) items.now) }
{
    'items: for i in 0..items.len() {
        push_xor(text, keys, items[i].slice())?;
    }
    Ok(())
}

/// The lines of these items, by these keys.
fn lines_by(alloc: Global, keys: &[&str], items: &[List<u32>]) -> Result<Vec<u8>, NoMemory>
    requires { AreWithin (length keys.now) items.now }
    ensures { IfOk result (λ text. text.items ≡ flat_map (xor_line (map (λ s. s.now) keys.now)) items.now) }
{
    let mut text = Vec::new(alloc);
    push_xors(&mut text, keys, items)?;
    Ok(text)
}

/// A proposal of so many items, by these keys.
#[tactic(auto, using(crate::proofs::MixedLemmas::mixed_within, crate::proofs::ItemLineLemmas::mixed_as))]
fn mixed_by(alloc: Global, keys: &[&str], count: usize) -> Result<Vec<u8>, NoMemory>
    requires some { 0 < count }
    requires narrow { length keys.now < 2 ^ 20 }
    ensures { IfOk result (λ text. text.items ≡ mixed_lines (map (λ s. s.now) keys.now) count) }
{
    let items = mixed_items(alloc, keys.len(), count)?;
    let text = lines_by(alloc, keys, items.slice())?;
    Ok(text)
}

/// A proposal of so many items as the lines of a signature file: each flip-flop stands in some of them, which it draws from a deck.
#[tactic(auto, using(crate::proofs::ItemLineLemmas::lines_as))]
pub fn mixed_lines(alloc: Global, net: &Netlist, count: usize) -> Result<Vec<u8>, NoMemory>
    requires { 0 < count }
    ensures { IfOk result (λ text. text.items ≡ mixed_lines (flop_keys net.now.raw) count) }
{
    let keys = flop_keys(alloc, net)?;
    let text = mixed_by(alloc, keys.as_slice(), count)?;
    Ok(text)
}
