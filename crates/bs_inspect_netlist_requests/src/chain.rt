//! The answer to `unscan`: a state, and what is said of the flip-flops that the order of the scan chain has no line for.
ghost use Rattle.std.specs.Prelude.{◌≡◌, ◌<◌, ◌++◌, [], length, map, slice_index_or, IfOk, OnOk};
ghost use Rattle.bs_call.specs.Note.{Due, DueText};
ghost use Rattle.bs_inspect_netlist.specs.Order.{is_listed, is_unlisted};
ghost use Rattle.bs_inspect_notes.specs.Names.{unlisted_text};
ghost use Rattle.bs_inspect_notes.specs.Nearest.{kept};
ghost use Rattle.bs_inspect_files.specs.FlopFiles.{scanned_in};
ghost use Rattle.bs_inspect_plans.specs.Finishes.{finishes};
ghost use Rattle.bs_inspect_plans.specs.Said.{count_doubt, keys_unlisted, order_doubt, unlisted_keys};
ghost use Rattle.bs_inspect_plans.specs.Work.{to_state};

use crate::telling::tell_state;
use bs_call::{Note, Response, note_made};
use bs_inspect_files::Scanned;
use bs_inspect_netlist::unlisted_count;
use bs_inspect_notes::unlisted_note;
use bs_inspect_values::flop_bytes;
use bs_net::Netlist;
use bs_outside::NoMemory;
use std::alloc::Global;

/// Whether an order has a line for a flip-flop.
fn is_listed(order: &[usize], flop: usize) -> bool
    ensures { result ≡ is_listed order.now flop }
{
    order.iter().any(|other| *other == flop)
}

/// Whether an order has no line for a flip-flop.
fn is_unlisted(order: &[usize], flop: usize) -> bool
    ensures { result ≡ is_unlisted order.now flop }
{
    !is_listed(order, flop)
}

/// Puts a key at the end, where it is one of those that are told.
fn add_if<'a>(keys: &mut Vec<&'a [u8]>, key: &'a [u8], is: bool) -> Result<(), NoMemory>
    ensures { OnOk result (map (λ k. k.now) keys.new.items ≡ map (λ k. k.now) keys.old.items ++ kept is key.now) }
{
    if is {
        keys.push(key)?;
    }
    Ok(())
}

/// The key of a flip-flop.
#[tactic(auto, using(crate::proofs::ChainLemmas::key_is))]
fn key_of<'a>(all: &[&'a [u8]], flop: usize) -> &'a [u8]
    requires { flop < length all.now }
    ensures { result.now ≡ slice_index_or (map (λ k. k.now) all.now) flop [] }
{
    all[flop]
}

/// The keys of flip-flops, which have these, that an order has no line for.
#[tactic(auto, using(crate::proofs::ChainLemmas::unlisted_all))]
fn keys_unlisted<'a>(
    alloc: Global,
    all: &[&'a [u8]],
    order: &[usize],
) -> Result<Vec<&'a [u8]>, NoMemory>
    ensures { IfOk result (λ keys. map (λ k. k.now) keys.items ≡ keys_unlisted (map (λ k. k.now) all.now) order.now) }
{
    let mut keys = Vec::new(alloc);
    'flops: for flop in 0..all.len() {
        let key = key_of(all, flop);
        add_if(&mut keys, key, is_unlisted(order, flop))?;
    }
    Ok(keys)
}

/// The keys of a netlist's flip-flops that an order has no line for.
fn unlisted_keys<'a>(
    alloc: Global,
    net: &'a Netlist,
    order: &[usize],
) -> Result<Vec<&'a [u8]>, NoMemory>
    ensures { IfOk result (λ keys. map (λ k. k.now) keys.items ≡ unlisted_keys net.now.raw order.now) }
{
    let all = flop_bytes(alloc, net)?;
    let keys = keys_unlisted(alloc, all.as_slice(), order)?;
    Ok(keys)
}

/// A note on the flip-flops that an order has no line for, so many of them.
fn order_note(
    alloc: Global,
    net: &Netlist,
    order: &[usize],
    count: usize,
) -> Result<Vec<u8>, NoMemory>
    ensures { IfOk result (λ note. note.items ≡ unlisted_text count (length net.now.raw.flops) (unlisted_keys net.now.raw order.now)) }
{
    let keys = unlisted_keys(alloc, net, order)?;
    let note = unlisted_note(alloc, count, net.width(), keys.as_slice())?;
    Ok(note)
}

/// The same, which is due.
fn unlisted_said(alloc: Global, net: &Netlist, order: &[usize], count: usize) -> Note
    ensures { Due (λ said. said ≡ unlisted_text count (length net.now.raw.flops) (unlisted_keys net.now.raw order.now)) result }
{
    note_made(order_note(alloc, net, order, count))
}

/// The note on the flip-flops that an order has no line for, where there are some: so many.
#[tactic(auto, using(crate::proofs::ChainLemmas::none_due, crate::proofs::ChainLemmas::some_due))]
fn count_said(alloc: Global, net: &Netlist, order: &[usize], count: usize) -> Note
    ensures { DueText (count_doubt count net.now.raw order.now) result }
{
    if count == 0 {
        Note::Silent
    } else {
        unlisted_said(alloc, net, order, count)
    }
}

/// The note on the flip-flops that the order of a scan chain has no line for, where there are some.
fn order_said(alloc: Global, scanned: &Scanned) -> Note
    ensures { DueText (order_doubt (scanned_in scanned.now)) result }
{
    let order = scanned.order.as_slice();
    let count = unlisted_count(scanned.net.width(), order);
    count_said(alloc, &scanned.net, order, count)
}

/// The state that a pattern of a scan chain is, and what is said of the flip-flops that its order has no line for.
pub fn state_answer(alloc: Global, scanned: &Scanned) -> Result<Response, NoMemory>
    ensures reply { IfOk result (λ answer. finishes (to_state (scanned_in scanned.now)) answer.reply.status answer.reply.text.items) }
    ensures note { IfOk result (λ answer. DueText (order_doubt (scanned_in scanned.now)) answer.note) }
{
    let reply = tell_state(alloc, scanned)?;
    let note = order_said(alloc, scanned);
    Ok(Response { reply, note })
}
