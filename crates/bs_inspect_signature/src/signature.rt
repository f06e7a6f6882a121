//! The proposal of a signature, what lists of predecessors it leads to, and how many items are enough.
ghost use Rattle.std.specs.Prelude.{◌≡◌, ◌<◌, ◌++◌, length, codes, IfOk, OnOk};
ghost use Rattle.bs_bits.specs.Lines.{line};
ghost use Rattle.bs_net.specs.Netlist.{circuit};
ghost use Rattle.bs_inspect_signature.specs.Signature.{AppendsEnough, AppendsLists, TellsSignature, proposal_text};

use crate::enough::enough;
use crate::item_lines::mixed_lines;
use crate::lines::{push_enough, push_text};
use crate::reading::lists_by;
use bs_bits::{NoMemory, push_line, push_piece};
use bs_net::Netlist;
use bs_stim::Runs;
use std::alloc::Global;

/// A text of lines with a line in front.
fn with_head(alloc: Global, lines: &[u8]) -> Result<Vec<u8>, NoMemory>
    ensures { IfOk result (λ text. text.items ≡ line (codes "choice mixed") ++ lines.now) }
{
    let mut text = Vec::new(alloc);
    push_line(&mut text, b"choice mixed")?;
    push_piece(&mut text, lines)?;
    Ok(text)
}

/// A proposal of so many items.
fn proposal_text(alloc: Global, net: &Netlist, bits: usize) -> Result<Vec<u8>, NoMemory>
    requires { 0 < bits }
    ensures { IfOk result (λ text. text.items ≡ proposal_text net.now.raw bits) }
{
    let lines = mixed_lines(alloc, net, bits)?;
    let text = with_head(alloc, lines.as_slice())?;
    Ok(text)
}

/// Appends the lists by a proposal of so many items.
#[tactic(auto, using(crate::proofs::SignatureLemmas::by_few, crate::proofs::SignatureLemmas::appended_lists))]
fn push_lists(text: &mut Vec<u8>, net: &Netlist, runs: &Runs, bits: usize) -> Result<(), NoMemory>
    requires inputs { runs.now.width ≡ length (circuit net.now).inputs }
    requires some { 0 < bits }
    ensures { OnOk result (AppendsLists net.now.raw runs.now bits text.old.items text.new.items) }
{
    let lists = lists_by(*text.allocator(), net, runs, bits)?;
    push_text(text, bits.min(net.width()), lists.as_slice())?;
    Ok(())
}

/// Appends how many items are enough.
#[tactic(auto, using(crate::proofs::SignatureLemmas::appended_enough))]
fn push_enough_by(text: &mut Vec<u8>, net: &Netlist, runs: &Runs) -> Result<(), NoMemory>
    requires inputs { runs.now.width ≡ length (circuit net.now).inputs }
    ensures { OnOk result (AppendsEnough net.now.raw runs.now text.old.items text.new.items) }
{
    let found = enough(*text.allocator(), net, runs)?;
    push_enough(text, found)?;
    Ok(())
}

/// A proposal of a signature with so many items, the numbers of predecessors that it leads to at moments of the runs, and the least
/// number of items with which nearly all states at such moments have one predecessor.
#[tactic(auto, using(crate::proofs::SignatureLemmas::tells))]
pub fn signature_text(
    alloc: Global,
    net: &Netlist,
    runs: &Runs,
    bits: usize,
) -> Result<Vec<u8>, NoMemory>
    requires width { runs.now.width ≡ length (circuit net.now).inputs }
    requires some { 0 < bits }
    ensures { IfOk result (λ text. TellsSignature net.now.raw runs.now bits text.items) }
{
    let mut text = proposal_text(alloc, net, bits)?;
    push_lists(&mut text, net, runs, bits)?;
    push_enough_by(&mut text, net, runs)?;
    Ok(text)
}
