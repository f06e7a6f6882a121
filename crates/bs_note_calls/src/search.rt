//! Notes on searches for a state.
ghost use Rattle.std.specs.Prelude.{◌≡◌, IfOk};
ghost use Rattle.bs_note_calls.specs.Searches.{miss_text, room_sentence, room_text, state_sentence, state_text};

use crate::brief::{Brief, brief_pair};
use crate::miss::Miss;
use bs_bits::{NoMemory, push_number, push_piece};
use bs_net_names::push_quoted;
use bs_note_files::{pair_note, width_sentence};
use std::alloc::Global;

/// A note on a search that has no execution.
pub fn miss_note(miss: Miss) -> Brief
    ensures { result ≡ miss_text miss }
{
    match miss {
        Miss::Unreached => brief_pair(
            b"no execution of so many cycles from reset, or of fewer, ends in a state with these bits, whatever the inputs",
            b"ask for more cycles, up to 1024; the state's bits are in the order of the netlist's flip-flops, the first on the left",
        ),
        Miss::Unknown => brief_pair(
            b"the budget of conflicts is spent on this number of cycles, and each smaller one is refuted",
            b"ask for more with --conflicts B, up to 2^40",
        ),
    }
}

/// What is said of a word that is no state of a netlist.
fn state_sentence(alloc: Global, word: &str, flops: usize) -> Result<Vec<u8>, NoMemory>
    ensures { IfOk result (λ said. said.items ≡ state_sentence word.now flops) }
{
    let width = width_sentence(alloc, word.len(), flops, b"flip-flop of the netlist")?;
    let mut said = b"the state `".to_vec(alloc)?;
    push_quoted(&mut said, word.as_bytes())?;
    push_piece(&mut said, b"`: ")?;
    push_piece(&mut said, &width)?;
    Ok(said)
}

/// A note on a word of characters 0, 1 and - that is no state of a netlist with so many flip-flops.
pub fn state_note(alloc: Global, word: &str, flops: usize) -> Result<Vec<u8>, NoMemory>
    ensures { IfOk result (λ note. note.items ≡ state_text word.now flops) }
{
    let said = state_sentence(alloc, word, flops)?;
    pair_note(
        alloc,
        &said,
        b"the bits stand in the order of the netlist's flip-flops, the first on the left",
    )
}

/// What is said of a search that is too large.
fn room_sentence(alloc: Global, variables: u64) -> Result<Vec<u8>, NoMemory>
    ensures { IfOk result (λ said. said.items ≡ room_sentence variables) }
{
    let mut said =
        b"the search is too large: this netlist takes so many variables for each cycle: ".to_vec(
            alloc,
        )?;
    push_number(&mut said, variables)?;
    Ok(said)
}

/// A note on a search whose netlist takes so many variables for each cycle.
pub fn room_note(alloc: Global, variables: u64) -> Result<Vec<u8>, NoMemory>
    ensures { IfOk result (λ note. note.items ≡ room_text variables) }
{
    let said = room_sentence(alloc, variables)?;
    pair_note(
        alloc,
        &said,
        b"ask for fewer cycles: there may be 4194304 variables in all",
    )
}
