//! Whether the nets of a netlist have names, or the diagnostic of the first that none has.
ghost use Rattle.std.specs.Prelude.{◌≡◌, true, map, IfOk};
ghost use Rattle.bs_outside.specs.Plan.{exactly};
ghost use Rattle.bs_outside.specs.Diagnostic.{note_refusal, noted, word_refusal, worded};
ghost use Rattle.bs_outside.specs.Walks.{Reads};
ghost use Rattle.bs_top_files.specs.Causes.{CheckSays, HasNote, NoteSays};
ghost use Rattle.bs_top_files.specs.Refusals.{HasWords};
ghost use Rattle.bs_net.specs.Netlist.{parts_of};
ghost use Rattle.bs_inspect_notes.specs.Names.{net_text};
ghost use Rattle.bs_inspect_files.specs.Readings.{called_in};
ghost use Rattle.bs_inspect_files.specs.FlopWords.{unnamed_words};

use crate::flop_refusals::unnamed_refusal;
use bs_bits::NoMemory;
use bs_inspect_names::first_unnamed;
use bs_inspect_notes::net_note;
use bs_net::{NetId, Netlist, Raw};
use bs_outside::{Unread, both};
use std::alloc::Global;

/// The keys of the nets of a netlist's parts, as bytes.
#[tactic(auto, using(crate::proofs::CalledLemmas::key_more))]
fn key_bytes<'a>(alloc: Global, raw: &'a Raw) -> Result<Vec<&'a [u8]>, NoMemory>
    ensures { IfOk result (λ keys. map (λ s. s.now) keys.items ≡ (parts_of raw.now).names) }
{
    let mut keys = Vec::new(alloc);
    'nets: for n in 0..raw.names.len() {
        let key = raw.names.key(NetId(n));
        keys.push(key.as_bytes())?;
    }
    Ok(keys)
}

/// A note on a name that no net has.
fn unnamed_note(alloc: Global, net: &Netlist, name: &str) -> Result<Vec<u8>, NoMemory>
    ensures { IfOk result (λ note. note.items ≡ net_text name.now net.now.raw.names) }
{
    let keys = key_bytes(alloc, net.raw())?;
    let all = keys.as_slice();
    let bytes = name.as_bytes();
    let note = net_note(alloc, bytes, all)?;
    Ok(note)
}

/// The diagnostic of a name that no net has.
#[tactic(auto, using(bs_top_files::proofs::NotingLemmas::both_words, bs_top_files::proofs::NotingLemmas::both_these))]
fn unnamed_diagnostic(alloc: Global, net: &Netlist, name: &str) -> Unread
    ensures words { HasWords (unnamed_words name.now) (word_refusal result) }
    ensures note { HasNote (exactly (net_text name.now net.now.raw.names)) (note_refusal result) }
{
    let words = unnamed_refusal(alloc, name);
    let note = unnamed_note(alloc, net, name);
    both(words, note)
}

/// Whether nets of a netlist have these names, or the diagnostic of the first that none has.
#[tactic(auto, using(crate::proofs::CalledLemmas::called_words, crate::proofs::CalledLemmas::called_note))]
pub fn called_or_diagnostic(alloc: Global, net: &Netlist, names: &[&str]) -> Result<(), Unread>
    ensures words { Reads CheckSays (λ _. true) (called_in net.now.raw (map (λ s. s.now) names.now)) (worded result) }
    ensures note { Reads NoteSays (λ _. true) (called_in net.now.raw (map (λ s. s.now) names.now)) (noted result) }
{
    match first_unnamed(alloc, net, names) {
        Ok(None) => Ok(()),
        Ok(Some(name)) => Err(unnamed_diagnostic(alloc, net, name)),
        Err(_) => Err(Unread::NoMemory),
    }
}
