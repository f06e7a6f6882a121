//! A netlist, or the diagnostic of its text.
ghost use Rattle.std.specs.Prelude.{◌≡◌, ◌≤◌, length, IfOk};
ghost use Rattle.bs_net.specs.Check.{IsFault};
ghost use Rattle.bs_net.specs.Netlist.{parts_of};
ghost use Rattle.bs_flat_meaning.specs.declared.fault.FlatFault.TheVariants.{NoMemory as TextWant};
ghost use Rattle.bs_outside.specs.declared.limits.TheConstants.{MAX_NETLIST_BYTES};
ghost use Rattle.bs_outside.specs.declared.file_fetch.Refusal.TheVariants.{NoMemory as Want};
ghost use Rattle.bs_outside.specs.Plan.{Says};
ghost use Rattle.bs_outside.specs.Walks.{Reads};
ghost use Rattle.bs_outside.specs.Diagnostic.{note_refusal, noted, word_refusal, worded};
ghost use Rattle.bs_top_files.specs.Causes.{CheckSays, HasNote, NoteSays, check_reason, text_reason};
ghost use Rattle.bs_top_files.specs.Readings.{checked_in, netlist_in};
ghost use Rattle.bs_top_files.specs.Refusals.{HasCheckWords, HasWords, flat_words, with_one};

use crate::refusals::{check_refusal, flat_refusal};
use bs_bits::NoMemory;
use bs_flat_meaning::FlatFault;
use bs_net::{NetFault, Netlist, Raw, Refused};
use bs_note_files::{check_note, design_note, mistaken, mistaken_note};
use bs_outside::{File, Unread, both};
use std::alloc::Global;

/// The note on a text that is no netlist.
#[tactic(auto, using(crate::proofs::NotingLemmas::says_mistaken, crate::proofs::NotingLemmas::says_case))]
fn note_of(alloc: Global, path: &str, text: &[u8], fault: &FlatFault) -> Result<Vec<u8>, NoMemory>
    ensures { IfOk result (λ note. Says NoteSays (text_reason path.now text.now (with_one fault.now)) note.items) }
{
    match mistaken(File::Netlist, text) {
        Some(kind) => mistaken_note(alloc, File::Netlist, kind, path),
        None => design_note(alloc, path, text, fault),
    }
}

/// The diagnostic of a text that is no netlist.
#[tactic(auto, using(crate::proofs::NotingLemmas::both_words, crate::proofs::NotingLemmas::both_note, crate::proofs::NotingLemmas::both_want))]
fn text_diagnostic(alloc: Global, path: &str, text: &[u8], fault: &FlatFault) -> Unread
    ensures words { HasWords (flat_words fault.now) (word_refusal result) }
    ensures want { fault.now ≡ TextWant → word_refusal result ≡ Want }
    ensures note { HasNote (text_reason path.now text.now (with_one fault.now)) (note_refusal result) }
    ensures none { fault.now ≡ TextWant → note_refusal result ≡ Want }
{
    let words = flat_refusal(alloc, fault);
    let note = note_of(alloc, path, text, fault);
    both(words, note)
}

/// The diagnostic of a netlist that the check refuses.
#[tactic(auto, using(crate::proofs::NotingLemmas::check_words, crate::proofs::NotingLemmas::check_diagnostic))]
fn fault_diagnostic(alloc: Global, path: &str, text: &[u8], raw: &Raw, fault: &NetFault) -> Unread
    requires is { IsFault (parts_of raw.now) fault.now }
    ensures words { HasCheckWords (parts_of raw.now) (word_refusal result) }
    ensures note { HasNote (check_reason path.now text.now (parts_of raw.now)) (note_refusal result) }
{
    if let NetFault::NoMemory = fault {
        return Unread::NoMemory;
    }
    let words = check_refusal(alloc, raw, fault);
    let note = check_note(alloc, path, text, raw, fault);
    both(words, note)
}

/// The same of what the check gives back, which nobody needs behind it.
fn refused_diagnostic(alloc: Global, path: &str, text: &[u8], refused: Refused) -> Unread
    requires is { IsFault (parts_of refused.raw) refused.fault }
    ensures words { HasCheckWords (parts_of refused.raw) (word_refusal result) }
    ensures note { HasNote (check_reason path.now text.now (parts_of refused.raw)) (note_refusal result) }
{
    let diagnostic = fault_diagnostic(alloc, path, text, &refused.raw, &refused.fault);
    diagnostic
}

/// The netlist of parts that pass the check, or the diagnostic of them.
fn check_or_diagnostic(alloc: Global, path: &str, text: &[u8], raw: Raw) -> Result<Netlist, Unread>
    ensures words { Reads CheckSays (λ net. net.raw) (checked_in path.now text.now (parts_of raw)) (worded result) }
    ensures note { Reads NoteSays (λ net. net.raw) (checked_in path.now text.now (parts_of raw)) (noted result) }
{
    match Netlist::check(alloc, raw) {
        Ok(net) => Ok(net),
        Err(refused) => Err(refused_diagnostic(alloc, path, text, refused)),
    }
}

/// A netlist that passes the check, or the diagnostic of its text.
pub fn netlist_or_diagnostic(alloc: Global, path: &str, text: &[u8]) -> Result<Netlist, Unread>
    requires { length text.now ≤ MAX_NETLIST_BYTES }
    ensures words { Reads CheckSays (λ net. net.raw) (netlist_in path.now text.now) (worded result) }
    ensures note { Reads NoteSays (λ net. net.raw) (netlist_in path.now text.now) (noted result) }
{
    match crate::reader::read(alloc, text) {
        Ok(raw) => check_or_diagnostic(alloc, path, text, raw),
        Err(fault) => Err(text_diagnostic(alloc, path, text, &fault)),
    }
}
