//! The order of a scan chain, or the diagnostic of its text.
ghost use Rattle.std.specs.Prelude.{◌≡◌, IfOk};
ghost use Rattle.bs_note_files.specs.Notes.{said};
ghost use Rattle.bs_outside.specs.declared.file_fetch.Refusal.TheVariants.{NoMemory as Want};
ghost use Rattle.bs_outside.specs.Plan.{Says};
ghost use Rattle.bs_outside.specs.Diagnostic.{note_refusal, noted, word_refusal, worded};
ghost use Rattle.bs_outside.specs.Walks.{Reads};
ghost use Rattle.bs_top_files.specs.Causes.{CheckSays, HasNote, IsNoteAtLine, NoteSays};
ghost use Rattle.bs_top_files.specs.Refusals.{HasWords};
ghost use Rattle.bs_inspect_netlist.specs.declared.fault.OrderFault.TheVariants.{NoMemory as OrderWant};
ghost use Rattle.bs_inspect_files.specs.Readings.{form_saying, order_read, order_reason, twice_saying};
ghost use Rattle.bs_inspect_notes.specs.declared.name.Subject.TheVariants.{Flops};
ghost use Rattle.bs_inspect_notes.specs.Names.{key_saying, numbered};
ghost use Rattle.bs_inspect_report.specs.Keys.{flop_keys};
ghost use Rattle.bs_inspect_files.specs.FlopWords.{order_words};

use crate::flop_refusals::order_refusal;
use bs_bits::NoMemory;
use bs_inspect_netlist::{OrderFault, read_order};
use bs_inspect_notes::Subject;
use bs_inspect_values::{flop_bytes, key_note};
use bs_net::Netlist;
use bs_note_files::Message;
use bs_outside::{Unread, both};
use bs_reach_answer::line_note;
use std::alloc::Global;

/// What is said of a line that is no name.
fn form_saying() -> Message<'static>
    ensures { said result ≡ form_saying }
{
    Message {
        sentence: b"a line is one name, of visible characters alone",
        label: b"the key of a flip-flop, or its name as RTL writes it",
    }
}

/// What is said of a flip-flop that has a line already.
fn twice_saying() -> Message<'static>
    ensures { said result ≡ twice_saying }
{
    Message {
        sentence: b"the flip-flop of this line has a line already",
        label: b"take one of them out",
    }
}

/// A note on a line that is no name.
fn form_note(alloc: Global, path: &str, text: &[u8], number: u64) -> Result<Vec<u8>, NoMemory>
    ensures { IfOk result (λ note. IsNoteAtLine path.now text.now number form_saying note.items) }
{
    let message = form_saying();
    let note = line_note(alloc, path, text, number, message)?;
    Ok(note)
}

/// A note on a line whose name is that of no flip-flop.
fn unknown_note(
    alloc: Global,
    net: &Netlist,
    path: &str,
    text: &[u8],
    number: u64,
) -> Result<Vec<u8>, NoMemory>
    ensures { IfOk result (λ note. IsNoteAtLine path.now text.now number (key_saying Flops (flop_keys net.now.raw) (numbered text.now number)) note.items) }
{
    let keys = flop_bytes(alloc, net)?;
    let all = keys.as_slice();
    let note = key_note(alloc, Subject::Flops, path, text, number, all)?;
    Ok(note)
}

/// A note on a line whose flip-flop has a line already.
fn twice_note(alloc: Global, path: &str, text: &[u8], number: u64) -> Result<Vec<u8>, NoMemory>
    ensures { IfOk result (λ note. IsNoteAtLine path.now text.now number twice_saying note.items) }
{
    let message = twice_saying();
    let note = line_note(alloc, path, text, number, message)?;
    Ok(note)
}

/// The note on a text that is no order.
fn order_note(
    alloc: Global,
    net: &Netlist,
    path: &str,
    text: &[u8],
    fault: OrderFault,
) -> Result<Vec<u8>, NoMemory>
    ensures { IfOk result (λ note. Says NoteSays (order_reason net.now.raw path.now text.now fault) note.items) }
{
    match fault {
        OrderFault::Line(number) => form_note(alloc, path, text, number),
        OrderFault::Unknown(number) => unknown_note(alloc, net, path, text, number),
        OrderFault::Twice(number) => twice_note(alloc, path, text, number),
        OrderFault::NoMemory => Err(NoMemory),
    }
}

/// The diagnostic of a text that is no order.
#[tactic(auto, using(bs_top_files::proofs::NotingLemmas::both_words, bs_top_files::proofs::NotingLemmas::both_note, bs_top_files::proofs::NotingLemmas::both_want))]
fn order_diagnostic(
    alloc: Global,
    net: &Netlist,
    path: &str,
    text: &[u8],
    fault: OrderFault,
) -> Unread
    ensures words { HasWords (order_words fault) (word_refusal result) }
    ensures want { fault ≡ OrderWant → word_refusal result ≡ Want }
    ensures note { HasNote (order_reason net.now.raw path.now text.now fault) (note_refusal result) }
    ensures none { fault ≡ OrderWant → note_refusal result ≡ Want }
{
    let words = order_refusal(alloc, fault);
    let note = order_note(alloc, net, path, text, fault);
    both(words, note)
}

/// The flip-flops of a scan chain in its order, or the diagnostic of their text.
pub fn order_or_diagnostic(
    alloc: Global,
    path: &str,
    text: &[u8],
    net: &Netlist,
) -> Result<Vec<usize>, Unread>
    ensures words { Reads CheckSays (λ order. order.items) (order_read path.now net.now.raw text.now) (worded result) }
    ensures note { Reads NoteSays (λ order. order.items) (order_read path.now net.now.raw text.now) (noted result) }
{
    match read_order(alloc, net, text) {
        Ok(order) => Ok(order),
        Err(fault) => Err(order_diagnostic(alloc, net, path, text, fault)),
    }
}
