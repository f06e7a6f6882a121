//! How many flip-flops of a dump are known, and what is said of it. Nothing here takes memory.
ghost use Rattle.std.specs.Prelude.{◌≡◌, ◌≤◌, ◌++◌, length};
ghost use Rattle.bs_scan.specs.Seen.{known_count};
ghost use Rattle.bs_note_files.specs.Notes.{plain_text};
ghost use Rattle.bs_call.specs.Endings.{earlier_sentence, known_one, known_sentence, partly_text};

use bs_note_calls::{Brief, brief_plain};
use bs_scan::{Dump, Seen};

/// How many bits are known at a place.
fn known_one(free: bool) -> usize
    ensures count { result ≡ known_one free }
    ensures small { result ≤ 1 }
{
    if free { 0 } else { 1 }
}

/// How many bits are known.
#[tactic(auto, using(crate::proofs::PartlyLemmas::known_none, crate::proofs::PartlyLemmas::known_more))]
fn known_count(seen: &Seen) -> usize
    ensures { result ≡ known_count seen.now }
{
    let mut count = 0;
    'places: for i in 0..seen.bits.len() {
        count += known_one(seen.is_free(i));
    }
    count
}

/// A sentence on how many bits are known.
fn known_sentence(seen: &Seen) -> Brief
    ensures text { result ≡ known_sentence seen.now }
    ensures short { length result ≤ 100 }
{
    let mut said = Brief::of(b"flip-flops whose bit the dump knows: ");
    said.push_number(known_count(seen) as u64);
    said.push(b" of ");
    said.push_number(seen.bits.len() as u64);
    said
}

/// A note, and what a hit says of the trace.
fn with_earlier(note: Brief) -> Brief
    requires { length note ≤ 107 }
    ensures text { result ≡ note ++ plain_text earlier_sentence }
    ensures short { length result ≤ 300 }
{
    let mut note = note;
    let more = brief_plain(
        b"the trace ends in a state with these bits: where these and the signature's are few, it may be one of an earlier moment than the crash",
    );
    note.push(more.bytes());
    note
}

/// The note on a dump of which some flip-flops are not known. `hit` is whether a candidate of the first step was hit.
pub fn partly_note(dump: &Dump, hit: bool) -> Brief
    ensures text { result ≡ partly_text dump.now hit }
    ensures short { length result ≤ 300 }
{
    let said = known_sentence(&dump.state);
    let note = brief_plain(said.bytes());
    if hit { with_earlier(note) } else { note }
}
