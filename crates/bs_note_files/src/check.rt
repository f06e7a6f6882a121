//! Notes on a netlist that its check refuses.
ghost use Rattle.std.specs.Prelude.{◌≡◌, ◌++◌, codes, decimal, take, IfOk, OnOk};
ghost use Rattle.bs_net.specs.Netlist.{parts_of};
ghost use Rattle.bs_net_names.specs.Nearest.{net_key};
ghost use Rattle.bs_net_names.specs.Quotes.{shown_line};
ghost use Rattle.bs_note_files.specs.Checks.{base_of, count_sentence, first_key, IsCheckNote, IsKeyNote, IsNetNote, IsRingNote};
ghost use Rattle.bs_note_files.specs.Checks.{keyed_text, output_of, ring_piece, ring_text};
ghost use Rattle.bs_note_files.specs.Notes.{file_text};

use crate::form::{Message, file_note, name_sentence, note_on};
use bs_bits::{NoMemory, push_number, push_piece};
use bs_net::{Count, NetFault, NetId, Raw};
use bs_net_names::{before, behind, push_quoted};
use bs_verilog_scope::place_of_name;
use std::alloc::Global;

/// How many nets of a ring are named at most. A note is to be read at a glance, and a part of the ring leads to the rest.
pub const RING: usize = 8;

/// The key of a net, or none where it has no name.
fn key_of(raw: &Raw, net: NetId) -> &[u8]
    ensures { result.now ≡ net_key (parts_of raw.now) net }
{
    if net.0 < raw.names.len() {
        raw.names.key(net).as_bytes()
    } else {
        b""
    }
}

/// The name that stands in the text for a key: a vector's without its index.
fn base_of(key: &[u8]) -> &[u8]
    ensures { result.now ≡ base_of key.now }
{
    if key.starts_with(b"[".as_slice()) {
        return behind(b']', key);
    }
    if key.starts_with(b"\\".as_slice()) {
        return key;
    }
    before(b'[', key)
}

/// A note on the first place of a text at which the name of a key stands.
pub fn key_note(
    alloc: Global,
    path: &str,
    text: &[u8],
    key: &[u8],
    sentence: &[u8],
    label: &[u8],
) -> Result<Vec<u8>, NoMemory>
    ensures { IfOk result (λ note. IsKeyNote path.now text.now key.now sentence.now label.now note.items) }
{
    let at = place_of_name(text, base_of(key));
    let message = Message { sentence, label };
    let note = note_on(alloc, path, text, at, message)?;
    Ok(note)
}

/// A note on a net, where its name first stands in the text.
fn net_note(
    alloc: Global,
    path: &str,
    text: &[u8],
    key: &[u8],
    last: &[u8],
    label: &[u8],
) -> Result<Vec<u8>, NoMemory>
    ensures { IfOk result (λ note. IsNetNote path.now text.now key.now last.now label.now note.items) }
{
    let said = name_sentence(alloc, b"the net `", key, last)?;
    let note = key_note(alloc, path, text, key, &said, label)?;
    Ok(note)
}

/// A note on too many of something.
pub fn counted_note(
    alloc: Global,
    path: &str,
    sentence: &str,
    count: u32,
) -> Result<Vec<u8>, NoMemory>
    ensures { IfOk result (λ note. note.items ≡ file_text path.now (sentence.now ++ decimal count)) }
{
    let mut said = sentence.as_bytes().to_vec(alloc)?;
    push_number(&mut said, u64::from(count))?;
    file_note(alloc, path, &said)
}

/// The output net of a gate, if there is one.
fn output_of(raw: &Raw, gate: u32) -> Option<NetId>
    ensures { result ≡ output_of (parts_of raw.now) gate }
{
    match raw.gates.slice().get(gate as usize) {
        Some(gate) => Some(gate.out),
        None => None,
    }
}

/// Appends a space and the key of a gate's output net.
fn push_gate(said: &mut Vec<u8>, raw: &Raw, gate: u32) -> Result<(), NoMemory>
    ensures { OnOk result (said.new.items ≡ said.old.items ++ ring_piece (parts_of raw.now) gate) }
{
    match output_of(raw, gate) {
        Some(net) => push_net(said, raw, net),
        None => Ok(()),
    }
}

/// Appends a space and the key of a net.
fn push_net(said: &mut Vec<u8>, raw: &Raw, net: NetId) -> Result<(), NoMemory>
    ensures { OnOk result (said.new.items ≡ said.old.items ++ (codes " " ++ shown_line (net_key (parts_of raw.now) net))) }
{
    push_piece(said, b" ")?;
    push_quoted(said, key_of(raw, net))
}

/// The first members of a ring, as many as are named.
#[tactic(auto, using(std::proofs::lemmas::List::take_min))]
pub fn ring_front<T>(members: &[T]) -> &[T]
    ensures { result.now ≡ take RING members.now }
{
    &members[..RING.min(members.len())]
}

/// The keys of the first gates of a ring.
fn ring_keys(alloc: Global, raw: &Raw, gates: &[u32]) -> Result<Vec<u8>, NoMemory>
    ensures { IfOk result (λ said. said.items ≡ ring_text (parts_of raw.now) gates.now) }
{
    let named = ring_front(gates);
    let mut said = b"gates read one another in a ring, by their output nets:".to_vec(alloc)?;
    'gates: for &gate in named {
        push_gate(&mut said, raw, gate)?;
    }
    Ok(said)
}

/// The key of the output net of the first gate.
fn first_key<'a>(raw: &'a Raw, gates: &[u32]) -> &'a [u8]
    ensures { result.now ≡ first_key (parts_of raw.now) gates.now }
{
    let gate = match gates.first() {
        Some(gate) => *gate,
        None => 0,
    };
    match output_of(raw, gate) {
        Some(net) => key_of(raw, net),
        None => b"",
    }
}

/// A note on a ring of gates, where the output of its first gate first stands in the text.
fn ring_note(
    alloc: Global,
    path: &str,
    text: &[u8],
    raw: &Raw,
    gates: &[u32],
) -> Result<Vec<u8>, NoMemory>
    ensures { IfOk result (λ note. IsRingNote (parts_of raw.now) path.now text.now gates.now note.items) }
{
    let said = ring_keys(alloc, raw, gates)?;
    let key = first_key(raw, gates);
    let note = key_note(
        alloc,
        path,
        text,
        key,
        &said,
        b"a flip-flop must stand in every ring; latches are left out",
    )?;
    Ok(note)
}

/// What a number of too many counts.
fn count_sentence(count: Count) -> &'static str
    ensures { result.now ≡ count_sentence count }
{
    match count {
        Count::Flops => "at most 4096 flip-flops are taken, and there are ",
        Count::Inputs => "at most 4096 input port bits are taken, and there are ",
        Count::Terminals => "a gate has at most 64 inputs, and one has ",
    }
}

/// A note on a netlist that its check refuses.
pub fn check_note(
    alloc: Global,
    path: &str,
    text: &[u8],
    raw: &Raw,
    fault: &NetFault,
) -> Result<Vec<u8>, NoMemory>
    ensures { IfOk result (λ note. IsCheckNote (parts_of raw.now) path.now text.now fault.now note.items) }
{
    match fault {
        NetFault::TooMany(count, number) => {
            counted_note(alloc, path, count_sentence(*count), *number)
        }
        NetFault::SecondDriver(net) => net_note(
            alloc,
            path,
            text,
            key_of(raw, *net),
            b"` has two drivers",
            b"one input, gate output or flip-flop may drive a net",
        ),
        NetFault::Undriven(net) => net_note(
            alloc,
            path,
            text,
            key_of(raw, *net),
            b"` is read and has no driver",
            b"is the name misspelt, or a gate missing?",
        ),
        NetFault::Loop(gates) => ring_note(alloc, path, text, raw, gates.slice()),
        NetFault::NoFlop => file_note(
            alloc,
            path,
            b"there is no flip-flop: cells are dff, dffs, dffe and dffr (docs/FORMATS.md, Netlists)",
        ),
        NetFault::ClockMixed(net) => net_note(
            alloc,
            path,
            text,
            key_of(raw, *net),
            b"` is no single clock",
            b"all flip-flops take one input port bit as their clock, and no gate and no d, e or r reads it: make a gated clock an enable (dffe), negedge posedge, and keep one clock's part",
        ),
        NetFault::NoMemory => file_note(alloc, path, b"memory ran out"),
    }
}
