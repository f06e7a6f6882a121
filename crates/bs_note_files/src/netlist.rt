//! Notes on a text of one module that is no netlist.
ghost use Rattle.std.specs.Prelude.{◌≡◌, slice_get, IfOk, Some};
ghost use Rattle.bs_verilog_scope.specs.Before.{declares_near, is_own, is_word};
ghost use Rattle.bs_note_files.specs.Netlists.{fault_saying, IsNetlistNote, place_of};
ghost use Rattle.bs_note_files.specs.Notes.{said};
ghost use Rattle.bs_note_files.specs.Sayings.{begins_block, behaviour_saying, cell_saying, declares, is_binary, is_escaped, place_saying, syntax_saying, what_saying};

use crate::flaw::packed_message;
use crate::form::{Message, note_on, say};
use bs_bits::NoMemory;
use bs_verilog_scope::{declares_near, is_own, is_word};
use bs_verilog_syntax::{VerilogFault, What};
use std::alloc::Global;

/// Whether the byte at a place begins an escaped name.
fn is_escaped(text: &[u8], at: usize) -> bool
    ensures { result ≡ is_escaped (slice_get text.now at) }
{
    match text.get(at) {
        Some(byte) => *byte == b'\\',
        None => false,
    }
}

/// Whether a word stands there with which SystemVerilog declares.
fn declares(text: &[u8], at: usize) -> bool
    ensures { result ≡ declares text.now at }
{
    let logic = is_word(text, at, b"logic");
    let typedef = is_word(text, at, b"typedef");
    let enumeration = is_word(text, at, b"enum");
    logic || (typedef || enumeration)
}

/// Whether a word stands there with which it begins a block of behaviour.
fn begins_block(text: &[u8], at: usize) -> bool
    ensures { result ≡ begins_block text.now at }
{
    let clocked = is_word(text, at, b"always_ff");
    let combinational = is_word(text, at, b"always_comb");
    let latched = is_word(text, at, b"always_latch");
    clocked || (combinational || latched)
}

/// What is said of behaviour.
fn behaviour_message() -> Message<'static>
    ensures { said result ≡ behaviour_saying }
{
    say(
        "behavioural Verilog is left out",
        "synthesize it, and map it to gates and flip-flops, as examples/yosys/synth.sh does both",
    )
}

/// What is said of a name at a place that is no gate and no cell.
fn cell_message(text: &[u8], at: usize) -> Message<'static>
    ensures { said result ≡ cell_saying text.now at }
{
    if is_escaped(text, at) {
        return say(
            "an escaped name is no gate and no cell: `\\not` is another name than `not`",
            "map cells to gates and take the `\\` out of their names: examples/yosys/synth.sh does both",
        );
    }
    if is_own(text, at) {
        return say(
            "the module instances itself: a ring of one module",
            "no module may stand in itself",
        );
    }
    if declares(text, at) {
        return say(
            "this is a word of SystemVerilog RTL, and no cell",
            "synthesize and map it, as examples/yosys/synth.sh does; in a netlist write wire in place of logic",
        );
    }
    if begins_block(text, at) {
        return behaviour_message();
    }
    say(
        "no cell of this name is known",
        "cells are dff and dffs (CK, Q, D), dffe (E too), dffr (R too), gates and nand or nor xor xnor buf not: flatten and map to these (docs/FORMATS.md)",
    )
}

/// What is said of a part of the language that is left out, at a place of a text.
fn what_message(text: &[u8], at: usize, what: What) -> Message<'static>
    ensures { said result ≡ what_saying text.now at what }
{
    match what {
        What::Behaviour => behaviour_message(),
        What::Parameter => say("parameters are left out", "let synthesis settle them"),
        What::NetType => say(
            "net types other than wire, supply0 and supply1 are left out",
            "is this RTL? synthesize and map it, as examples/yosys/synth.sh does; else write wire",
        ),
        What::Primitive => say(
            "tri-state, switch and user primitives are left out",
            "gates are and nand or nor xor xnor buf not",
        ),
        What::Direction => say(
            "inout ports are left out",
            "split it into an input and an output",
        ),
        What::Strength => say("drive strengths are left out", "take it out"),
        What::Array => say("arrays of instances are left out", "write each instance"),
        What::Expression => say(
            "expressions and concatenations are left out",
            "a net, a bit of a vector or a constant of one bit may stand here; examples/yosys/synth.sh maps the rest to gates",
        ),
        What::Width => say(
            "a whole vector or a part of it is left out",
            "name one bit, as a[0]",
        ),
        What::Constant => say(
            "a constant here is 1'b0 or 1'b1",
            "x, z and wider constants are left out",
        ),
        What::Directive => say(
            "this compiler directive is left out",
            "take it out, or run a preprocessor first",
        ),
        What::Hierarchy => cell_message(text, at),
    }
}

/// Whether a byte is neither white space nor one of ` ` to `~`.
fn is_binary(byte: u8) -> bool
    ensures { result ≡ is_binary byte }
{
    (byte < 32 && !(8 < byte && byte < 14)) || 126 < byte
}

/// What is said of a byte that cannot go on.
fn byte_message(byte: u8) -> Message<'static>
    ensures { said result ≡ place_saying (Some byte) }
{
    if byte == 0xEF {
        return say(
            "a byte that is no ASCII character, as a mark at the front of a file",
            "save the file as plain ASCII without a byte order mark",
        );
    }
    if byte == b'$' {
        return say(
            "no cell of this name is known",
            "cells are dff and dffs (CK, Q, D), dffe (E too), dffr (R too): flatten and map to these (docs/FORMATS.md, Netlists)",
        );
    }
    if byte == 31 {
        return packed_message();
    }
    if byte == b';' {
        return say(
            "a `;` cannot stand here",
            "is something missing before it, as an instance's terminals?",
        );
    }
    if is_binary(byte) {
        return say(
            "a byte that no text has: is this file packed or binary?",
            "give the text of a structural netlist",
        );
    }
    say(
        "what begins here cannot stand here",
        "is a `;` missing before it? is this RTL or SystemVerilog? synthesize it, as by examples/yosys/synth.sh (docs/FORMATS.md, Netlists)",
    )
}

/// What is said of a place that cannot go on, by what stands there.
fn place_message(text: &[u8], at: usize) -> Message<'static>
    ensures { said result ≡ place_saying (slice_get text.now at) }
{
    match text.get(at) {
        None => say(
            "the text ends before its module does",
            "is the netlist cut short, or `endmodule` missing? is it empty, as by a shell's `> FILE` of the file that is read?",
        ),
        Some(byte) => byte_message(*byte),
    }
}

/// What is said of a place that cannot go on.
fn syntax_message(text: &[u8], at: usize) -> Message<'static>
    ensures { said result ≡ syntax_saying text.now at }
{
    if declares_near(text, at) {
        return say(
            "this word, or the one before it, is one of SystemVerilog or RTL, as logic, bit, var, int, signed, reg or integer",
            "synthesize and map it, as examples/yosys/synth.sh does; in a netlist write wire or nothing in its place",
        );
    }
    place_message(text, at)
}

/// What is said of a text that is no netlist.
fn message_of(text: &[u8], fault: VerilogFault) -> Message<'static>
    ensures { said result ≡ fault_saying text.now fault }
{
    match fault {
        VerilogFault::Syntax(at) => syntax_message(text, at as usize),
        VerilogFault::Unsupported(at, what) => what_message(text, at as usize, what),
        VerilogFault::Port(_) => say(
            "each name of the header has one direction, and each direction a name of the header",
            "declare it as input or output once, and name it in the header",
        ),
        VerilogFault::Redeclared(_) => say(
            "this name is declared before",
            "one direction and one type are taken, with equal ranges",
        ),
        VerilogFault::TooManyNets(_) => say("there are more than 100000 nets", "split the netlist"),
        VerilogFault::Terminals(_) => say(
            "this gate or cell has other terminals than it takes",
            "a gate has its output first; dff and dffs take (CK, Q, D), dffe (CK, Q, D, E), dffr (CK, Q, D, R), or pins of these names",
        ),
        VerilogFault::Index(_) => say(
            "this index is none of the vector's, or a bound is above 65535",
            "compare it with the declaration",
        ),
        VerilogFault::NoMemory => say("memory ran out", ""),
    }
}

/// The place of a fault, a byte offset.
fn place_of(fault: VerilogFault) -> u32
    ensures { result ≡ place_of fault }
{
    match fault {
        VerilogFault::Syntax(at) => at,
        VerilogFault::Unsupported(at, _) => at,
        VerilogFault::Port(at) => at,
        VerilogFault::Redeclared(at) => at,
        VerilogFault::TooManyNets(at) => at,
        VerilogFault::Terminals(at) => at,
        VerilogFault::Index(at) => at,
        VerilogFault::NoMemory => 0,
    }
}

/// A note on a text of one module that is no netlist, on the place of its fault.
pub fn netlist_note(
    alloc: Global,
    path: &str,
    text: &[u8],
    fault: VerilogFault,
) -> Result<Vec<u8>, NoMemory>
    ensures { IfOk result (λ note. IsNetlistNote path.now text.now fault note.items) }
{
    let message = message_of(text, fault);
    let note = note_on(alloc, path, text, place_of(fault) as usize, message)?;
    Ok(note)
}
