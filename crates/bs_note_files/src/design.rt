//! Notes on a text of several modules that is no netlist.
ghost use Rattle.std.specs.Prelude.{◌≡◌, [], codes, slice_index_or, IfOk};
ghost use Rattle.bs_note_files.specs.Checks.{IsKeyNote};
ghost use Rattle.bs_note_files.specs.Designs.{clash_text, IsDesignNote, modules_text};
ghost use Rattle.bs_note_files.specs.Notes.{file_text};

use crate::check::{counted_note, key_note, ring_front};
use crate::form::{file_note, name_sentence, note_on, say};
use crate::netlist::netlist_note;
use bs_bits::{List, NoMemory, push_piece};
use bs_flat_meaning::FlatFault;
use bs_net_names::push_quoted;
use std::alloc::Global;

/// The first names of a ring of modules.
fn modules_said(alloc: Global, names: &[List<u8>]) -> Result<Vec<u8>, NoMemory>
    ensures { IfOk result (λ said. said.items ≡ modules_text names.now) }
{
    let named = ring_front(names);
    let mut said = b"modules instance one another in a ring:".to_vec(alloc)?;
    'names: for name in named {
        push_piece(&mut said, b" ")?;
        push_quoted(&mut said, name.slice())?;
    }
    Ok(said)
}

/// The first name.
fn first_name(names: &[List<u8>]) -> &[u8]
    ensures { result.now ≡ slice_index_or names.now 0 [] }
{
    match names.first() {
        Some(name) => name.slice(),
        None => b"",
    }
}

/// A note on a ring of modules, where the name of the first of them first stands in the text.
fn ring_note(
    alloc: Global,
    path: &str,
    text: &[u8],
    names: &[List<u8>],
) -> Result<Vec<u8>, NoMemory>
    ensures { IfOk result (λ note. IsKeyNote path.now text.now (slice_index_or names.now 0 []) (modules_text names.now) (codes "no module may stand in itself") note.items) }
{
    let said = modules_said(alloc, names)?;
    let first = first_name(names);
    let note = key_note(
        alloc,
        path,
        text,
        first,
        &said,
        b"no module may stand in itself",
    )?;
    Ok(note)
}

/// A note on a key that two nets have.
fn clash_note(alloc: Global, path: &str, key: &[u8]) -> Result<Vec<u8>, NoMemory>
    ensures { IfOk result (λ note. note.items ≡ file_text path.now (clash_text key.now)) }
{
    let said = name_sentence(
        alloc,
        b"two nets of the flat design have the key `",
        key,
        b"`: give an instance or a net another name",
    )?;
    file_note(alloc, path, &said)
}

/// A note on a text of any number of modules that is no netlist.
pub fn design_note(
    alloc: Global,
    path: &str,
    text: &[u8],
    fault: &FlatFault,
) -> Result<Vec<u8>, NoMemory>
    ensures { IfOk result (λ note. IsDesignNote path.now text.now fault.now note.items) }
{
    match fault {
        FlatFault::Verilog(fault) => netlist_note(alloc, path, text, *fault),
        FlatFault::Twice(at) => note_on(
            alloc,
            path,
            text,
            *at as usize,
            say(
                "an earlier module, or an earlier instance in this module, has the same name",
                "give it a name of its own",
            ),
        ),
        FlatFault::OwnNets(at) => note_on(
            alloc,
            path,
            text,
            *at as usize,
            say(
                "up to this module the modules declare more than 4194304 nets",
                "make ports and wires narrower, or give a part of the design",
            ),
        ),
        FlatFault::Recursion(names) => ring_note(alloc, path, text, names.slice()),
        FlatFault::Tops(count) => counted_note(
            alloc,
            path,
            "one module alone, the top, is instanced by none, and so many are: ",
            *count,
        ),
        FlatFault::Connect(at) => note_on(
            alloc,
            path,
            text,
            *at as usize,
            say(
                "this does not go with a port of the instanced module",
                "each connection is of a port of its own, with as many bits, and a constant is of no output",
            ),
        ),
        FlatFault::FlatDepth => file_note(
            alloc,
            path,
            b"instances stand in one another more than 256 deep: take levels out",
        ),
        FlatFault::FlatParts => file_note(
            alloc,
            path,
            b"on all paths there are more than 400000 gates, flip-flops and instances: give a part of the design",
        ),
        FlatFault::FlatNets => file_note(
            alloc,
            path,
            b"on all paths there are more than 100000 nets: give a part of the design",
        ),
        FlatFault::FlatKeys => file_note(
            alloc,
            path,
            b"the keys of all nets have more than 268435456 bytes together: give shorter names",
        ),
        FlatFault::NameClash(key) => clash_note(alloc, path, key.slice()),
        FlatFault::FlatTerminals => file_note(
            alloc,
            path,
            b"on all paths gates have more than 268435456 inputs together with constants and ports: give a gate 64 inputs at most",
        ),
        FlatFault::NoMemory => file_note(alloc, path, b"memory ran out"),
    }
}
