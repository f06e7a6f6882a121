//! Which file of a job a text seems to be, by its first word, or by a line that begins a module.
ghost use Rattle.std.specs.Prelude.{◌≡◌, IfOk};
ghost use Rattle.bs_note_files.specs.Kinds.{begins_module, has_module, kind_of, mistaken, mistaken_advice, mistaken_sentence, mistaken_text, other_than, rank, vcd_advice};

use crate::form::file_note;
use bs_bits::{NoMemory, next_line, push_piece};
use bs_outside::File;
use std::alloc::Global;

/// Whether a line begins a module.
fn begins_module(line: &[u8]) -> bool
    ensures { result ≡ begins_module line.now }
{
    line.starts_with(b"module ".as_slice())
}

/// Whether some line of a text begins a module.
#[tactic(auto, using(crate::proofs::KindLemmas::module_found, crate::proofs::KindLemmas::module_next, crate::proofs::KindLemmas::module_none))]
fn has_module(text: &[u8]) -> bool
    ensures { result ≡ has_module text.now }
{
    let mut rest = text;
    'lines: while let Some((line, behind)) = next_line(rest) {
        if begins_module(line) {
            return true;
        }
        rest = behind;
    }
    false
}

/// The file that a text seems to be.
fn kind_of_text(text: &[u8]) -> Option<File>
    ensures { result ≡ kind_of text.now }
{
    if text.starts_with(b"module ".as_slice()) {
        return Some(File::Netlist);
    }
    if text.starts_with(b"bit ".as_slice()) {
        return Some(File::Signature);
    }
    if text.starts_with(b"xor ".as_slice()) {
        return Some(File::Signature);
    }
    if text.starts_with(b"cycles ".as_slice()) {
        return Some(File::Signature);
    }
    if text.starts_with(b"run ".as_slice()) {
        return Some(File::Stimulus);
    }
    if text.starts_with(b"state ".as_slice()) {
        return Some(File::Dump);
    }
    if text.starts_with(b"backspace ".as_slice()) {
        return Some(File::Report);
    }
    if text.starts_with(b"$".as_slice()) {
        return Some(File::Vcd);
    }
    if has_module(text) {
        Some(File::Netlist)
    } else {
        None
    }
}

/// The place of a file among the names of a job.
fn rank(file: File) -> u8
    ensures { result ≡ rank file }
{
    match file {
        File::Netlist => 0,
        File::Signature => 1,
        File::Stimulus => 2,
        File::Dump => 3,
        File::Report => 4,
        File::State => 5,
        File::Vcd => 6,
        File::Map => 7,
        File::Name => 8,
    }
}

/// The file that a text seems to be, where it is another than the one it is given as.
pub fn mistaken(file: File, text: &[u8]) -> Option<File>
    ensures { result ≡ mistaken file text.now }
{
    match kind_of_text(text) {
        Some(kind) => {
            if rank(kind) == rank(file) {
                None
            } else {
                Some(kind)
            }
        }
        None => None,
    }
}

/// What to do with value changes that are given as this file.
fn vcd_advice(file: File) -> &'static str
    ensures { result.now ≡ vcd_advice file }
{
    if rank(file) == rank(File::Dump) {
        " of a simulator; `backspace_inspect dump NETLIST VCD --cycle N` makes a dump of one"
    } else {
        " of a simulator; `backspace_inspect stimulus NETLIST VCD --clock NAME` makes a stimulus of one"
    }
}

/// What to do with a file that is given as this one, and seems to be another one.
fn mistaken_advice(file: File, kind: File) -> &'static str
    ensures { result.now ≡ mistaken_advice file kind }
{
    if rank(kind) == rank(File::Vcd) {
        vcd_advice(file)
    } else {
        "; the files stand in the order NETLIST SIGNATURE STIMULUS DUMP REPORT"
    }
}

/// What is said of a file that seems to be another one.
fn mistaken_sentence(alloc: Global, file: File, kind: File) -> Result<Vec<u8>, NoMemory>
    ensures { IfOk result (λ said. said.items ≡ mistaken_sentence file kind) }
{
    let mut said = b"given as the ".to_vec(alloc)?;
    push_piece(&mut said, file.word().as_bytes())?;
    push_piece(&mut said, b", this file begins like a ")?;
    push_piece(&mut said, kind.word().as_bytes())?;
    push_piece(&mut said, mistaken_advice(file, kind).as_bytes())?;
    Ok(said)
}

/// A note on a file that seems to be another one.
pub fn mistaken_note(alloc: Global, file: File, kind: File, path: &str) -> Result<Vec<u8>, NoMemory>
    ensures { IfOk result (λ note. note.items ≡ mistaken_text file kind path.now) }
{
    let said = mistaken_sentence(alloc, file, kind)?;
    file_note(alloc, path, &said)
}
