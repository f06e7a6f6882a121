//! Notes on a text that is no dump.
ghost use Rattle.std.specs.Prelude.{◌≡◌, IfOk};
ghost use Rattle.bs_note_files.specs.Flaws.{IsLineNote, IsStartNote};
ghost use Rattle.bs_note_files.specs.Notes.{IsNoteOn, said};
ghost use Rattle.bs_note_files.specs.Sayings.{begins_bits, bits_in, dump_form, dump_saying, end_saying, older_saying, width_text};
ghost use Rattle.bs_net_names.specs.Splits.{behind};
ghost use Rattle.bs_note_files.specs.Texts.{bits_label, bits_saying, bits_text, IsDumpNote};

use crate::flaw::flaw_note;
use crate::form::{Message, file_note, note_on, say};
use crate::part::numbered_line;
use crate::width::{bits_in, width_sentence};
use bs_bits::NoMemory;
use bs_net_names::behind;
use bs_scan::DumpFault;
use std::alloc::Global;

/// What a dump is due to have: so many bits of the state, and so many signatures, each of so many bits.
#[derive(Clone, Copy)]
pub struct Widths {
    pub flops: usize,
    pub depth: u8,
    pub items: usize,
}

/// The form of a line behind that of the last signature, where one is kept.
fn end_form(number: u32) -> Message<'static>
    ensures { said result ≡ end_saying number }
{
    if number == 3 {
        return say(
            "the third line of a dump is `end`",
            "and nothing follows it",
        );
    }
    say("nothing follows the line `end` of a dump", "take it out")
}

/// The same where two are kept.
fn older_form(number: u32) -> Message<'static>
    ensures { said result ≡ older_saying number }
{
    if number == 3 {
        return say(
            "the third line of a dump of two cycles is `old BITS` or `old none`",
            "a bit for each item of the signature, and `old none` behind `sig none`",
        );
    }
    if number == 4 {
        return say(
            "the fourth line of a dump of two cycles is `end`",
            "and nothing follows it",
        );
    }
    say("nothing follows the line `end` of a dump", "take it out")
}

/// The form of a line of a dump by its number, of a register that keeps so many signatures.
fn numbered_form(depth: u8, number: u32) -> Message<'static>
    ensures { said result ≡ dump_saying depth number }
{
    if number == 1 {
        return say(
            "the first line of a dump is `state BITS`",
            "a bit for each flip-flop, in the order of the netlist",
        );
    }
    if number == 2 {
        return say(
            "the second line of a dump is `sig BITS` or `sig none`",
            "a bit for each item of the signature",
        );
    }
    if depth == 2 {
        older_form(number)
    } else {
        end_form(number)
    }
}

/// Whether a word of a dump begins a line.
fn begins_bits(line: &[u8]) -> bool
    ensures { result ≡ begins_bits line.now }
{
    let state = line.starts_with(b"state ".as_slice());
    let last = line.starts_with(b"sig ".as_slice());
    let older = line.starts_with(b"old ".as_slice());
    state || (last || older)
}

/// The form of a line of a dump, of a register that keeps so many signatures.
fn form_of(depth: u8, number: u32, line: &[u8]) -> Message<'static>
    ensures { said result ≡ dump_form depth number line.now }
{
    let begins = begins_bits(line);
    if begins && number < 3 {
        return say(
            "behind the word stand characters 0 and 1, in `state` also `-`, or `sig none`, and this line has something else",
            "write a number of base 16 bit by bit, as 1010 for a; in `state` write `-` where the chip's bit is not known, as for x and z",
        );
    }
    numbered_form(depth, number)
}

/// A note on the line with a number that is none of a dump.
fn form_note(
    alloc: Global,
    path: &str,
    text: &[u8],
    depth: u8,
    number: u32,
) -> Result<Vec<u8>, NoMemory>
    ensures { IfOk result (λ note. IsLineNote path.now text.now number (dump_form depth number) note.items) }
{
    let (start, line) = numbered_line(text, u64::from(number));
    let form = form_of(depth, number, line);
    let note = flaw_note(alloc, path, text, start, line, form)?;
    Ok(note)
}

/// What to look at where a line has another number of bits than are due.
fn bits_label(widths: Widths, number: u32) -> &'static str
    ensures { result.now ≡ bits_label widths number }
{
    if widths.items == 0 && !(number == 1) {
        "the signature file has no line: is it the right one, and was it emptied?"
    } else {
        "is the dump of this netlist, with this signature?"
    }
}

/// How many bits a line of a dump has, and how many are due.
fn bits_sentence(
    alloc: Global,
    widths: Widths,
    number: u32,
    line: &[u8],
) -> Result<Vec<u8>, NoMemory>
    ensures { IfOk result (λ said. said.items ≡ bits_text widths number line.now) }
{
    let bits = bits_in(behind(b' ', line));
    if number == 1 {
        width_sentence(alloc, bits, widths.flops, b"flip-flop of the netlist")
    } else {
        width_sentence(alloc, bits, widths.items, b"item of the signature")
    }
}

/// A note on a place at which a line stands with another number of bits than are due.
fn bits_note(
    alloc: Global,
    path: &str,
    text: &[u8],
    widths: Widths,
    number: u32,
    start: usize,
    line: &[u8],
) -> Result<Vec<u8>, NoMemory>
    ensures { IfOk result (λ note. IsNoteOn path.now text.now start (bits_saying widths number line.now) note.items) }
{
    let said = bits_sentence(alloc, widths, number, line)?;
    let message = Message {
        sentence: &said,
        label: bits_label(widths, number).as_bytes(),
    };
    let note = note_on(alloc, path, text, start, message)?;
    Ok(note)
}

/// A note on the line with a number that has another number of bits than are due.
fn width_note(
    alloc: Global,
    path: &str,
    text: &[u8],
    widths: Widths,
    number: u32,
) -> Result<Vec<u8>, NoMemory>
    ensures { IfOk result (λ note. IsStartNote path.now text.now number (bits_saying widths number) note.items) }
{
    let (start, line) = numbered_line(text, u64::from(number));
    let note = bits_note(alloc, path, text, widths, number, start, line)?;
    Ok(note)
}

/// A note on a text that is no dump.
pub fn dump_note(
    alloc: Global,
    path: &str,
    text: &[u8],
    widths: Widths,
    fault: DumpFault,
) -> Result<Vec<u8>, NoMemory>
    ensures { IfOk result (λ note. IsDumpNote path.now text.now widths fault note.items) }
{
    match fault {
        DumpFault::Line(number) => form_note(alloc, path, text, widths.depth, number),
        DumpFault::Width(number) => width_note(alloc, path, text, widths, number),
        DumpFault::NotReset => note_on(
            alloc,
            path,
            text,
            0,
            say(
                "`sig none` goes with the reset state alone, and this is another state",
                "at reset dffs holds 1 and each other cell 0; in any later state the register holds a signature",
            ),
        ),
        DumpFault::NoMemory => file_note(alloc, path, b"memory ran out"),
    }
}
