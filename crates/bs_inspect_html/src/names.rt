//! The names of signals, as HTML.
ghost use Rattle.std.specs.Prelude.{◌≡◌, ◌++◌, IfOk, OnOk};
ghost use Rattle.bs_inspect_view.specs.Signals.{name_text, signal_in};
ghost use Rattle.bs_inspect_html.specs.Names.{name_cell, name_end, name_front, shown_name};

use crate::cells::is_signed;
use crate::escape::push_escaped;
use bs_bits::{Bits, NoMemory, push_piece};
use bs_inspect_view::{Signal, push_name};
use std::alloc::Global;

/// The name of a signal.
fn name_of(alloc: Global, signal: &Signal<'_>) -> Result<Vec<u8>, NoMemory>
    ensures { IfOk result (λ name. name.items ≡ name_text (signal_in signal.now)) }
{
    let mut name = Vec::new(alloc);
    push_name(&mut name, signal)?;
    Ok(name)
}

/// Appends the name of a signal, as HTML shows it.
#[tactic(auto, unfolding(crate::specs::Names::shown_name))]
fn push_shown_name(text: &mut Vec<u8>, signal: &Signal<'_>) -> Result<(), NoMemory>
    ensures { OnOk result (text.new.items ≡ text.old.items ++ shown_name (signal_in signal.now)) }
{
    let name = name_of(*text.allocator(), signal)?;
    push_escaped(text, name.as_slice())
}

/// Appends what stands in front of a name.
fn push_name_front(text: &mut Vec<u8>, marked: bool) -> Result<(), NoMemory>
    ensures { OnOk result (text.new.items ≡ text.old.items ++ name_front marked) }
{
    if marked {
        push_piece(text, b"<tr><th scope='row' class='m'>")
    } else {
        push_piece(text, b"<tr><th scope='row'>")
    }
}

/// Appends what stands behind a name.
fn push_name_end(text: &mut Vec<u8>, marked: bool) -> Result<(), NoMemory>
    ensures { OnOk result (text.new.items ≡ text.old.items ++ name_end marked) }
{
    if marked {
        push_piece(text, b" <span>signature</span></th>")
    } else {
        push_piece(text, b"</th>")
    }
}

/// Appends the cell of a signal's name, marked where one of its places is read.
pub fn push_name_cell(
    text: &mut Vec<u8>,
    signed: &Bits,
    signal: &Signal<'_>,
) -> Result<(), NoMemory>
    ensures { OnOk result (text.new.items ≡ text.old.items ++ name_cell signed.now (signal_in signal.now)) }
{
    let marked = is_signed(signed, signal.places.slice());
    push_name_front(text, marked)?;
    push_shown_name(text, signal)?;
    push_name_end(text, marked)?;
    Ok(())
}
