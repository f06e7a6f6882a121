//! The items of a module: what its own text keeps of them, and its instance statements.
ghost use Rattle.std.specs.Prelude.{◌≡◌, [], ◌++◌, length, IfOk, OnOk};
ghost use Rattle.bs_bits.specs.Reading.{Answers};
ghost use Rattle.bs_verilog_scope.specs.Checking.{marked};
ghost use Rattle.bs_verilog_syntax.specs.declared.fault.VerilogFault.TheVariants.{NoMemory as want};
ghost use Rattle.bs_flat_meaning.specs.Pieces as pieces;
ghost use Rattle.bs_flat_modules.specs.Items as spec;

use crate::copying::{copy, part};
use crate::pieces::attributes_size;
use crate::sorts::{is_cell, is_endmodule};
use bs_bits::{List, NoMemory};
use bs_flat_meaning::{Written, instancing};
use bs_lex::{Lexeme, Sort, is_name};
use bs_verilog_scope::NameMarks;
use bs_verilog_syntax::{VerilogFault, is_at, sort_of};
use std::alloc::Global;

/// Whether an attribute is open behind a lexeme; the flag says that one is open before it.
pub fn stays_inside(inside: bool, sort: Sort) -> bool
    ensures { result ≡ spec.stays_inside inside sort }
{
    match sort {
        Sort::AttrOpen => true,
        Sort::AttrClose => false,
        _ => inside,
    }
}

/// Whether a `;` is next, and no attribute is open.
fn is_semicolon(inside: bool, ts: &[Lexeme]) -> bool
    ensures { result ≡ spec.is_semicolon inside ts.now }
{
    if inside { false } else { is_at(b';', ts) }
}

/// How many lexemes the next item has: up to and with its `;`, or up to `endmodule`.
pub fn item_size(ts: &[Lexeme]) -> usize
    ensures { spec.IsItem ts.now result }
{
    let mut inside = false;
    let mut at = 0;
    'lexemes: while at < ts.len() {
        let rest = &ts[at..];
        let sort = sort_of(rest);
        if is_endmodule(sort) {
            return at;
        }
        if is_semicolon(inside, rest) {
            return at + 1;
        }
        inside = stays_inside(inside, sort);
        at += 1;
    }
    ts.len()
}

/// What follows the attributes that come first; nothing where they are not closed.
fn past(ts: &[Lexeme]) -> Result<&[Lexeme], NoMemory>
    ensures { IfOk result (λ here. here.now ≡ pieces.past_attributes ts.now) }
{
    match attributes_size(ts)? {
        Some(size) => Ok(&ts[size..]),
        None => Ok(&ts[ts.len()..]),
    }
}

/// Whether a name is next that is marked and is no cell's.
fn is_marked_next(marks: &NameMarks, ts: &[Lexeme]) -> bool
    ensures { result ≡ spec.is_marked_next (marked marks.now) ts.now }
{
    match ts {
        [] => false,
        [t, ..] => is_name(t.sort()) && !is_cell(t.sort()) && marks.has(t.name()),
    }
}

/// Whether an item is an instance statement.
fn is_statement(marks: &NameMarks, item: &[Lexeme]) -> Result<bool, NoMemory>
    ensures { IfOk result (λ b. b ≡ spec.is_statement (marked marks.now) item.now) }
{
    let here = past(item)?;
    Ok(is_marked_next(marks, here))
}

/// Adds an item that is no instance statement.
fn own_item(own: &mut List<Lexeme>, marks: &NameMarks, item: &[Lexeme]) -> Result<(), NoMemory>
    ensures { OnOk result (own.new ≡ own.old ++ spec.kept (marked marks.now) item.now) }
{
    if is_statement(marks, item)? {
        return Ok(());
    }
    copy(own, item)?;
    Ok(())
}

/// Adds the items of a module that are no instance statements, and its `endmodule`.
pub fn own_items(own: &mut List<Lexeme>, marks: &NameMarks, ts: &[Lexeme]) -> Result<(), NoMemory>
    ensures { OnOk result (own.new ≡ own.old ++ spec.own_items (marked marks.now) (length ts.now) ts.now) }
{
    let mut at = 0;
    let bound = ts.len();
    'items: for _ in 0..bound {
        let rest = &ts[at..];
        if is_endmodule(sort_of(rest)) {
            copy(own, rest)?;
            return Ok(());
        }
        let size = item_size(rest);
        own_item(own, marks, part(rest, 0, size))?;
        at += size;
    }
    copy(own, &ts[at..])?;
    Ok(())
}

/// The instances of the statement that is next, behind attributes.
fn statement(alloc: Global, ts: &[Lexeme]) -> Result<List<Written>, VerilogFault>
    ensures { Answers want (λ ws. ws) result (spec.statement ts.now) }
{
    let here = past(ts)?;
    let (written, _) = instancing(alloc, here)?;
    Ok(written)
}

/// Adds the instances of an item, if it is an instance statement. The item is given alone, and with what follows it.
fn add_item(
    alloc: Global,
    all: &mut List<Written>,
    marks: &NameMarks,
    item: &[Lexeme],
    ts: &[Lexeme],
) -> Result<(), VerilogFault>
    ensures { Answers want (λ _. all.new) result (spec.with_item (marked marks.now) all.old item.now ts.now) }
{
    if is_statement(marks, item)? {
        let more = statement(alloc, ts)?;
        all.append(more)?;
    }
    Ok(())
}

/// The instances of a module's items, or the first fault of an instance statement.
pub fn written_items(
    alloc: Global,
    marks: &NameMarks,
    ts: &[Lexeme],
) -> Result<List<Written>, VerilogFault>
    ensures { Answers want (λ ws. ws) result (spec.written_items (marked marks.now) (length ts.now) [] ts.now) }
{
    let mut all = List::new(alloc);
    let mut at = 0;
    let bound = ts.len();
    'items: for _ in 0..bound {
        let rest = &ts[at..];
        if is_endmodule(sort_of(rest)) {
            return Ok(all);
        }
        let size = item_size(rest);
        add_item(alloc, &mut all, marks, part(rest, 0, size), rest)?;
        at += size;
    }
    Ok(all)
}
