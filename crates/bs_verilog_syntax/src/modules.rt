//! Items, modules, and the whole text.
ghost use Rattle.std.specs.Prelude.{◌≡◌, ◌≤◌, ◌<◌, ◌++◌, length, ◌+◌, IfOk, IfErr, OnOk, Ok, []};
ghost use Rattle.bs_verilog_syntax.specs.declared.fault.VerilogFault.TheVariants.{NoMemory};
ghost use Rattle.bs_verilog_syntax.specs.Declarations as declarations;
ghost use Rattle.bs_verilog_syntax.specs.Reading as spec;
ghost use Rattle.bs_verilog_syntax.specs.Modules as modules;
ghost use Rattle.bs_bits.specs.Reading.{Answers};
ghost use Rattle.bs_verilog_syntax.specs.declared.fault.VerilogFault.TheVariants.{NoMemory as want};

use crate::declarations::{direction_of, header, names, net_of, net_says, port_says};
use crate::fault::{VerilogFault, What};
use crate::parts::{assignments, gates, instances};
use crate::reading::{Due, attributes, expect_name, place_of, refused, rest_of, sort_of};
use crate::tree::{Adds, Component, Module, Ports, Says};
use bs_bits::List;
use bs_lex::{Lexeme, Sort, Word, is_name};
use std::alloc::Global;

/// What a declaration adds.
fn declaring(alloc: Global, says: Says, ts: &[Lexeme]) -> Result<(Adds, &[Lexeme]), VerilogFault>
    ensures reads { spec.Reads (λ a. a) result (modules.declares (declarations.names says ts.now)) }
{
    let (declared, rest) = names(alloc, says, ts)?;
    let adds = Adds {
        declared,
        parts: List::new(alloc),
    };
    Ok((adds, rest))
}

/// What a statement adds.
fn placing(alloc: Global, parts: List<Component>) -> Adds
    ensures declared { result.declared ≡ [] }
    ensures parts { result.parts ≡ parts }
{
    Adds {
        declared: List::new(alloc),
        parts,
    }
}

/// An assignment, gates or cells.
fn statement(alloc: Global, ts: &[Lexeme]) -> Result<(Adds, &[Lexeme]), VerilogFault>
    ensures reads { spec.Reads (λ a. a) result (modules.statement (spec.sort ts.now) ts.now) }
{
    match sort_of(ts) {
        Sort::Word(Word::Assign) => {
            let (parts, rest) = assignments(alloc, rest_of(ts))?;
            Ok((placing(alloc, parts), rest))
        }
        Sort::Word(Word::Gate(kind)) => {
            let (parts, rest) = gates(alloc, kind, rest_of(ts))?;
            Ok((placing(alloc, parts), rest))
        }
        Sort::Name(Some(cell)) => {
            let (parts, rest) = instances(alloc, cell, rest_of(ts))?;
            Ok((placing(alloc, parts), rest))
        }
        _ => Err(refused(Due::Item, ts)),
    }
}

/// An item of a module.
#[tactic(auto, unfolding(crate::specs::Modules::item))]
fn item(alloc: Global, ts: &[Lexeme]) -> Result<(Adds, &[Lexeme]), VerilogFault>
    ensures reads { spec.Reads (λ a. a) result (modules.item ts.now) }
{
    match direction_of(sort_of(ts)) {
        Some(direction) => {
            let (says, rest) = port_says(direction, rest_of(ts))?;
            declaring(alloc, says, rest)
        }
        None => match net_of(sort_of(ts)) {
            Some(net) => {
                let (says, rest) = net_says(net, rest_of(ts))?;
                declaring(alloc, says, rest)
            }
            None => statement(alloc, ts),
        },
    }
}

/// Whether a lexeme is `endmodule`.
fn is_endmodule(sort: Sort) -> bool
    ensures { result ≡ modules.is_endmodule sort }
{
    matches!(sort, Sort::Word(Word::Endmodule))
}

/// Whether a lexeme is the end of the text.
fn is_end(sort: Sort) -> bool
    ensures { result ≡ modules.is_end sort }
{
    matches!(sort, Sort::End)
}

/// Whether a lexeme is `module`.
fn is_module(sort: Sort) -> bool
    ensures { result ≡ modules.is_module sort }
{
    matches!(sort, Sort::Word(Word::Module))
}

/// Whether a lexeme is the name of a cell.
fn is_cell(sort: Sort) -> bool
    ensures { result ≡ modules.is_cell sort }
{
    matches!(sort, Sort::Name(Some(_)))
}

/// After attributes and `module`.
#[tactic(auto, unfolding(crate::specs::Modules::begun))]
fn begun(ts: &[Lexeme]) -> Result<&[Lexeme], VerilogFault>
    ensures skips { spec.Skips result (modules.begun ts.now) }
{
    let here = attributes(ts)?;
    if is_module(sort_of(here)) {
        Ok(rest_of(here))
    } else {
        Err(refused(Due::Module, here))
    }
}

/// Adds what a further item adds.
fn extend(adds: &mut Adds, more: Adds) -> Result<(), VerilogFault>
    ensures err { IfErr result (λ fault. fault ≡ NoMemory) }
    ensures ok { OnOk result (adds.new ≡ modules.together adds.old more) }
{
    adds.declared.append(more.declared)?;
    adds.parts.append(more.parts)?;
    Ok(())
}

/// Adds the items of a module, up to and with its `endmodule`.
fn add_items<'a>(
    alloc: Global,
    adds: &mut Adds,
    ts: &'a [Lexeme],
) -> Result<&'a [Lexeme], VerilogFault>
    requires declared { adds.old.declared ≡ [] }
    requires parts { adds.old.parts ≡ [] }
    ensures reads { Answers want (λ rest. (adds.new, rest.now)) result (modules.items (length ts.now + 1) ts.now) }
{
    let mut rest = ts;
    let bound = ts.len() + 1;
    'items: for _ in 0..bound {
        if is_endmodule(sort_of(rest)) {
            return Ok(rest_of(rest));
        }
        let here = attributes(rest)?;
        let (more, after) = item(alloc, here)?;
        extend(adds, more)?;
        rest = after;
    }
    Err(refused(Due::Nothing, rest))
}

/// The items of a module, up to and with its `endmodule`.
fn items(alloc: Global, ts: &[Lexeme]) -> Result<(Adds, &[Lexeme]), VerilogFault>
    ensures reads { spec.Reads (λ a. a) result (modules.items (length ts.now + 1) ts.now) }
{
    let mut adds = placing(alloc, List::new(alloc));
    match add_items(alloc, &mut adds, ts) {
        Ok(rest) => Ok((adds, rest)),
        Err(fault) => {
            drop(adds);
            Err(fault)
        }
    }
}

/// A module with these ports and items.
fn module_of(ports: Ports, body: Adds) -> Result<Module, VerilogFault>
    ensures { Answers want (λ m. m) result (Ok (record { header = ports.header; declared = ports.declared ++ body.declared; parts = body.parts })) }
{
    let mut declared = ports.declared;
    match declared.append(body.declared) {
        Ok(()) => Ok(Module {
            header: ports.header,
            declared,
            parts: body.parts,
        }),
        Err(_) => {
            drop(body.parts);
            Err(VerilogFault::NoMemory)
        }
    }
}

/// A module after its `module`.
#[tactic(auto, unfolding(crate::specs::Modules::top))]
fn top(alloc: Global, ts: &[Lexeme]) -> Result<(Module, &[Lexeme]), VerilogFault>
    ensures reads { spec.Reads (λ m. m) result (modules.top ts.now) }
{
    let (_, rest) = expect_name(ts)?;
    let (ports, rest) = header(alloc, rest)?;
    let (body, rest) = items(alloc, rest)?;
    let module = module_of(ports, body)?;
    Ok((module, rest))
}

/// After the next `endmodule`, whatever stands before it.
fn skipped(ts: &[Lexeme]) -> Result<&[Lexeme], VerilogFault>
    ensures skips { spec.Skips result (modules.skipped ts.now) }
{
    let mut rest = ts;
    while rest.len() > 0 {
        if is_endmodule(sort_of(rest)) {
            return Ok(rest_of(rest));
        }
        if is_end(sort_of(rest)) {
            return Err(VerilogFault::Syntax(place_of(rest)));
        }
        rest = rest_of(rest);
    }
    Ok(rest)
}

/// After a cell that follows the top module.
#[tactic(auto, unfolding(crate::specs::Modules::further))]
fn further(ts: &[Lexeme]) -> Result<&[Lexeme], VerilogFault>
    ensures skips { spec.Skips result (modules.further ts.now) }
{
    let here = attributes(ts)?;
    let inside = begun(here)?;
    if is_cell(sort_of(inside)) {
        skipped(inside)
    } else if is_name(sort_of(inside)) {
        Err(VerilogFault::Unsupported(place_of(here), What::Hierarchy))
    } else {
        Err(refused(Due::Nothing, inside))
    }
}

/// After the cells that follow the top module.
fn cells(ts: &[Lexeme]) -> Result<&[Lexeme], VerilogFault>
    ensures skips { spec.Skips result (modules.cells (length ts.now + 1) ts.now) }
{
    let mut rest = ts;
    let bound = ts.len() + 1;
    'cells: for _ in 0..bound {
        if is_end(sort_of(rest)) {
            return Ok(rest);
        }
        rest = further(rest)?;
    }
    Err(refused(Due::Nothing, rest))
}

/// After the cells before the top module, and its `module`.
fn leading(ts: &[Lexeme]) -> Result<&[Lexeme], VerilogFault>
    ensures skips { spec.Skips result (modules.leading (length ts.now + 1) ts.now) }
{
    let mut rest = ts;
    let bound = ts.len() + 1;
    'cells: for _ in 0..bound {
        let inside = begun(rest)?;
        if !is_cell(sort_of(inside)) {
            return Ok(inside);
        }
        rest = skipped(inside)?;
    }
    Err(refused(Due::Nothing, rest))
}

/// What the lexemes of a text say: cells, the top module, and cells.
#[tactic(auto, unfolding(crate::specs::Modules::syntax_of))]
pub fn syntax(alloc: Global, ts: &[Lexeme]) -> Result<Module, VerilogFault>
    ensures reads { Answers want (λ m. m) result (modules.syntax_of ts.now) }
{
    let inside = leading(ts)?;
    let (module, rest) = top(alloc, inside)?;
    match cells(rest) {
        Ok(_) => Ok(module),
        Err(fault) => {
            drop(module);
            Err(fault)
        }
    }
}
