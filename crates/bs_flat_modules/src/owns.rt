//! The own text of each module, and what it says.
ghost use Rattle.std.specs.Prelude.{◌≡◌, ◌<◌, ◌≤◌, [], ◌∷◌, ◌++◌, length, map, IfErr, IfOk, OnOk};
ghost use Rattle.bs_bits.specs.Reading.{Answers};
ghost use Rattle.bs_verilog_scope.specs.Checking.{marked};
ghost use Rattle.bs_verilog_syntax.specs.declared.fault.VerilogFault.TheVariants.{NoMemory as want};
ghost use Rattle.bs_flat_meaning.specs.declared.fault.FlatFault.TheVariants.{OwnNets, NoMemory as no_memory};
ghost use Rattle.bs_flat_meaning.specs.Reading.{as_verilog};
ghost use Rattle.bs_flat_modules.specs.Owns as spec;
ghost use Rattle.bs_flat_modules.specs.Alone as alone_spec;
ghost use Rattle.bs_flat_modules.specs.Reading.{fault_of};

use crate::alone::is_shut;
use crate::copying::{copy, part};
use crate::dealing::ModuleSpan;
use crate::items::{item_size, own_items, written_items};
use bs_bits::{List, NoMemory};
use bs_flat_meaning::{FlatFault, MAX_OWN_NETS, Written};
use bs_lex::{Lexeme, NameTable};
use bs_net::Raw;
use bs_verilog::meaning;
use bs_verilog_scope::NameMarks;
use bs_verilog_syntax::{Module, VerilogFault, place_of, syntax};
use std::alloc::Global;

/// What a module's own text says, and the parts that it builds.
#[derive(Drop)]
pub struct Own {
    pub says: Module,
    pub parts: Raw,
}

/// The modules of a text that are no cells, in file order: what the own text of each says with the parts that it builds, and the
/// instances that each writes.
#[derive(Drop)]
pub struct Modules {
    pub owns: List<Own>,
    pub written: List<List<Written>>,
}

/// Adds the own text of a module with this body.
fn own_body(own: &mut List<Lexeme>, marks: &NameMarks, body: &[Lexeme]) -> Result<(), NoMemory>
    ensures { OnOk result (own.new ≡ own.old ++ spec.own_body (marked marks.now) body.now) }
{
    let size = item_size(body);
    copy(own, part(body, 0, size))?;
    own_items(own, marks, &body[size..])?;
    Ok(())
}

/// The own text of the module at a place: with all that stands outside the modules, where it stands.
fn own_text(
    alloc: Global,
    ts: &[Lexeme],
    others: &[Lexeme],
    marks: &NameMarks,
    place: ModuleSpan,
) -> Result<List<Lexeme>, NoMemory>
    ensures { IfOk result (λ own. own ≡ spec.own_text (marked marks.now) others.now ts.now place) }
{
    let mut own = List::new(alloc);
    copy(&mut own, part(others, 0, place.before))?;
    copy(&mut own, part(ts, place.from, place.body))?;
    own_body(&mut own, marks, part(ts, place.body, place.stop))?;
    copy(&mut own, part(others, place.before, others.len()))?;
    Ok(own)
}

/// What an own text says, and the parts that it builds.
fn said(alloc: Global, table: &NameTable, own: &[Lexeme]) -> Result<Own, VerilogFault>
    ensures { Answers want spec.module_and_parts result (spec.said table.now own.now) }
{
    let says = syntax(alloc, own)?;
    match meaning(alloc, table, &says) {
        Ok(parts) => Ok(Own { says, parts }),
        Err(fault) => {
            drop(says);
            Err(fault)
        }
    }
}

/// The own text of the module at a place, without what stands outside the modules.
fn alone_text(
    alloc: Global,
    ts: &[Lexeme],
    marks: &NameMarks,
    place: ModuleSpan,
) -> Result<List<Lexeme>, NoMemory>
    ensures { IfOk result (λ own. own ≡ alone_spec.own_alone (marked marks.now) ts.now place) }
{
    let mut own = List::new(alloc);
    copy(&mut own, part(ts, place.from, place.body))?;
    own_body(&mut own, marks, part(ts, place.body, place.stop))?;
    Ok(own)
}

/// What an own text says that is shut; nothing where it is not, or has a fault.
fn said_shut(alloc: Global, table: &NameTable, own: &[Lexeme]) -> Result<Option<Own>, NoMemory>
    ensures { IfOk result (λ o. alone_spec.IsSaidOf table.now own.now o) }
{
    if !is_shut(own) {
        return Ok(None);
    }
    match said(alloc, table, own) {
        Ok(own) => Ok(Some(own)),
        Err(VerilogFault::NoMemory) => Err(NoMemory),
        Err(_) => Ok(None),
    }
}

/// What the module at a place says alone, if what stands outside the modules need not be read with it.
fn said_alone(
    alloc: Global,
    table: &NameTable,
    ts: &[Lexeme],
    marks: &NameMarks,
    place: ModuleSpan,
    tidy: bool,
) -> Result<Option<Own>, NoMemory>
    ensures { IfOk result (λ o. alone_spec.IsSaidWhere tidy table.now (alone_spec.own_alone (marked marks.now) ts.now place) o) }
{
    if !tidy {
        return Ok(None);
    }
    let own = alone_text(alloc, ts, marks, place)?;
    let said = said_shut(alloc, table, own.slice())?;
    Ok(said)
}

/// What the own text of the module at a place says, read with what stands outside the modules.
fn said_among(
    alloc: Global,
    table: &NameTable,
    ts: &[Lexeme],
    others: &[Lexeme],
    marks: &NameMarks,
    place: ModuleSpan,
) -> Result<Own, VerilogFault>
    ensures { Answers want spec.module_and_parts result (spec.said table.now (spec.own_text (marked marks.now) others.now ts.now place)) }
{
    let own = own_text(alloc, ts, others, marks, place)?;
    let said = said(alloc, table, own.slice())?;
    Ok(said)
}

/// What the own text of the module at a place says: read alone where that is the same, and else with what stands outside.
fn own_said(
    alloc: Global,
    table: &NameTable,
    ts: &[Lexeme],
    others: &[Lexeme],
    marks: &NameMarks,
    place: ModuleSpan,
    tidy: bool,
) -> Result<Own, VerilogFault>
    requires { alone_spec.IsAlikeWhere tidy others.now place }
    ensures { Answers want spec.module_and_parts result (spec.said table.now (spec.own_text (marked marks.now) others.now ts.now place)) }
{
    match said_alone(alloc, table, ts, marks, place, tidy)? {
        Some(own) => Ok(own),
        None => said_among(alloc, table, ts, others, marks, place),
    }
}

/// A refusal of a module's own text, or of an instance statement.
pub fn fault_of(fault: VerilogFault) -> FlatFault
    ensures { result ≡ fault_of fault }
{
    match fault {
        VerilogFault::NoMemory => FlatFault::NoMemory,
        _ => FlatFault::Verilog(fault),
    }
}

/// What the own text of the module at a place says, or why the text is refused.
fn read_own(
    alloc: Global,
    table: &NameTable,
    ts: &[Lexeme],
    others: &[Lexeme],
    marks: &NameMarks,
    place: ModuleSpan,
    tidy: bool,
) -> Result<Own, FlatFault>
    requires { alone_spec.IsAlikeWhere tidy others.now place }
    ensures { Answers no_memory spec.module_and_parts result (as_verilog (spec.said table.now (spec.own_text (marked marks.now) others.now ts.now place))) }
{
    match own_said(alloc, table, ts, others, marks, place, tidy) {
        Ok(own) => Ok(own),
        Err(fault) => Err(fault_of(fault)),
    }
}

/// A module whose nets are no more than there is room for; else the module at this place is refused.
fn fitted(own: Own, room: u32, at: u32) -> Result<Own, FlatFault>
    ensures fits { IfOk result (λ o. (o ≡ own) × (length own.parts.names ≤ room)) }
    ensures refused { IfErr result (λ fault. (fault ≡ OwnNets at) × (room < length own.parts.names)) }
{
    if own.parts.names.len() > room {
        drop(own);
        Err(FlatFault::OwnNets(at))
    } else {
        Ok(own)
    }
}

/// Puts a module at the end.
fn push_own(owns: &mut List<Own>, own: Own) -> Result<(), FlatFault>
    ensures ok { OnOk result (owns.new ≡ owns.old ++ own ∷ []) }
    ensures err { IfErr result (λ fault. fault ≡ no_memory) }
{
    match owns.push(own) {
        Ok(()) => Ok(()),
        Err(_) => Err(FlatFault::NoMemory),
    }
}

/// What the own text of each module says, or the first fault, or the first module by which their nets pass `MAX_OWN_NETS`. The
/// flag says that a module says alone what it says with what stands outside the modules.
pub fn read_owns(
    alloc: Global,
    table: &NameTable,
    ts: &[Lexeme],
    others: &[Lexeme],
    marks: &NameMarks,
    modules: &[ModuleSpan],
    tidy: bool,
) -> Result<List<Own>, FlatFault>
    requires { alone_spec.AlikeWhere tidy others.now modules.now }
    ensures { Answers no_memory (λ os. map spec.module_and_parts os) result (spec.owns table.now (marked marks.now) others.now ts.now modules.now) }
{
    let mut owns = List::new(alloc);
    let mut room = MAX_OWN_NETS;
    'modules: for place in modules {
        let at = place_of(part(ts, place.body, place.stop));
        let read = read_own(alloc, table, ts, others, marks, *place, tidy)?;
        let own = fitted(read, room, at)?;
        room -= own.parts.names.len();
        push_own(&mut owns, own)?;
    }
    Ok(owns)
}

/// The instances that a module with this body writes.
fn written(alloc: Global, marks: &NameMarks, body: &[Lexeme]) -> Result<List<Written>, VerilogFault>
    ensures { Answers want (λ ws. ws) result (spec.written (marked marks.now) body.now) }
{
    let size = item_size(body);
    let written = written_items(alloc, marks, &body[size..])?;
    Ok(written)
}

/// The instances that each module writes, or the first fault of an instance statement.
pub fn read_written(
    alloc: Global,
    ts: &[Lexeme],
    marks: &NameMarks,
    modules: &[ModuleSpan],
) -> Result<List<List<Written>>, VerilogFault>
    ensures { Answers want (λ ws. ws) result (spec.all_written (marked marks.now) ts.now modules.now) }
{
    let mut all = List::new(alloc);
    'modules: for place in modules {
        let written = written(alloc, marks, part(ts, place.body, place.stop))?;
        all.push(written)?;
    }
    Ok(all)
}
