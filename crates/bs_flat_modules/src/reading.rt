//! The modules of a text of several, read one by one.
ghost use Rattle.std.specs.Prelude.{◌≡◌, map, IfOk, MatchResult, None};
ghost use Rattle.bs_bits.specs.Reading.{Answers};
ghost use Rattle.bs_verilog_syntax.specs.declared.fault.VerilogFault.TheVariants.{NoMemory as out_of_memory};
ghost use Rattle.bs_verilog_scope.specs.Checking.{Checks, marked};
ghost use Rattle.bs_verilog_scope.specs.Declaring.{is_in, repeated_fault};
ghost use Rattle.bs_flat_meaning.specs.declared.fault.FlatFault.TheVariants.{NoMemory as want};
ghost use Rattle.bs_flat_meaning.specs.Reading as flat;
ghost use Rattle.bs_flat_modules.specs.Dealing.{IsDealt};
ghost use Rattle.bs_flat_modules.specs.Names as naming;
ghost use Rattle.bs_flat_modules.specs.Owns.{all_written, module_and_parts};
ghost use Rattle.bs_flat_modules.specs.Reading as spec;

use crate::alone::is_tidy;
use crate::dealing::{Dealt, ModuleSpan, deal};
use crate::names::{all_apart, are_rising, heads};
use crate::owns::{Modules, Own, fault_of, read_owns, read_written};
use bs_bits::List;
use bs_flat_meaning::FlatFault;
use bs_lex::{Lexeme, NameTable};
use bs_verilog_scope::{NameMarks, header_marks};
use bs_verilog_syntax::VerilogFault;
use std::alloc::Global;

/// A refusal of a name that stands twice.
fn twice_of(fault: VerilogFault) -> FlatFault
    ensures { result ≡ spec.twice_of fault }
{
    match fault {
        VerilogFault::Redeclared(at) => FlatFault::Twice(at),
        _ => FlatFault::NoMemory,
    }
}

/// The text dealt out. Places that do not rise, which no text has, are answered as out of memory.
fn dealt_out(alloc: Global, ts: &[Lexeme]) -> Result<Dealt, VerilogFault>
    ensures { MatchResult result (λ d. spec.IsDealtOut ts.now d) (λ fault. fault ≡ out_of_memory) }
{
    let dealt = deal(alloc, ts)?;
    if are_rising(ts, dealt.modules.slice()) {
        Ok(dealt)
    } else {
        Err(VerilogFault::NoMemory)
    }
}

/// The names of the modules, marked; a name that stands twice is refused.
fn marks_of(alloc: Global, ts: &[Lexeme], dealt: &Dealt) -> Result<NameMarks, VerilogFault>
    ensures { Checks result (repeated_fault (naming.heads ts.now dealt.now.modules)) (λ m. marked m ≡ is_in (naming.heads ts.now dealt.now.modules)) }
{
    let names = heads(alloc, ts, dealt.modules.slice())?;
    let marks = header_marks(alloc, names.slice())?;
    Ok(marks)
}

/// What was read of the own texts, and the instances.
fn with_written(
    alloc: Global,
    ts: &[Lexeme],
    marks: &NameMarks,
    modules: &[ModuleSpan],
    owns: List<Own>,
) -> Result<Modules, FlatFault>
    ensures { Answers want spec.parts_read result (spec.with_written (map module_and_parts owns) (all_written (marked marks.now) ts.now modules.now)) }
{
    match read_written(alloc, ts, marks, modules) {
        Ok(written) => Ok(Modules { owns, written }),
        Err(fault) => {
            drop(owns);
            Err(fault_of(fault))
        }
    }
}

/// What the own texts say, and then the instances.
fn read_all(
    alloc: Global,
    table: &NameTable,
    ts: &[Lexeme],
    dealt: &Dealt,
    marks: &NameMarks,
) -> Result<Modules, FlatFault>
    requires { IsDealt ts.now dealt.now }
    ensures { Answers want spec.parts_read result (spec.all_read table.now (marked marks.now) ts.now dealt.now) }
{
    let modules = dealt.modules.slice();
    let tidy = match is_tidy(ts) {
        Ok(tidy) => tidy,
        Err(_) => return Err(FlatFault::NoMemory),
    };
    match read_owns(alloc, table, ts, dealt.others.slice(), marks, modules, tidy) {
        Ok(owns) => with_written(alloc, ts, marks, modules, owns),
        Err(fault) => Err(fault),
    }
}

/// The modules, where no instance name stands twice within one.
fn with_names_apart(alloc: Global, read: Modules) -> Result<Modules, FlatFault>
    ensures { Answers want (λ m. m) result (spec.apart read) }
{
    match all_apart(alloc, read.written.slice()) {
        Ok(()) => Ok(read),
        Err(fault) => {
            drop(read);
            Err(twice_of(fault))
        }
    }
}

/// The modules of a text that was dealt out, with its modules' names marked.
fn read_marked(
    alloc: Global,
    table: &NameTable,
    ts: &[Lexeme],
    dealt: &Dealt,
    marks: &NameMarks,
) -> Result<Modules, FlatFault>
    requires dealt { spec.IsDealtOut ts.now dealt.now }
    requires marks { marked marks.now ≡ is_in (naming.heads ts.now dealt.now.modules) }
    requires apart { repeated_fault (naming.heads ts.now dealt.now.modules) ≡ None }
    ensures read { Answers want spec.read_modules_of result (flat.read_modules table.now ts.now) }
    ensures all { IfOk result (λ m. spec.AreAll ts.now m) }
{
    match read_all(alloc, table, ts, dealt, marks) {
        Ok(read) => with_names_apart(alloc, read),
        Err(fault) => Err(fault),
    }
}

/// The modules of a text that was dealt out.
fn read_dealt(
    alloc: Global,
    table: &NameTable,
    ts: &[Lexeme],
    dealt: &Dealt,
) -> Result<Modules, FlatFault>
    requires { spec.IsDealtOut ts.now dealt.now }
    ensures read { Answers want spec.read_modules_of result (flat.read_modules table.now ts.now) }
    ensures all { IfOk result (λ m. spec.AreAll ts.now m) }
{
    match marks_of(alloc, ts, dealt) {
        Ok(marks) => read_marked(alloc, table, ts, dealt, &marks),
        Err(fault) => Err(twice_of(fault)),
    }
}

/// The modules of a text with these lexemes, read one by one: its first refusal up to a second instance name within a module,
/// else what each says, with the parts that its own text builds, and its instances as they are written.
pub fn read_modules(alloc: Global, table: &NameTable, ts: &[Lexeme]) -> Result<Modules, FlatFault>
    ensures read { Answers want spec.read_modules_of result (flat.read_modules table.now ts.now) }
    ensures all { IfOk result (λ m. spec.AreAll ts.now m) }
{
    match dealt_out(alloc, ts) {
        Ok(dealt) => read_dealt(alloc, table, ts, &dealt),
        Err(_) => Err(FlatFault::NoMemory),
    }
}
