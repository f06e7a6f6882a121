//! The netlist of a text of one module.
ghost use Rattle.bs_bits.specs.Reading.{Answers};
ghost use Rattle.bs_net.specs.Netlist.{parts_of};
ghost use Rattle.bs_verilog_syntax.specs.declared.fault.VerilogFault.TheVariants.{NoMemory as out_of_memory};
ghost use Rattle.bs_verilog_syntax.specs.Modules.{syntax_of};
ghost use Rattle.bs_verilog.specs.Netlist.{meaning_of};
ghost use Rattle.bs_flat_meaning.specs.declared.fault.FlatFault.TheVariants.{NoMemory as want};
ghost use Rattle.bs_flat_meaning.specs.Reading.{as_verilog};
ghost use Rattle.bs_top_files.specs.Modules as spec;

use bs_bits::List;
use bs_flat_meaning::FlatFault;
use bs_lex::{Lexeme, NameTable};
use bs_net::Raw;
use bs_verilog::meaning;
use bs_verilog_syntax::{Module, VerilogFault, syntax};
use std::alloc::Global;

/// What a module says that is alone. The lexemes are let go.
fn says(alloc: Global, ts: List<Lexeme>) -> Result<Module, VerilogFault>
    ensures { Answers out_of_memory (λ m. m) result (syntax_of ts) }
{
    let says = syntax(alloc, ts.slice())?;
    Ok(says)
}

/// The netlist of what one module says, which is let go.
fn meant(alloc: Global, table: &NameTable, says: Module) -> Result<Raw, VerilogFault>
    ensures { Answers out_of_memory parts_of result (meaning_of table.now says) }
{
    let raw = meaning(alloc, table, &says);
    drop(says);
    raw
}

/// The netlist of the lexemes of one module.
fn single(alloc: Global, table: &NameTable, ts: List<Lexeme>) -> Result<Raw, VerilogFault>
    ensures { Answers out_of_memory parts_of result (spec.single_of table.now ts) }
{
    let says = says(alloc, ts)?;
    let raw = meant(alloc, table, says)?;
    Ok(raw)
}

/// The netlist of the lexemes of one module, or its first fault.
pub fn read_single(alloc: Global, table: &NameTable, ts: List<Lexeme>) -> Result<Raw, FlatFault>
    ensures { Answers want parts_of result (as_verilog (spec.single_of table.now ts)) }
{
    match single(alloc, table, ts) {
        Ok(raw) => Ok(raw),
        Err(VerilogFault::NoMemory) => Err(FlatFault::NoMemory),
        Err(fault) => Err(FlatFault::Verilog(fault)),
    }
}
