//! The reader of a netlist text.
ghost use Rattle.std.specs.Prelude.{◌≤◌, length, Ok};
ghost use Rattle.bs_net.specs.Netlist.{parts_of};
ghost use Rattle.bs_lex.specs.declared.limits.TheConstants.{MAX_BYTES};
ghost use Rattle.bs_verilog.specs.Netlist as spec;
ghost use Rattle.bs_bits.specs.Reading.{Answers};
ghost use Rattle.bs_verilog_syntax.specs.declared.fault.VerilogFault.TheVariants.{NoMemory as want};

use crate::netlist::meaning;
use bs_bits::List;
use bs_lex::{LexFault, Lexeme, NameTable, lexemes};
use bs_net::Raw;
use bs_verilog_syntax::{Module, VerilogFault, syntax};
use std::alloc::Global;

/// The lexemes of a text and its names. A place where no token begins is a fault of syntax.
fn lexed(alloc: Global, bytes: &[u8]) -> Result<(List<Lexeme>, NameTable), VerilogFault>
    requires { length bytes.now ≤ MAX_BYTES }
    ensures { Answers want (λ x. x) result (spec.lexed_text bytes.now) }
{
    match lexemes(alloc, bytes) {
        Ok(both) => Ok(both),
        Err(LexFault::BadByte(at)) => Err(VerilogFault::Syntax(at)),
        Err(LexFault::NoMemory) => Err(VerilogFault::NoMemory),
    }
}

/// The module of a text as written, and the text's names. The lexemes are let go.
fn module(alloc: Global, bytes: &[u8]) -> Result<(Module, NameTable), VerilogFault>
    requires { length bytes.now ≤ MAX_BYTES }
    ensures { Answers want (λ x. x) result (spec.module_text bytes.now) }
{
    let (lexemes, table) = lexed(alloc, bytes)?;
    let parsed = syntax(alloc, lexemes.slice());
    drop(lexemes);
    match parsed {
        Ok(module) => Ok((module, table)),
        Err(fault) => {
            drop(table);
            Err(fault)
        }
    }
}

/// The netlist that a text of at most 16 MiB is (docs/FORMATS.md, "Netlists"): its names in the order of their
/// numbers, ports, constants, gates and flip-flops. Otherwise the first fault of the earliest of four passes: tokens,
/// grammar, declarations, terms.
#[tactic(auto, using(crate::proofs::ReaderLemmas::passes))]
pub fn read(alloc: Global, bytes: &[u8]) -> Result<Raw, VerilogFault>
    requires { length bytes.now ≤ MAX_BYTES }
    ensures { Answers want parts_of result (spec.netlist_text bytes.now) }
{
    let (module, table) = module(alloc, bytes)?;
    meaning(alloc, &table, &module)
}
