//! The reader of a netlist text.
ghost use Rattle.std.specs.Prelude.{◌≡◌, ◌≤◌, length, map};
ghost use Rattle.bs_bits.specs.Reading.{Answers};
ghost use Rattle.bs_lex.specs.declared.limits.TheConstants.{MAX_BYTES};
ghost use Rattle.bs_flat_meaning.specs.Pieces.{modules_of, name_id};
ghost use Rattle.bs_flat_meaning.specs.declared.fault.FlatFault.TheVariants.{NoMemory as want};
ghost use Rattle.bs_top_files.specs.Answers as spec;
ghost use Rattle.bs_top_files.specs.Modules.{AreOfText};

use crate::several::read_several;
use crate::single::read_single;
use bs_bits::List;
use bs_flat_meaning::FlatFault;
use bs_flat_modules::module_ids;
use bs_lex::{LexFault, Lexeme, NameTable, lexemes};
use bs_net::Raw;
use bs_verilog_syntax::VerilogFault;
use std::alloc::Global;

/// What the lexemes of a text are answered with: as one module where there are fewer than two, cells aside.
fn read_lexemes(alloc: Global, table: &NameTable, ts: List<Lexeme>) -> Result<Raw, FlatFault>
    requires { AreOfText table.now ts }
    ensures { spec.IsLexed table.now ts result }
{
    let ids = match module_ids(alloc, ts.slice()) {
        Ok(ids) => ids,
        Err(_) => return Err(FlatFault::NoMemory),
    };
    if ids.len() < 2 {
        read_single(alloc, table, ts)
    } else {
        read_several(alloc, table, ts, ids.slice())
    }
}

/// A place where no token begins is a fault of syntax.
fn fault_of(fault: LexFault) -> FlatFault
    ensures { result ≡ spec.fault_of fault }
{
    match fault {
        LexFault::BadByte(at) => FlatFault::Verilog(VerilogFault::Syntax(at)),
        LexFault::NoMemory => FlatFault::NoMemory,
    }
}

/// The netlist that a text of at most 16 MiB is (docs/FORMATS.md, "Netlists"): of one module its own, of several the flat
/// netlist of the design; or the first refusal.
pub fn read(alloc: Global, bytes: &[u8]) -> Result<Raw, FlatFault>
    requires { length bytes.now ≤ MAX_BYTES }
    ensures { spec.IsAnswered bytes.now result }
{
    match lexemes(alloc, bytes) {
        Ok((ts, table)) => read_lexemes(alloc, &table, ts),
        Err(fault) => Err(fault_of(fault)),
    }
}
