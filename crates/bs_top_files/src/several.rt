//! The netlist of a text of several modules.
ghost use Rattle.std.specs.Prelude.{◌≡◌, ◌<◌, ◌^◌, length, map, IfOk, IsTrue};
ghost use Rattle.std.specs.List.{All};
ghost use Rattle.bs_bits.specs.Reading.{Answers};
ghost use Rattle.bs_flat_meaning.specs.declared.fault.FlatFault.TheVariants.{NoMemory as want};
ghost use Rattle.bs_flat_meaning.specs.Reading as reading;
ghost use Rattle.bs_flat_meaning.specs.Pieces.{modules_of, name_id};
ghost use Rattle.bs_net.specs.Netlist.{parts_of};
ghost use Rattle.bs_net.specs.Gate.{takes};
ghost use Rattle.bs_flat_meaning.specs.Flat.{IsDesign};
ghost use Rattle.bs_flat_nets.specs.Blocks.{AreThere, design_of, module_of};
ghost use Rattle.bs_flat_nets.specs.Order.{IsChildrenFirst};
ghost use Rattle.bs_flat_meaning.specs.Refusals.{HasOneTop};
ghost use Rattle.bs_flat_modules.specs.Reading.{AreAll, read_modules_of};
ghost use Rattle.bs_top_files.specs.Modules as spec;

use bs_bits::List;
use bs_flat_connect::connect;
use bs_flat_elaborate::elaborate;
use bs_flat_meaning::{FlatFault, Ranked, expect_one_top};
use bs_flat_modules::{Modules, read_modules};
use bs_flat_nets::FlatModule;
use bs_lex::{Lexeme, NameTable};
use bs_net::Raw;
use std::alloc::Global;

/// The first of the modules that none instances; 0 where there is none.
fn top_of(ranked: &Ranked) -> u32
    ensures { result ≡ reading.first_top ranked.now.tops }
{
    if ranked.tops.len() == 0 {
        0
    } else {
        *ranked.tops.get(0)
    }
}

/// The flat netlist of blocks, in an order of which one at most is a top.
fn flat(alloc: Global, blocks: List<FlatModule>, ranked: Ranked) -> Result<Raw, FlatFault>
    requires order { IsChildrenFirst (map module_of blocks) ranked.order }
    requires there { AreThere blocks }
    requires takes { All (λ b. All (λ g. IsTrue (takes g.kind (length g.ins))) b.gates) blocks }
    requires design { IsDesign (design_of blocks (reading.first_top ranked.tops)) }
    ensures { Answers want parts_of result (reading.elaborated (design_of blocks (reading.first_top ranked.tops))) }
{
    let top = top_of(&ranked);
    if top as usize >= blocks.len() {
        return Err(FlatFault::NoMemory);
    }
    let raw = elaborate(alloc, blocks.slice(), ranked.order.slice(), top)?;
    Ok(raw)
}

/// The flat netlist of modules without a ring, of which one at most is a top. `ids` has the number of each module's name.
fn flatten(
    alloc: Global,
    table: &NameTable,
    ids: &[Option<u32>],
    modules: Modules,
    ranked: Ranked,
) -> Result<Raw, FlatFault>
    requires owns { length modules.owns ≡ length ids.now }
    requires written { length modules.written ≡ length ids.now }
    requires named { spec.HasModules ids.now }
    requires read { All (reading.IsRead table.now) (read_modules_of modules) }
    requires ranked { HasOneTop ids.now modules.written ranked }
    ensures { spec.Flattens table.now ids.now modules result }
{
    match connect(alloc, table, ranked.below.slice(), ids, modules) {
        Ok(blocks) => flat(alloc, blocks, ranked),
        Err(fault) => Err(fault),
    }
}

/// What modules are answered with that were read. `ids` has the number of each module's name.
fn answer(
    alloc: Global,
    table: &NameTable,
    ids: &[Option<u32>],
    modules: Modules,
) -> Result<Raw, FlatFault>
    requires few { length ids.now < 2 ^ 32 }
    requires owns { length modules.owns ≡ length ids.now }
    requires written { length modules.written ≡ length ids.now }
    requires named { spec.HasModules ids.now }
    requires read { All (reading.IsRead table.now) (read_modules_of modules) }
    ensures { spec.AnswersModules table.now ids.now modules result }
{
    match expect_one_top(alloc, table, ids, modules.written.slice()) {
        Ok(ranked) => flatten(alloc, table, ids, modules, ranked),
        Err(fault) => Err(fault),
    }
}

/// The modules of a text, all of which are whole by the law. The lexemes are let go.
fn modules(alloc: Global, table: &NameTable, ts: List<Lexeme>) -> Result<Modules, FlatFault>
    requires { spec.AreOfText table.now ts }
    ensures read { Answers want read_modules_of result (reading.read_modules table.now ts) }
    ensures whole { IfOk result (λ m. All (reading.IsRead table.now) (read_modules_of m)) }
    ensures all { IfOk result (λ m. AreAll ts m) }
{
    let read = read_modules(alloc, table, ts.slice())?;
    Ok(read)
}

/// What the lexemes of several modules are answered with. `ids` has the number of each module's name.
pub fn read_several(
    alloc: Global,
    table: &NameTable,
    ts: List<Lexeme>,
    ids: &[Option<u32>],
) -> Result<Raw, FlatFault>
    requires few { length ids.now < 2 ^ 32 }
    requires text { spec.AreOfText table.now ts }
    requires ids { ids.now ≡ map name_id (modules_of ts) }
    ensures { spec.IsSeverally table.now ts result }
{
    let read = modules(alloc, table, ts)?;
    answer(alloc, table, ids, read)
}
