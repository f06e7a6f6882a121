//! The names of the modules of a text, by their numbers.
ghost use Rattle.std.specs.Prelude.{◌≡◌, map, IfOk};
ghost use Rattle.bs_flat_meaning.specs.Pieces as pieces;
ghost use Rattle.bs_flat_modules.specs.Names as spec;

use crate::copying::part;
use crate::dealing::{ModuleSpan, deal};
use bs_bits::{List, NoMemory};
use bs_lex::{Lexeme, is_name};
use bs_verilog_syntax::{name_of, rest_of, sort_of};
use std::alloc::Global;

/// The number of the name of a module with this body, if it has a name.
fn id_of(body: &[Lexeme]) -> Option<u32>
    ensures { result ≡ spec.id_of body.now }
{
    let inside = rest_of(body);
    if is_name(sort_of(inside)) {
        Some(name_of(inside).id)
    } else {
        None
    }
}

/// The same of the modules at these places.
fn ids_at(
    alloc: Global,
    ts: &[Lexeme],
    modules: &[ModuleSpan],
) -> Result<List<Option<u32>>, NoMemory>
    ensures { IfOk result (λ ids. ids ≡ spec.ids_at ts.now modules.now) }
{
    let mut ids = List::new(alloc);
    'modules: for place in modules {
        let id = id_of(part(ts, place.body, place.stop));
        ids.push(id)?;
    }
    Ok(ids)
}

/// The numbers of the names of the modules of a text that are no cells, in file order.
#[tactic(auto, using(crate::proofs::IdLemmas::ids_are))]
pub fn module_ids(alloc: Global, ts: &[Lexeme]) -> Result<List<Option<u32>>, NoMemory>
    ensures { IfOk result (λ ids. ids ≡ map pieces.name_id (pieces.modules_of ts.now)) }
{
    let dealt = deal(alloc, ts)?;
    let ids = ids_at(alloc, ts, dealt.modules.slice())?;
    Ok(ids)
}
