//! Each instance by the number of its module.
ghost use Rattle.std.specs.Prelude.{◌≡◌, ◌<◌, ◌^◌, length, map, None, Some, slice_index_or, All, IfOk};
ghost use Rattle.bs_flat_meaning.specs.ModuleNumbers as spec;

use crate::places::places;
use crate::statements::Written;
use bs_bits::{List, NoMemory};
use std::alloc::Global;

/// The place of a name in a table.
fn place_at(table: &[Option<u32>], id: u32) -> Option<u32>
    ensures { result ≡ slice_index_or table.now id None }
{
    let id = id as usize;
    if id < table.len() { table[id] } else { None }
}

/// The modules of some instances, by a table of places. A name without a place is answered as out of memory.
fn numbers(alloc: Global, table: &[Option<u32>], written: &[Written]) -> Result<List<u32>, NoMemory>
    ensures { IfOk result (λ ns. map Some ns ≡ map (spec.looked_up table.now) written.now) }
{
    let mut all = List::new(alloc);
    'written: for w in written {
        match place_at(table, w.of.id) {
            Some(place) => all.push(place)?,
            None => return Err(NoMemory),
        }
    }
    Ok(all)
}

/// The same of the instances of each module.
fn all_numbers(
    alloc: Global,
    table: &[Option<u32>],
    written: &[List<Written>],
) -> Result<List<List<u32>>, NoMemory>
    ensures { IfOk result (λ all. map (map Some) all ≡ map (map (spec.looked_up table.now)) written.now) }
{
    let mut all = List::new(alloc);
    'modules: for one in written {
        let of = numbers(alloc, table, one.slice())?;
        all.push(of)?;
    }
    Ok(all)
}

/// For each module the numbers of the modules that it instances, in file order: `ids` has the number of each module's name, and
/// `written` the instances that each writes. That one is of no module, as in no text, is answered as out of memory.
pub fn module_numbers(
    alloc: Global,
    ids: &[Option<u32>],
    written: &[List<Written>],
) -> Result<List<List<u32>>, NoMemory>
    requires few { length ids.now < 2 ^ 32 }
    ensures numbers { IfOk result (λ below. below ≡ spec.numbers_by ids.now written.now) }
    ensures there { IfOk result (λ below. All (λ ns. All (λ n. n < length ids.now) ns) below) }
{
    let table = places(alloc, ids)?;
    let below = all_numbers(alloc, table.as_slice(), written)?;
    Ok(below)
}
