//! The refusals of modules that instance each other in a ring, and of modules of which more than one is a top.
ghost use Rattle.std.specs.Prelude.{◌≡◌, ◌<◌, ◌≤◌, ◌⊎◌, ◌^◌, [], length, map, None, unwrap_or, slice_index_or, IfOk, MatchResult};
ghost use Rattle.bs_flat_meaning.specs.declared.fault.FlatFault.TheVariants as faults;
ghost use Rattle.bs_flat_meaning.specs.Refusals as spec;

use crate::fault::FlatFault;
use crate::ranks::{Hierarchy, Ranked, rank_modules};
use crate::statements::Written;
use bs_bits::{List, NoMemory, push_piece};
use bs_lex::{Name, NameTable};
use std::alloc::Global;

/// The text of a name.
fn name_text(alloc: Global, table: &NameTable, id: u32) -> Result<List<u8>, NoMemory>
    ensures { IfOk result (λ text. text ≡ slice_index_or table.now id []) }
{
    let mut text = Vec::new(alloc);
    push_piece(&mut text, table.text(Name { at: 0, id }).as_bytes())?;
    Ok(List::of(text))
}

/// The number of a module's name.
fn id_of(ids: &[Option<u32>], number: u32) -> u32
    ensures { result ≡ unwrap_or (slice_index_or ids.now number None) 0 }
{
    let number = number as usize;
    if number < ids.len() {
        ids[number].unwrap_or(0)
    } else {
        0
    }
}

/// The names of modules.
fn ring_names(
    alloc: Global,
    table: &NameTable,
    ids: &[Option<u32>],
    modules: &[u32],
) -> Result<List<List<u8>>, NoMemory>
    ensures { IfOk result (λ names. names ≡ map (spec.name_of table.now ids.now) modules.now) }
{
    let mut names = List::new(alloc);
    'modules: for &number in modules {
        let name = name_text(alloc, table, id_of(ids, number))?;
        names.push(name)?;
    }
    Ok(names)
}

/// The refusal of a ring.
fn ring_fault(alloc: Global, table: &NameTable, ids: &[Option<u32>], ring: &[u32]) -> FlatFault
    ensures { (result ≡ faults.NoMemory) ⊎ (result ≡ faults.Recursion (map (spec.name_of table.now ids.now) ring.now)) }
{
    match ring_names(alloc, table, ids, ring) {
        Ok(names) => FlatFault::Recursion(names),
        Err(_) => FlatFault::NoMemory,
    }
}

/// The order of modules of which one at most is instanced by none.
fn with_one_top(ranked: Ranked) -> Result<Ranked, FlatFault>
    requires few { length ranked.tops < 2 ^ 32 }
    ensures { MatchResult result (λ r. (r ≡ ranked) × (length r.tops ≤ 1))
        (λ fault. (fault ≡ faults.Tops (length ranked.tops)) × (1 < length ranked.tops)) }
{
    let count = ranked.tops.len();
    if count > 1 {
        Err(FlatFault::Tops(count as u32))
    } else {
        Ok(ranked)
    }
}

/// The order of modules that make no ring, and of which one at most is instanced by none; or the refusal of a ring, by its
/// names, or of several tops. `ids` has the number of each module's name, and `written` the instances that each writes.
pub fn expect_one_top(
    alloc: Global,
    table: &NameTable,
    ids: &[Option<u32>],
    written: &[List<Written>],
) -> Result<Ranked, FlatFault>
    requires few { length ids.now < 2 ^ 32 }
    requires each { length written.now ≡ length ids.now }
    ensures { MatchResult result (λ r. spec.HasOneTop ids.now written.now r)
        (λ fault. (fault ≡ faults.NoMemory) ⊎ spec.IsRefused table.now ids.now written.now fault) }
{
    match rank_modules(alloc, ids, written) {
        Err(_) => Err(FlatFault::NoMemory),
        Ok(Hierarchy::Ringed(ring)) => Err(ring_fault(alloc, table, ids, ring.slice())),
        Ok(Hierarchy::Ranked(ranked)) => with_one_top(ranked),
    }
}
