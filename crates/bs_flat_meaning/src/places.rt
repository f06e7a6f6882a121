//! Where the module with a name stands among all.
ghost use Rattle.std.specs.Prelude.{◌≡◌, ◌<◌, ◌≤◌, ◌^◌, length, None, replicate, All, IfOk};
ghost use Rattle.bs_flat_meaning.specs.Places as spec;

use bs_bits::NoMemory;
use std::alloc::Global;

/// One more than a name's number.
fn past(id: Option<u32>) -> usize
    ensures { result ≡ spec.past id }
{
    match id {
        Some(id) => id as usize + 1,
        None => 0,
    }
}

/// One more than the greatest number of a name.
fn bound(ids: &[Option<u32>]) -> usize
    ensures { All (λ id. spec.past id ≤ result) ids.now }
{
    let mut bound = 0;
    'ids: for id in ids {
        bound = past(*id).max(bound);
    }
    bound
}

/// A table in which no name's module has a place.
fn no_places(alloc: Global, count: usize) -> Result<Vec<Option<u32>>, NoMemory>
    ensures { IfOk result (λ t. t.items ≡ replicate count None) }
{
    let table = vec![in alloc; None; count]?;
    Ok(table)
}

/// Puts a name's module at a place, where it has none before.
fn note(table: &mut Vec<Option<u32>>, id: Option<u32>, place: u32)
    requires { spec.past id ≤ length table.old.items }
    ensures { table.new.items ≡ spec.noted id place table.old.items }
{
    if let Some(id) = id {
        let kept = table[id as usize].unwrap_or(place);
        table[id as usize] = Some(kept);
    }
}

/// The place of the first module with each name, by the name's number.
pub fn places(alloc: Global, ids: &[Option<u32>]) -> Result<Vec<Option<u32>>, NoMemory>
    requires few { length ids.now < 2 ^ 32 }
    ensures { IfOk result (λ t. spec.ArePlaces ids.now t.items) }
{
    let mut table = no_places(alloc, bound(ids))?;
    'ids: for place in 0..ids.len() {
        note(&mut table, ids[place], place as u32);
    }
    Ok(table)
}
