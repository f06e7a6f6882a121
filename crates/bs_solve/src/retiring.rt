//! The unit of a retired activation literal comes, and its literal stands for good.
ghost use Rattle.std.specs.Prelude.{◌≡◌, ◌+◌, ◌<◌, ◌≤◌, length, slice_set, OnOk};
ghost use Rattle.bs_arena.specs.Arena.{live_words};
ghost use Rattle.bs_watch.specs.Places.{IsUnassigned};
ghost use Rattle.bs_watch.specs.Watch.{Serves};
ghost use Rattle.bs_solve.specs.Retiring.{IsPut, HasRetired};

use crate::database::Database;
use bs_arena::{Arena, Ref};
use bs_clause::{Lit, NoMemory};
use bs_watch::Watch;

// Another reference in a place.
fn put_ref(refs: &mut Vec<Ref>, at: usize, r: Ref)
    requires { at < length refs.old.items }
    ensures { refs.new.items ≡ slice_set refs.old.items at r }
{
    refs[at] = r;
}

// One more reference in a place, whose old one goes to the end.
fn put_in(refs: &mut Vec<Ref>, at: usize, r: Ref) -> Result<(), NoMemory>
    requires { at ≤ length refs.old.items }
    ensures { OnOk result (IsPut refs.old.items refs.new.items at r) }
{
    if at == refs.len() {
        refs.push(r)?;
        return Ok(());
    }
    let first = refs[at];
    refs.push(first)?;
    put_ref(refs, at, r);
    Ok(())
}

/// Adds the unit of a retired activation literal, whose literal is true from then on: it stands behind those that do, and no level undoes it.
/// Where nobody watches the activation literal, no later propagation looks at it.
pub fn retire(
    watch: &mut Watch,
    arena: &mut Arena,
    database: &mut Database,
    id: u64,
    unit: Lit,
) -> Result<(), NoMemory>
    requires serves { Serves watch.old arena.old.clauses }
    requires low { length watch.old.trail.places ≤ length database.old.shorts.items }
    requires free { IsUnassigned watch.old.trail unit }
    ensures retired { OnOk result (HasRetired watch.old watch.new arena.old.clauses arena.new.clauses database.old database.new id unit) }
    ensures words { OnOk result (arena.new.words + live_words arena.old.clauses ≡ arena.old.words + live_words arena.new.clauses) }
{
    let stand = watch.trail().len();
    let r = arena.add(id, &[unit])?;
    put_in(&mut database.shorts, stand, r)?;
    watch.assign(unit, Some(r));
    watch.pass();
    Ok(())
}
