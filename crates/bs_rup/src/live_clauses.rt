//! The clauses of a log, each at the place of its id, so that an id is found in constant time.
ghost use Rattle.std.specs.Prelude.{◌≡◌, ◌==◌, ◌+◌, ◌≤◌, length, not, option_map, IfOk, OnOk, IsSome};
ghost use Rattle.std.specs.List.{filter, AllByRecursion};
ghost use Rattle.std.specs.Option.{option_copied};
ghost use Rattle.bs_log.specs.History.{axioms_from};
ghost use Rattle.bs_log.specs.Refusal.{entry_of};
ghost use Rattle.bs_rup.specs.LiveClauses.{entry_from, live_from, with_entry, without_ids};

use bs_bits::NoMemory;
use bs_clause::{Lit, Lits};
use bs_log::Origin;
use std::alloc::Global;

/// A clause that was given an id. Its literals are lent by the clauses or by the log.
#[derive(Clone, Copy)]
pub struct Stored<'a> {
    pub origin: Origin,
    pub lits: &'a [Lit],
    pub live: bool,
}

/// The clauses that a search starts from, each live.
pub fn axioms<'a>(alloc: Global, clauses: &'a [Lits]) -> Result<Vec<Stored<'a>>, NoMemory>
    ensures live { IfOk result (λ r. live_from 1 r.items ≡ axioms_from 1 clauses.now) }
    ensures length { IfOk result (λ r. length r.items ≡ length clauses.now) }
{
    let mut stored = Vec::new(alloc);
    for c in clauses {
        add(&mut stored, Origin::Axiom, c.slice())?;
    }
    Ok(stored)
}

/// Adds a clause under the next id.
pub fn add<'a>(
    stored: &mut Vec<Stored<'a>>,
    origin: Origin,
    lits: &'a [Lit],
) -> Result<(), NoMemory>
    ensures live { OnOk result (live_from 1 stored.new.items ≡ with_entry stored.old.items origin lits.now) }
    ensures length { OnOk result (length stored.new.items ≡ length stored.old.items + 1) }
{
    stored.push(Stored {
        origin,
        lits,
        live: true,
    })?;
    Ok(())
}

/// The live clause of an id.
pub fn entry_at<'a, 'b>(stored: &'b [Stored<'a>], id: u64) -> Option<&'b Stored<'a>>
    ensures { entry_of (live_from 1 stored.now) id ≡ option_map (entry_from id) (option_copied result) }
{
    if id == 0 {
        return None;
    }
    let place = (id - 1) as usize;
    if place >= stored.len() {
        return None;
    }
    let entry = &stored[place];
    if entry.live { Some(entry) } else { None }
}

/// The literals of a live clause.
pub fn lits_at<'a, 'b>(stored: &'b [Stored<'a>], id: u64) -> &'b [Lit]
    requires { IsSome (entry_of (live_from 1 stored.now) id) }
    ensures { option_map (λ e. e.literals) (entry_of (live_from 1 stored.now) id) ≡ Some result.now }
{
    match entry_at(stored, id) {
        Some(entry) => entry.lits,
        None => unreachable!(),
    }
}

/// Takes the clause of the id away.
fn remove_one<'a>(stored: &mut Vec<Stored<'a>>, id: u64)
    requires { id ≤ length stored.old.items }
    ensures live { live_from 1 stored.new.items ≡ filter (λ e. not (e.id == id)) (live_from 1 stored.old.items) }
    ensures length { length stored.new.items ≡ length stored.old.items }
{
    if id == 0 {
        return;
    }
    stored[(id - 1) as usize].live = false;
}

/// Takes the clauses of these ids away.
pub fn remove<'a>(stored: &mut Vec<Stored<'a>>, ids: &[u64])
    requires { AllByRecursion (λ id. id ≤ length stored.old.items) ids.now }
    ensures live { live_from 1 stored.new.items ≡ without_ids ids.now (live_from 1 stored.old.items) }
    ensures length { length stored.new.items ≡ length stored.old.items }
{
    for id in ids {
        remove_one(stored, *id);
    }
}
