//! Propagation: the literals of the trail are looked at, one after another.
ghost use Rattle.std.specs.Prelude.{◌≡◌, ◌<◌, ◌≤◌, length, IfOk};
ghost use Rattle.bs_watch.specs.Passing.{ArePassed};
ghost use Rattle.bs_watch.specs.Scene.{AreListed, AreGuarded, Advances, Propagated, KeepsRoom, scene_in};

use crate::lists::WatchLists;
use crate::trail::Trail;
use crate::visit::{Outcome, visit_all};
use bs_arena::Arena;
use bs_clause::NoMemory;

/// The first place of the trail, from one on, whose negated literal is watched, or the end of the trail.
pub fn first_watched(trail: &Trail, lists: &WatchLists, start: usize) -> usize
    requires { start ≤ length trail.now.places }
    ensures { ArePassed lists.now trail.now.places start result }
{
    let mut at = start;
    'places: while at < trail.len() && lists.is_empty(trail.literal(at).negate()) {
        at += 1;
    }
    at
}

/// Looks at the literals of the trail from a place on, until all have been looked at or a clause
/// is false.
pub fn look_on(
    trail: &mut Trail,
    lists: &mut WatchLists,
    arena: &mut Arena,
    level: u32,
    head: &mut usize,
) -> Result<Outcome, NoMemory>
    requires listed { AreListed (scene_in trail.old lists.old arena.old) }
    requires guarded { AreGuarded lists.old arena.old.clauses trail.old.places head.old }
    requires head { head.old ≤ length trail.old.places }
    ensures advances { Advances level (scene_in trail.old lists.old arena.old)
        (scene_in trail.new lists.new arena.new) }
    ensures guarded { AreGuarded lists.new arena.new.clauses trail.new.places head.new }
    ensures head { head.new ≤ length trail.new.places }
    ensures room { KeepsRoom arena.old arena.new }
    ensures ok { IfOk result (Propagated (scene_in trail.new lists.new arena.new)) }
{
    'heads: while *head < trail.len() {
        let falsified = trail.literal(*head).negate();
        match visit_all(trail, lists, arena, level, falsified)? {
            Outcome::Quiet => *head += 1,
            Outcome::Conflict(clause) => return Ok(Outcome::Conflict(clause)),
        }
    }
    Ok(Outcome::Quiet)
}
