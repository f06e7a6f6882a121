//! Visits of the clauses that watch a literal which became false.
ghost use Rattle.std.specs.Prelude.{◌≡◌, ◌<◌, ◌≤◌, ◌+◌, ◌*◌, length, IfOk};
ghost use Rattle.bs_watch.specs.Trail.{IsFalseOn};
ghost use Rattle.bs_watch.specs.Places.{literals_of};
ghost use Rattle.bs_watch.specs.Lists.{row};
ghost use Rattle.bs_watch.specs.Scene.{AreListed, AreMet, Advances, Visited, AllVisited, KeepsRoom, scene_in};

use crate::clause_look::{ClauseLook, look_at};
use crate::lists::{WatchLists, Watcher};
use crate::trail::Trail;
use bs_arena::{Arena, Ref};
use bs_clause::{Lit, NoMemory};

/// Where propagation ends.
#[derive(Clone, Copy)]
pub enum Outcome {
    /// No attached clause is false or unit.
    Quiet,
    /// This clause is false.
    Conflict(Ref),
}

/// What a visit does.
#[derive(Clone, Copy)]
pub enum Visit {
    /// The clause stays in the list: one of its literals is true.
    Stays,
    /// The clause watches another literal.
    Moves,
    /// The clause is false.
    Conflict(Ref),
}

/// Visits the clause at a place of the false literal's list.
pub fn visit_at(
    trail: &mut Trail,
    lists: &mut WatchLists,
    arena: &mut Arena,
    level: u32,
    falsified: Lit,
    at: usize,
) -> Result<Visit, NoMemory>
    requires listed { AreListed (scene_in trail.old lists.old arena.old) }
    requires range { falsified.variable ≤ trail.old.vars }
    requires lost { IsFalseOn (literals_of trail.old.places) falsified }
    requires at { at < length (row lists.old falsified) }
    requires met { AreMet (scene_in trail.old lists.old arena.old) falsified at }
    ensures advances { Advances level (scene_in trail.old lists.old arena.old)
        (scene_in trail.new lists.new arena.new) }
    ensures room { KeepsRoom arena.old arena.new }
    ensures ok { IfOk result (Visited (scene_in trail.old lists.old arena.old)
        (scene_in trail.new lists.new arena.new) falsified at) }
{
    let watcher = lists.get(falsified, at);
    if trail.is_true(watcher.blocker) {
        return Ok(Visit::Stays);
    }
    match look_at(trail, arena.lits(watcher.clause), falsified) {
        ClauseLook::True(literal) => {
            lists.set(
                falsified,
                at,
                Watcher {
                    clause: watcher.clause,
                    blocker: literal,
                },
            );
            Ok(Visit::Stays)
        }
        ClauseLook::Free {
            side,
            place,
            literal,
        } => {
            lists.push(
                literal,
                Watcher {
                    clause: watcher.clause,
                    blocker: watcher.blocker,
                },
            )?;
            arena.swap(watcher.clause, side, place);
            lists.remove(falsified, at);
            Ok(Visit::Moves)
        }
        ClauseLook::Unit(literal) => {
            trail.assign(literal, Some(watcher.clause), level);
            Ok(Visit::Stays)
        }
        ClauseLook::False => Ok(Visit::Conflict(watcher.clause)),
    }
}

/// Visits the clauses of the false literal's list, until one is false.
pub fn visit_all(
    trail: &mut Trail,
    lists: &mut WatchLists,
    arena: &mut Arena,
    level: u32,
    falsified: Lit,
) -> Result<Outcome, NoMemory>
    requires listed { AreListed (scene_in trail.old lists.old arena.old) }
    requires range { falsified.variable ≤ trail.old.vars }
    requires lost { IsFalseOn (literals_of trail.old.places) falsified }
    ensures advances { Advances level (scene_in trail.old lists.old arena.old)
        (scene_in trail.new lists.new arena.new) }
    ensures room { KeepsRoom arena.old arena.new }
    ensures ok { IfOk result (AllVisited (scene_in trail.new lists.new arena.new) falsified) }
{
    let mut at = 0;
    'visits: while at < lists.len(falsified) {
        match visit_at(trail, lists, arena, level, falsified, at)? {
            Visit::Stays => at += 1,
            Visit::Moves => {}
            Visit::Conflict(clause) => return Ok(Outcome::Conflict(clause)),
        }
    }
    Ok(Outcome::Quiet)
}
