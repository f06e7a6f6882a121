//! Watched literals: a clause that becomes false, one that becomes unit, a long chain, one more variable and a sweep, with ample memory.
ghost use Rattle.std.specs.Prelude.{◌≡◌, ◌≢◌, ◌≤◌, ◌<◌, ◌^◌, length, IfOk, IsTrue};
ghost use Rattle.bs_watch.specs.Scene.{IsWatchable};
ghost use Rattle.bs_watch.specs.Watch.{Serves};

use bs_arena::Arena;
use bs_clause::{Lit, NoMemory, Var};
use bs_watch::{Outcome, Watch};
use std::alloc::Global;
use std::test::Fail;

fn fits(a: Lit, vars: u32) -> bool
    ensures { IsTrue result → a.variable ≤ vars }
{
    a.var().0 <= vars
}

fn differ(a: Lit, b: Lit) -> bool
    ensures { IsTrue result → a.variable ≢ b.variable }
{
    a.var().0 != b.var().0
}

/// A watch that serves the arena.
fn begun(alloc: Global, arena: &Arena, vars: u32) -> Result<Watch, NoMemory>
    requires { vars < 2 ^ 30 }
    ensures { IfOk result (λ w. Serves w arena.now.clauses) }
{
    let watch = Watch::new(alloc, vars)?;
    Ok(watch)
}

fn attach(arena: &mut Arena, watch: &mut Watch, lits: &[Lit]) -> Result<(), NoMemory>
    requires serves { Serves watch.old arena.old.clauses }
    requires watchable { IsWatchable watch.old.trail.vars lits.now }
    requires empty { length watch.old.trail.places ≡ 0 }
    ensures serves { Serves watch.new arena.new.clauses }
{
    let r = arena.add(1, lits)?;
    watch.attach(arena, r)
}

/// Attaches a clause of two literals, where it can be.
#[tactic(auto, using(bs_watch::proofs::CallerLemmas::two_watchable))]
fn attach_two(arena: &mut Arena, watch: &mut Watch, a: Lit, b: Lit) -> Result<bool, NoMemory>
    requires serves { Serves watch.old arena.old.clauses }
    ensures serves { Serves watch.new arena.new.clauses }
{
    if watch.level() == 0
        && watch.trail().len() == 0
        && fits(a, watch.vars())
        && fits(b, watch.vars())
        && differ(a, b)
    {
        attach(arena, watch, &[a, b])?;
        return Ok(true);
    }
    Ok(false)
}

/// Decides a literal, where it is open, and propagates. Whether no clause is false.
fn decided(arena: &mut Arena, watch: &mut Watch, l: Lit) -> Result<Option<bool>, NoMemory>
    requires serves { Serves watch.old arena.old.clauses }
    ensures serves { Serves watch.new arena.new.clauses }
{
    if watch.level() > watch.vars() || !fits(l, watch.vars()) || watch.value(l).is_some() {
        return Ok(None);
    }
    watch.decide();
    watch.assign(l, None);
    match watch.propagate(arena)? {
        Outcome::Quiet => Ok(Some(true)),
        Outcome::Conflict(_) => Ok(Some(false)),
    }
}

/// Whether the clause (1 2) and another one of these variables are attached, and what comes of the decision that 1 is false.
fn decided_beside(
    arena: &mut Arena,
    watch: &mut Watch,
    second: Lit,
) -> Result<(bool, bool, Option<bool>), NoMemory>
    requires serves { Serves watch.old arena.old.clauses }
{
    let (one, two) = (Lit::new(Var(1), true), Lit::new(Var(2), true));
    let is_first = attach_two(arena, watch, one, two)?;
    let is_second = attach_two(arena, watch, one, second)?;
    let answer = decided(arena, watch, one.negate())?;
    Ok((is_first, is_second, answer))
}

/// Whether the clauses (1 2) and (1 -2) conflict where 1 is decided to be false.
fn is_conflict(alloc: Global, arena: &mut Arena) -> Result<bool, NoMemory> {
    let mut watch = begun(alloc, arena, 2)?;
    let seen = decided_beside(arena, &mut watch, Lit::new(Var(2), false))?;
    Ok(seen == (true, true, Some(false)))
}

#[test]
fn both_signs_of_two_conflict(rt: HostRuntime) -> Result<(), Fail> {
    let mut arena = Arena::new(rt.alloc());
    assert!(rt; is_conflict(rt.alloc(), &mut arena)?);
    Ok(())
}

/// Whether the clause (1 2) makes 2 true where 1 is decided to be false, and no variable is open then.
fn makes_true(arena: &mut Arena, watch: &mut Watch) -> Result<bool, NoMemory>
    requires serves { Serves watch.old arena.old.clauses }
{
    let (one, two) = (Lit::new(Var(1), true), Lit::new(Var(2), true));
    let is_attached = attach_two(arena, watch, one, two)?;
    let answer = decided(arena, watch, one.negate())?;
    let is_quiet = is_attached && answer == Some(true);
    let is_full = watch.first_open().is_none();
    Ok(is_quiet && is_full && watch.trail() == &[one.negate(), two][..])
}

/// The same of a new watch.
fn other_is_true(alloc: Global, arena: &mut Arena) -> Result<bool, NoMemory> {
    let mut watch = begun(alloc, arena, 2)?;
    makes_true(arena, &mut watch)
}

#[test]
fn the_other_literal_of_two_is_true(rt: HostRuntime) -> Result<(), Fail> {
    let mut arena = Arena::new(rt.alloc());
    assert!(rt; other_is_true(rt.alloc(), &mut arena)?);
    Ok(())
}

/// Each variable implies the next one.
fn chain(arena: &mut Arena, watch: &mut Watch, vars: u32) -> Result<(), NoMemory>
    requires small { vars < 2 ^ 30 }
    requires serves { Serves watch.old arena.old.clauses }
    ensures serves { Serves watch.new arena.new.clauses }
{
    'links: for v in 1..vars {
        attach_two(
            arena,
            watch,
            Lit::new(Var(v), false),
            Lit::new(Var(v + 1), true),
        )?;
    }
    Ok(())
}

/// Whether all of so many such variables are true where the first one is decided to be.
fn goes_through(arena: &mut Arena, watch: &mut Watch, vars: u32) -> Result<bool, NoMemory>
    requires small { vars < 2 ^ 30 }
    requires serves { Serves watch.old arena.old.clauses }
{
    chain(arena, watch, vars)?;
    let answer = decided(arena, watch, Lit::new(Var(1), true))?;
    Ok(answer == Some(true) && watch.trail().len() == vars as usize)
}

/// The same of a new watch.
fn is_chained(alloc: Global, arena: &mut Arena) -> Result<bool, NoMemory> {
    let mut watch = begun(alloc, arena, 5_000)?;
    goes_through(arena, &mut watch, 5_000)
}

#[test]
fn a_chain_of_five_thousand_is_true(rt: HostRuntime) -> Result<(), Fail> {
    let mut arena = Arena::new(rt.alloc());
    assert!(rt; is_chained(rt.alloc(), &mut arena)?);
    Ok(())
}
