//! The clause arena: clauses that are killed and moved together, and each call that takes memory with ample memory.
use bs_arena::{Arena, Renaming};
use bs_clause::{Lit, NoMemory, Var};
use std::alloc::Global;
use std::test::Fail;

/// The words, the live words and the clauses of an arena.
type Sizes = (usize, usize, usize);

fn sizes_of(arena: &Arena) -> Sizes {
    (arena.words(), arena.live(), arena.count())
}

/// What is seen of three clauses, of which the one between two is killed: whether the room that was reserved is there; the sizes
/// before, behind the kill and behind a compaction; whether the first clause is where it was, and the second one nowhere; the
/// third one's id, and whether it has its literal.
type Killed = (bool, [Sizes; 3], bool, bool, u64, bool);

/// What is seen of the clauses (1 2), (-1 2) and (2) in a new arena, with a new renaming.
#[tactic(auto, using(bs_arena::proofs::Lookups::renamed_is_live))]
fn killed(arena: &mut Arena, renaming: &mut Renaming) -> Result<Option<Killed>, NoMemory> {
    let (one, two) = (Lit::new(Var(1), true), Lit::new(Var(2), true));
    renaming.reserve(2)?;
    arena.reserve(12)?;
    let is_roomy = 12 <= arena.spare();
    let first = arena.add(10, &[one, two])?;
    let second = arena.add(11, &[one.negate(), two])?;
    let third = arena.add(1 << 40, &[two])?;
    let whole = sizes_of(arena);
    arena.kill(second);
    let less = sizes_of(arena);
    if renaming.spare() < arena.count() {
        return Ok(None);
    }
    arena.compact(renaming);
    let sizes = [whole, less, sizes_of(arena)];
    let stays = match renaming.get(first) {
        Some(moved) => arena.id(moved) == 10,
        None => false,
    };
    let goes = renaming.get(second).is_none();
    let (id, is_same) = match renaming.get(third) {
        Some(moved) => (arena.id(moved), arena.lits(moved) == &[4][..]),
        None => (0, false),
    };
    Ok(Some((is_roomy, sizes, stays, goes, id, is_same)))
}

/// The same of a new arena and a new renaming.
fn killed_between(alloc: Global) -> Result<Option<Killed>, NoMemory> {
    let mut arena = Arena::new(alloc);
    let mut renaming = Renaming::new(alloc);
    killed(&mut arena, &mut renaming)
}

/// What is to be seen of them.
const KILLED: Killed = (
    true,
    [(17, 17, 3), (17, 11, 2), (11, 11, 2)],
    true,
    true,
    1 << 40,
    true,
);

#[test]
fn the_clause_between_two_is_killed(rt: HostRuntime) -> Result<(), Fail> {
    assert!(rt; killed_between(rt.alloc())? == Some(KILLED));
    Ok(())
}

/// Adds this many clauses, all of these literals.
fn fill(arena: &mut Arena, clauses: u32, literals: &[Lit]) -> Result<(), NoMemory> {
    arena.reserve(literals.len())?;
    for id in 0..clauses {
        arena.add(u64::from(id), literals)?;
    }
    Ok(())
}

/// Whether a new arena with so many clauses of these literals takes so many words, before and after a compaction.
fn keeps_words(
    arena: &mut Arena,
    renaming: &mut Renaming,
    clauses: u32,
    literals: &[Lit],
    words: usize,
) -> Result<bool, NoMemory> {
    fill(arena, clauses, literals)?;
    let before = (arena.words(), arena.count());
    renaming.reserve(arena.count())?;
    if renaming.spare() >= arena.count() {
        arena.compact(renaming);
    }
    let want = (words, clauses as usize);
    Ok(before == want && (arena.words(), arena.count()) == want)
}

/// A literal so many times.
fn literals(alloc: Global, count: usize) -> Result<Vec<Lit>, NoMemory> {
    Ok(vec![in alloc; Lit::new(Var(1), true); count]?)
}

/// The same for so many literals.
fn is_filled(
    alloc: Global,
    (clauses, count, words): &(u32, usize, usize),
) -> Result<bool, NoMemory> {
    let literals = literals(alloc, *count)?;
    let mut arena = Arena::new(alloc);
    let mut renaming = Renaming::new(alloc);
    keeps_words(&mut arena, &mut renaming, *clauses, &literals, *words)
}

/// Numbers of clauses and of literals in each, and the words that they take.
static ARENAS: [(u32, usize, usize); 5] = [
    (0, 3, 0),
    (1, 2, 6),
    (3, 40, 132),
    (50_000, 3, 350_000),
    (2, 20_000, 40_008),
];

#[test]
fn arenas_small_and_great(rt: HostRuntime) -> Result<(), Fail> {
    for row in &ARENAS {
        assert!(rt; is_filled(rt.alloc(), row)?);
    }
    Ok(())
}
