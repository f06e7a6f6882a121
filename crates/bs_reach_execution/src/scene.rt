//! What the variables of the present time frame stand for: constants that follow from reset, and literals of the folded clauses.
use crate::classes::Classes;
use crate::numbers::{FALSE, NONE, TRUE, fill, filled, number_or, turned, write};
use crate::template::Template;
use bs_clause::{Lit, Lits, NoMemory};
use std::alloc::Global;

/// The terms of a time frame's variables: a constant, the code of a literal, or none yet. The literals that are true in the order in
/// which they came to be, and the terms of the flip-flops.
#[derive(Drop)]
pub(crate) struct FrameTerms {
    pub(crate) terms: Vec<u32>,
    pub(crate) trail: Vec<Lit>,
    pub(crate) present: Vec<u32>,
    pub(crate) last: u32,
}

impl FrameTerms {
    /// Nothing stands for anything, and each flip-flop for nothing.
    pub(crate) fn new(alloc: Global, vars: u32, flops: usize) -> Result<FrameTerms, NoMemory> {
        let terms = filled(alloc, NONE, vars as usize + 1)?;
        let present = filled(alloc, NONE, flops)?;
        Ok(FrameTerms {
            terms,
            trail: Vec::new(alloc),
            present,
            last: 0,
        })
    }
}

/// What a literal stands for by itself.
fn term_in(terms: &[u32], l: Lit) -> u32 {
    let term = number_or(terms, l.var().0 as usize, NONE);
    if term == NONE { NONE } else { turned(term, l) }
}

/// Makes a literal true.
fn assign(scene: &mut FrameTerms, l: Lit) -> Result<(), NoMemory> {
    write(&mut scene.terms, l.var().0 as usize, turned(TRUE, l));
    scene.trail.push(l)?;
    Ok(())
}

/// The one literal of a clause that is open, where all others are false.
fn open_in(terms: &[u32], clause: &[Lit]) -> Option<Lit> {
    let mut found = None;
    for l in clause {
        let term = term_in(terms, *l);
        if term == NONE {
            if found.is_some() {
                return None;
            }
            found = Some(*l);
        } else if term != FALSE {
            return None;
        }
    }
    found
}

/// Makes the one literal that a clause leaves open true.
fn imply(scene: &mut FrameTerms, clauses: &[Lits], at: usize) -> Result<(), NoMemory> {
    if at >= clauses.len() {
        return Ok(());
    }
    match open_in(scene.terms.as_slice(), clauses[at].slice()) {
        Some(l) => assign(scene, l),
        None => Ok(()),
    }
}

/// A literal is false.
fn deny(
    scene: &mut FrameTerms,
    clauses: &[Lits],
    template: &Template,
    l: Lit,
) -> Result<(), NoMemory> {
    let code = l.code() as usize;
    let start = number_or(template.starts.as_slice(), code, 0);
    let end = number_or(template.starts.as_slice(), code + 1, 0);
    for place in start..end {
        let at = number_or(template.places.as_slice(), place as usize, NONE) as usize;
        imply(scene, clauses, at)?;
    }
    Ok(())
}

/// All that follows from what is true, where there are so many variables.
fn follow(
    scene: &mut FrameTerms,
    clauses: &[Lits],
    template: &Template,
    vars: u32,
) -> Result<(), NoMemory> {
    for head in 0..vars as usize {
        if head >= scene.trail.len() {
            return Ok(());
        }
        let l = scene.trail[head].negate();
        deny(scene, clauses, template, l)?;
    }
    Ok(())
}

/// The clauses of one literal make it true.
fn assign_units(scene: &mut FrameTerms, clauses: &[Lits], units: &[u32]) -> Result<(), NoMemory> {
    for at in units {
        imply(scene, clauses, *at as usize)?;
    }
    Ok(())
}

/// A flip-flop stands for what the time frame before leads to.
fn assign_state(scene: &mut FrameTerms, state: Lit, f: usize) -> Result<(), NoMemory> {
    let term = number_or(scene.present.as_slice(), f, NONE);
    if term == TRUE {
        return assign(scene, state);
    }
    if term == FALSE {
        return assign(scene, state.negate());
    }
    write(&mut scene.terms, state.var().0 as usize, term);
    Ok(())
}

/// All flip-flops stand for what the time frame before leads to.
fn assign_states(scene: &mut FrameTerms, states: &[Lit]) -> Result<(), NoMemory> {
    for f in 0..states.len() {
        assign_state(scene, states[f], f)?;
    }
    Ok(())
}

/// The constants of the next time frame.
pub(crate) fn begin_frame(
    scene: &mut FrameTerms,
    clauses: &[Lits],
    template: &Template,
    states: &[Lit],
    vars: u32,
) -> Result<(), NoMemory> {
    fill(&mut scene.terms, NONE);
    scene.trail.truncate(0);
    assign_units(scene, clauses, template.units.as_slice())?;
    assign_states(scene, states)?;
    follow(scene, clauses, template, vars)
}

/// What a literal stands for, by itself or by its root; none where nothing asked for it yet.
pub(crate) fn known_term(scene: &FrameTerms, classes: &Classes, l: Lit) -> u32 {
    let own = term_in(scene.terms.as_slice(), l);
    if own != NONE {
        return own;
    }
    let root = number_or(classes.roots.as_slice(), l.var().0 as usize, 0);
    let term = number_or(scene.terms.as_slice(), (root / 2) as usize, NONE);
    if term == NONE {
        return NONE;
    }
    turned(term ^ (root & 1), l)
}

/// What a literal stands for, a literal of its own where nothing asked for it yet.
pub(crate) fn term_of(scene: &mut FrameTerms, classes: &Classes, l: Lit) -> u32 {
    let known = known_term(scene, classes, l);
    if known != NONE {
        return known;
    }
    scene.last = scene.last.wrapping_add(1);
    let term = scene.last.wrapping_mul(2);
    let root = number_or(classes.roots.as_slice(), l.var().0 as usize, 0);
    write(&mut scene.terms, (root / 2) as usize, term);
    turned(term ^ (root & 1), l)
}
