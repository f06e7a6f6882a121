//! The clauses of all time frames, with what is known put in: constants, and one variable for those that are equal.
use crate::classes::{Classes, classes_of};
use crate::numbers::{FALSE, NONE, TRUE, literal_of, number_or, write};
use crate::scene::{FrameTerms, begin_frame, known_term, term_of};
use crate::template::{Template, template_of};
use bs_bits::Bits;
use bs_clause::{Clauses, Lit, Lits, NoMemory};
use bs_encode::Encoding;
use bs_scan::Seen;
use std::alloc::Global;

/// A clause has at most so many literals where clauses are folded.
/// Where one has more, no execution is looked for.
pub(crate) const MAX_WIDE: usize = 32;

/// The folded clauses over the variables 1 to `vars`, as codes with the end of each, and what the inputs of each time frame stand for,
/// one time frame after another.
#[derive(Drop)]
pub(crate) struct Folded {
    codes: Vec<u32>,
    ends: Vec<usize>,
    pub(crate) vars: u32,
    pub(crate) inputs: Vec<u32>,
}

/// What the time frames are made of.
#[derive(Drop)]
struct Parts<'a> {
    clauses: &'a [Lits],
    template: &'a Template,
    classes: &'a Classes,
}

/// Whether the number stands in a list from a place on.
fn has_code(codes: &[u32], from: usize, code: u32) -> bool {
    for at in from..codes.len() {
        if codes[at] == code {
            return true;
        }
    }
    false
}

/// Whether a literal of the clause is true.
fn is_met(scene: &FrameTerms, classes: &Classes, clause: &[Lit]) -> bool {
    for l in clause {
        if known_term(scene, classes, *l) == TRUE {
            return true;
        }
    }
    false
}

/// Puts a code at the end of the clause that begins at a place, unless it stands there. Whether its negation does.
fn push_code(codes: &mut Vec<u32>, from: usize, code: u32) -> Result<bool, NoMemory> {
    if code == FALSE || has_code(codes.as_slice(), from, code) {
        return Ok(false);
    }
    if has_code(codes.as_slice(), from, code ^ 1) {
        return Ok(true);
    }
    codes.push(code)?;
    Ok(false)
}

/// Puts what the literals of a clause stand for at the end. Whether two of them are one the other's negation.
fn push_terms(
    codes: &mut Vec<u32>,
    scene: &mut FrameTerms,
    classes: &Classes,
    clause: &[Lit],
) -> Result<bool, NoMemory> {
    let from = codes.len();
    for l in clause {
        let term = term_of(scene, classes, *l);
        if push_code(codes, from, term)? {
            codes.truncate(from);
            return Ok(true);
        }
    }
    Ok(false)
}

/// Puts a clause with what its literals stand for at the end, unless it is met.
fn add_clause(
    into: &mut Folded,
    scene: &mut FrameTerms,
    classes: &Classes,
    clause: &[Lit],
) -> Result<(), NoMemory> {
    if is_met(scene, classes, clause) || push_terms(&mut into.codes, scene, classes, clause)? {
        return Ok(());
    }
    into.ends.push(into.codes.len())?;
    Ok(())
}

/// Puts the clauses of the present time frame at the end.
fn add_clauses(
    into: &mut Folded,
    scene: &mut FrameTerms,
    parts: &Parts<'_>,
) -> Result<(), NoMemory> {
    for at in parts.classes.clauses.as_slice() {
        let place = *at as usize;
        if place < parts.clauses.len() {
            let clause = parts.clauses[place].slice();
            add_clause(into, scene, parts.classes, clause)?;
        }
    }
    Ok(())
}

/// Notes what the inputs of the present time frame stand for.
fn add_inputs(
    into: &mut Vec<u32>,
    scene: &FrameTerms,
    classes: &Classes,
    inputs: &[Lit],
) -> Result<(), NoMemory> {
    for l in inputs {
        into.push(known_term(scene, classes, *l))?;
    }
    Ok(())
}

/// The flip-flops stand for what the present time frame leads to.
fn lead(scene: &mut FrameTerms, classes: &Classes, next: &[Lit]) {
    for f in 0..next.len() {
        let term = term_of(scene, classes, next[f]);
        write(&mut scene.present, f, term);
    }
}

/// One time frame more.
fn add_frame(
    into: &mut Folded,
    scene: &mut FrameTerms,
    parts: &Parts<'_>,
    encoding: &Encoding,
) -> Result<(), NoMemory> {
    begin_frame(
        scene,
        parts.clauses,
        parts.template,
        encoding.states(),
        encoding.vars(),
    )?;
    add_clauses(into, scene, parts)?;
    lead(scene, parts.classes, encoding.next());
    add_inputs(&mut into.inputs, scene, parts.classes, encoding.inputs())
}

/// So many time frames.
fn add_frames(
    into: &mut Folded,
    scene: &mut FrameTerms,
    parts: &Parts<'_>,
    encoding: &Encoding,
    cycles: u32,
) -> Result<(), NoMemory> {
    for _ in 0..cycles {
        add_frame(into, scene, parts, encoding)?;
    }
    Ok(())
}

/// The flip-flops have these bits.
fn set_state(scene: &mut FrameTerms, bits: &Bits) {
    for f in 0..bits.len() {
        let term = if bits.get(f) { TRUE } else { FALSE };
        write(&mut scene.present, f, term);
    }
}

/// Puts a clause of one literal of this code at the end, unless it is met.
fn add_unit(into: &mut Folded, code: u32) -> Result<(), NoMemory> {
    if code == TRUE {
        return Ok(());
    }
    if code != FALSE {
        into.codes.push(code)?;
    }
    into.ends.push(into.codes.len())?;
    Ok(())
}

/// The code turned where the bit is 0.
fn wanted(code: u32, bit: bool) -> u32 {
    if bit { code } else { code ^ 1 }
}

/// The flip-flops are to have these bits, as far as they are known.
fn add_goal(into: &mut Folded, scene: &FrameTerms, state: &Seen) -> Result<(), NoMemory> {
    for f in 0..state.bits.len() {
        if !state.is_free(f) {
            let term = number_or(scene.present.as_slice(), f, FALSE);
            add_unit(into, wanted(term, state.bits.get(f)))?;
        }
    }
    Ok(())
}

/// The clauses of so many time frames from one state on, and of the state that they are to lead to.
fn fold_by(
    alloc: Global,
    parts: &Parts<'_>,
    encoding: &Encoding,
    reset: &Bits,
    state: &Seen,
    cycles: u32,
) -> Result<Folded, NoMemory> {
    let mut scene = FrameTerms::new(alloc, encoding.vars(), encoding.states().len())?;
    let mut folded = Folded {
        codes: Vec::new(alloc),
        ends: Vec::new(alloc),
        vars: 0,
        inputs: Vec::new(alloc),
    };
    set_state(&mut scene, reset);
    add_frames(&mut folded, &mut scene, parts, encoding, cycles)?;
    add_goal(&mut folded, &scene, state)?;
    folded.vars = scene.last;
    Ok(folded)
}

/// Whether each clause has few literals.
pub(crate) fn are_narrow(clauses: &[Lits]) -> bool {
    for clause in clauses {
        if clause.len() > MAX_WIDE {
            return false;
        }
    }
    true
}

/// The same, by the encoding of one time frame.
pub(crate) fn folded_of(
    alloc: Global,
    encoding: &Encoding,
    reset: &Bits,
    state: &Seen,
    cycles: u32,
) -> Result<Folded, NoMemory> {
    let clauses = encoding.clauses().slice();
    let template = template_of(alloc, clauses, encoding.vars())?;
    let classes = classes_of(
        alloc,
        clauses,
        encoding.states(),
        encoding.inputs(),
        encoding.vars(),
    )?;
    let parts = Parts {
        clauses,
        template: &template,
        classes: &classes,
    };
    fold_by(alloc, &parts, encoding, reset, state, cycles)
}

/// The code over the variables counted from the last one on: those of the last time frames are decided first.
pub(crate) fn backward(vars: u32, code: u32) -> u32 {
    if code == NONE || code / 2 == 0 || code / 2 > vars {
        return code;
    }
    2u32.wrapping_mul(vars - code / 2 + 1) | (code & 1)
}

/// The clause of codes, counted from the last variable on.
fn clause_of(alloc: Global, codes: &[u32], vars: u32) -> Result<Lits, NoMemory> {
    let mut clause = Lits::new(alloc);
    for code in codes {
        clause.push(literal_of(backward(vars, *code)))?;
    }
    Ok(clause)
}

/// The folded clauses, their variables counted from the last one on.
pub(crate) fn clauses_of(alloc: Global, folded: &Folded) -> Result<Clauses, NoMemory> {
    let mut clauses = Clauses::new(alloc);
    let mut from = 0;
    for end in folded.ends.as_slice() {
        if from <= *end && *end <= folded.codes.len() {
            let codes = &folded.codes.as_slice()[from..*end];
            clauses.push(clause_of(alloc, codes, folded.vars)?)?;
        }
        from = *end;
    }
    Ok(clauses)
}
