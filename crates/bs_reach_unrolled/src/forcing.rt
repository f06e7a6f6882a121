//! What follows from reset in one time frame after another, by the clauses of one time frame.
ghost use Rattle.std.specs.Prelude.{◌<◌, length};

use crate::template::{Template, number_at, template_of, write, zeros};
use bs_bits::Bits;
use bs_clause::{Lit, Lits, NoMemory};
use bs_encode::Encoding;
use bs_scan::Seen;
use std::alloc::Global;

/// What follows from reset in the first time frames: for each variable of the unrolled clauses what implies it, and for each of the
/// first lengths a flip-flop that does not get its bit of the state.
///
/// What implies a variable is 0 where nothing does, and else one more than the number of a clause of its time frame, or of a flip-flop
/// behind all of these.
#[derive(Drop)]
pub struct Implied {
    pub(crate) reasons: Vec<u32>,
    pub(crate) denied: Vec<u32>,
}

impl Implied {
    /// How many of the first lengths are denied.
    pub fn len(&self) -> usize {
        self.denied.len()
    }
}

/// An estimate of a cone's size grows no further.
/// So the sum of two fits in 32 bits.
const MOST_ROWS: u32 = 1 << 30;

/// The values in a time frame, 1 of a variable that is true and 2 of one that is false, each with an estimate of how many clauses it
/// follows from; how many literals of each clause are false; and values with estimates of the state that the time frame before leads to.
#[derive(Drop)]
struct FrameValues {
    values: Vec<u32>,
    sizes: Vec<u32>,
    falses: Vec<u32>,
    trail: Vec<Lit>,
    present: Vec<u32>,
    present_sizes: Vec<u32>,
}

/// The number of a sign.
fn number_of(positive: bool) -> u32 {
    if positive { 1 } else { 2 }
}

/// The number of the literal's value: 1 where it is true, 2 where it is false, 0 where it is open.
fn value_of(values: &[u32], l: Lit) -> u32 {
    let value = number_at(values, l.var().0 as usize);
    if value == 0 || l.positive() {
        return value;
    }
    3u32.wrapping_sub(value)
}

/// The sum of two estimates.
fn joined(size: u32, more: u32) -> u32 {
    size.saturating_add(more).min(MOST_ROWS)
}

/// The estimate for a clause: what makes its literals false, each for itself, and the clause.
fn size_of(sizes: &[u32], clause: &[Lit]) -> u32 {
    let mut size = 1u32;
    for l in clause {
        size = joined(size, number_at(sizes, l.code() as usize / 2));
    }
    size
}

/// Makes a literal true for a reason.
fn assign(
    scene: &mut FrameValues,
    reasons: &mut Vec<u32>,
    base: usize,
    l: Lit,
    reason: usize,
    size: u32,
) -> Result<(), NoMemory> {
    let variable = l.var().0 as usize;
    write(&mut scene.values, variable, number_of(l.positive()));
    write(&mut scene.sizes, variable, size);
    write(
        reasons,
        base.wrapping_add(variable),
        (reason.wrapping_add(1) % 0x1_0000_0000) as u32,
    );
    scene.trail.push(l)?;
    Ok(())
}

/// The first literal of a clause that is not false, where it is open.
fn open_in(values: &[u32], clause: &[Lit]) -> Option<Lit> {
    for l in clause {
        let value = value_of(values, *l);
        if value == 0 {
            return Some(*l);
        }
        if value == 1 {
            return None;
        }
    }
    None
}

/// Makes the one literal that a clause leaves open true.
fn imply(
    scene: &mut FrameValues,
    reasons: &mut Vec<u32>,
    base: usize,
    clause: &[Lit],
    at: usize,
) -> Result<(), NoMemory> {
    match open_in(scene.values.as_slice(), clause) {
        Some(l) => {
            let size = size_of(scene.sizes.as_slice(), clause);
            assign(scene, reasons, base, l, at, size)
        }
        None => Ok(()),
    }
}

/// One more literal of a clause is false.
fn touch(
    scene: &mut FrameValues,
    reasons: &mut Vec<u32>,
    base: usize,
    clauses: &[Lits],
    at: usize,
) -> Result<(), NoMemory> {
    if at >= clauses.len() {
        return Ok(());
    }
    let falses = number_at(scene.falses.as_slice(), at).wrapping_add(1);
    write(&mut scene.falses, at, falses);
    if falses as usize + 1 != clauses[at].len() {
        return Ok(());
    }
    imply(scene, reasons, base, clauses[at].slice(), at)
}

/// A literal is false.
fn deny(
    scene: &mut FrameValues,
    reasons: &mut Vec<u32>,
    base: usize,
    clauses: &[Lits],
    template: &Template,
    l: Lit,
) -> Result<(), NoMemory> {
    let code = l.code() as usize;
    let start = number_at(template.starts.as_slice(), code);
    let end = number_at(template.starts.as_slice(), code + 1);
    for place in start..end {
        let at = number_at(template.clauses.as_slice(), place as usize) as usize;
        touch(scene, reasons, base, clauses, at)?;
    }
    Ok(())
}

/// All that follows from what is true, where there are so many variables.
fn follow(
    scene: &mut FrameValues,
    reasons: &mut Vec<u32>,
    base: usize,
    clauses: &[Lits],
    template: &Template,
    vars: u32,
) -> Result<(), NoMemory> {
    for head in 0..vars as usize {
        if head >= scene.trail.len() {
            return Ok(());
        }
        let l = scene.trail[head].negate();
        deny(scene, reasons, base, clauses, template, l)?;
    }
    Ok(())
}

/// The clauses of one literal make it true.
fn assign_units(
    scene: &mut FrameValues,
    reasons: &mut Vec<u32>,
    base: usize,
    clauses: &[Lits],
    units: &[u32],
) -> Result<(), NoMemory> {
    for unit in units {
        let at = *unit as usize;
        if at < clauses.len() {
            imply(scene, reasons, base, clauses[at].slice(), at)?;
        }
    }
    Ok(())
}

/// A flip-flop has the value that the time frame before leads to.
fn assign_state(
    scene: &mut FrameValues,
    reasons: &mut Vec<u32>,
    base: usize,
    state: Lit,
    f: usize,
    reason: usize,
) -> Result<(), NoMemory> {
    let value = number_at(scene.present.as_slice(), f);
    if value == 0 || value_of(scene.values.as_slice(), state) != 0 {
        return Ok(());
    }
    let size = joined(number_at(scene.present_sizes.as_slice(), f), 1);
    assign(
        scene,
        reasons,
        base,
        Lit::new(state.var(), value == 1),
        reason,
        size,
    )
}

/// All flip-flops have the values that the time frame before leads to.
fn assign_states(
    scene: &mut FrameValues,
    reasons: &mut Vec<u32>,
    base: usize,
    states: &[Lit],
    rows: usize,
) -> Result<(), NoMemory> {
    for f in 0..states.len() {
        assign_state(scene, reasons, base, states[f], f, rows.wrapping_add(f))?;
    }
    Ok(())
}

/// Variables are open again.
fn open_all(literals: &[Lit], values: &mut Vec<u32>, sizes: &mut Vec<u32>) {
    for l in literals {
        let variable = l.var().0 as usize;
        write(values, variable, 0);
        write(sizes, variable, 0);
    }
}

/// All numbers are 0 again.
fn zero_all(numbers: &mut Vec<u32>) {
    for at in 0..numbers.len() {
        write(numbers, at, 0);
    }
}

/// The variables of the time frame before are open again.
fn clear(scene: &mut FrameValues) {
    open_all(scene.trail.as_slice(), &mut scene.values, &mut scene.sizes);
    scene.trail.truncate(0);
    zero_all(&mut scene.falses);
}

/// What the time frame leads to.
fn lead(scene: &mut FrameValues, next: &[Lit]) {
    for f in 0..next.len() {
        let value = value_of(scene.values.as_slice(), next[f]);
        let size = number_at(scene.sizes.as_slice(), next[f].var().0 as usize);
        write(&mut scene.present, f, value);
        write(&mut scene.present_sizes, f, size);
    }
}

/// Nothing implies so many more variables yet.
fn widen(reasons: &mut Vec<u32>, vars: u32) -> Result<(), NoMemory> {
    reasons.resize(reasons.len().wrapping_add(vars as usize), 0)?;
    Ok(())
}

/// What follows in one time frame more.
fn add_frame(
    scene: &mut FrameValues,
    reasons: &mut Vec<u32>,
    encoding: &Encoding,
    template: &Template,
    base: usize,
) -> Result<(), NoMemory> {
    let clauses = encoding.clauses().slice();
    clear(scene);
    widen(reasons, encoding.vars())?;
    assign_units(scene, reasons, base, clauses, template.units.as_slice())?;
    assign_states(scene, reasons, base, encoding.states(), clauses.len())?;
    follow(scene, reasons, base, clauses, template, encoding.vars())?;
    lead(scene, encoding.next());
    Ok(())
}

/// Whether a flip-flop has another value than its bit of the state.
fn is_denied(present: &[u32], state: &Bits, f: usize) -> bool
    requires { f < length state.now }
{
    let value = number_at(present, f);
    value != 0 && value != number_of(state.get(f))
}

/// The flip-flop whose bit of the state is known, that has another value and follows from the fewest clauses, the last of these.
fn best_denied(present: &[u32], sizes: &[u32], state: &Seen) -> Option<u32> {
    let mut found = None;
    let mut least = MOST_ROWS;
    for f in 0..state.bits.len() {
        let size = number_at(sizes, f);
        if size <= least && !state.is_free(f) && is_denied(present, &state.bits, f) {
            least = size;
            found = Some((f % 0x1_0000_0000) as u32);
        }
    }
    found
}

/// The bits of a state, as values.
fn bits_of(alloc: Global, state: &Bits) -> Result<Vec<u32>, NoMemory> {
    let mut values = Vec::new(alloc);
    for f in 0..state.len() {
        values.push(number_of(state.get(f)))?;
    }
    Ok(values)
}

/// A scene in which the flip-flops have the bits at reset and nothing else has a value.
fn scene_at(alloc: Global, encoding: &Encoding, reset: &Bits) -> Result<FrameValues, NoMemory> {
    let present = bits_of(alloc, reset)?;
    let present_sizes = zeros(alloc, reset.len())?;
    let values = zeros(alloc, encoding.vars() as usize + 1)?;
    let sizes = zeros(alloc, encoding.vars() as usize + 1)?;
    let falses = zeros(alloc, encoding.clauses().len())?;
    Ok(FrameValues {
        values,
        sizes,
        falses,
        trail: Vec::new(alloc),
        present,
        present_sizes,
    })
}

/// What follows in the first time frames, up to the first length that this does not deny.
fn add_frames(
    scene: &mut FrameValues,
    into: &mut Implied,
    encoding: &Encoding,
    template: &Template,
    state: &Seen,
    k: u32,
) -> Result<(), NoMemory> {
    for c in 0..k {
        let base = (c as usize).wrapping_mul(encoding.vars() as usize);
        add_frame(scene, &mut into.reasons, encoding, template, base)?;
        match best_denied(
            scene.present.as_slice(),
            scene.present_sizes.as_slice(),
            state,
        ) {
            Some(f) => into.denied.push(f)?,
            None => return Ok(()),
        }
    }
    Ok(())
}

/// The same with a template.
fn implied_by(
    alloc: Global,
    encoding: &Encoding,
    template: &Template,
    reset: &Bits,
    state: &Seen,
    k: u32,
) -> Result<Implied, NoMemory> {
    let mut scene = scene_at(alloc, encoding, reset)?;
    let mut found = Implied {
        reasons: zeros(alloc, 1)?,
        denied: Vec::new(alloc),
    };
    add_frames(&mut scene, &mut found, encoding, template, state, k)?;
    Ok(found)
}

/// What follows from reset, up to the first of `k` lengths that this does not deny.
pub fn implied_from(
    alloc: Global,
    encoding: &Encoding,
    reset: &Bits,
    state: &Seen,
    k: u32,
) -> Result<Implied, NoMemory> {
    let template = template_of(alloc, encoding.clauses().slice(), encoding.vars())?;
    let found = implied_by(alloc, encoding, &template, reset, state, k)?;
    Ok(found)
}
