//! The clauses from which a literal follows: each is found by what implies its literal, behind those that imply the others.
ghost use Rattle.std.specs.Prelude.{◌≡◌, ◌<◌, ◌≤◌, ◌++◌, ◌∷◌, [], length, IfOk, OnOk, IfSome};
ghost use Rattle.bs_reach_unrolled.specs.Room.{IsUnrollable};
ghost use Rattle.bs_reach_unrolled.specs.Unrolled.{unrolled};
ghost use Rattle.bs_reach_unrolled.specs.declared.rows.TheConstants.{ROW_ROOM};
ghost use Rattle.bs_reach_unrolled.specs.Rows.{IsRow, AreRows, Adds};

use crate::rows::{UnrolledClause, frame_row, link_row, reset_row};
use crate::template::{number_at, write};
use bs_bits::Bits;
use bs_clause::{Lit, Lits, NoMemory};
use bs_encode::Encoding;
use std::alloc::Global;

/// The search for a cone ends after so many steps.
/// No search comes near: by this bound the loop has an end without a proof of one.
const MAX_STEPS: u64 = 1 << 40;

/// What is looked at a second time, when what it needs has its place, is so much higher.
/// The highest bit: code and time frame stand below it.
const AGAIN: u64 = 1 << 63;

/// Clauses with their ids, each with the literal that it implies and the place of a clause that needs this; and the literals that
/// are asked for, the code of each with the time frame of its variable above.
#[derive(Drop)]
pub(crate) struct NeededClauses {
    pub(crate) literals: Vec<Lit>,
    pub(crate) clauses: Vec<Lits>,
    pub(crate) ids: Vec<u64>,
    pub(crate) later: Vec<u32>,
    stack: Vec<u64>,
}

impl NeededClauses {
    /// A cone without a clause.
    pub(crate) fn new(alloc: Global) -> NeededClauses
        ensures { (result.ids.items ≡ []) × (result.clauses.items ≡ []) }
    {
        NeededClauses {
            literals: Vec::new(alloc),
            clauses: Vec::new(alloc),
            ids: Vec::new(alloc),
            later: Vec::new(alloc),
            stack: Vec::new(alloc),
        }
    }
}

/// The row of a reason in time frame number `c`.
fn row_by(
    alloc: Global,
    encoding: &Encoding,
    reset: &Bits,
    k: u32,
    c: u32,
    reason: usize,
    positive: bool,
) -> Result<Option<UnrolledClause>, NoMemory>
    requires unrollable { IsUnrollable encoding.now k }
    requires width { length encoding.now.states ≡ length reset.now }
    requires small { length encoding.now.clauses ≤ ROW_ROOM }
    requires narrow { length encoding.now.states ≤ ROW_ROOM }
    ensures { IfOk result (λ r. IfSome r (IsRow (unrolled encoding.now reset.now k))) }
{
    let rows = encoding.clauses().len();
    if c >= k {
        return Ok(None);
    }
    if reason < rows {
        let row = frame_row(alloc, encoding, reset, c, k, reason)?;
        return Ok(Some(row));
    }
    let f = reason - rows;
    if f >= encoding.states().len() {
        return Ok(None);
    }
    if c == 0 {
        let row = reset_row(alloc, encoding, reset, k, f)?;
        return Ok(Some(row));
    }
    let row = link_row(alloc, encoding, reset, c - 1, k, f, positive)?;
    Ok(Some(row))
}

/// Whether the literal of this code has its place.
fn has(literals: &[Lit], places: &[u32], code: u32) -> bool {
    let at = number_at(places, code as usize / 2) as usize;
    if at >= literals.len() {
        return false;
    }
    literals[at].code() == code
}

/// The literal of this code with the time frame of its variable.
fn asked(code: u32, c: u32) -> u64 {
    u64::from(c) * 0x1_0000_0000 + u64::from(code)
}

/// Asks for the literal of this code in a time frame, where it has no place yet. Whether it was asked for.
fn ask_for(
    literals: &[Lit],
    places: &[u32],
    stack: &mut Vec<u64>,
    code: u32,
    c: u32,
) -> Result<bool, NoMemory> {
    if has(literals, places, code) {
        return Ok(false);
    }
    stack.push(asked(code, c))?;
    Ok(true)
}

/// Asks for what denies the other literals of a clause of a time frame, whose codes are so much higher. Whether anything was asked for.
fn ask_clause(
    literals: &[Lit],
    places: &[u32],
    stack: &mut Vec<u64>,
    clause: &[Lit],
    by: u32,
    c: u32,
    code: u32,
) -> Result<bool, NoMemory> {
    let mut more = false;
    for m in clause {
        let own = m.code().wrapping_add(by) == code;
        let other = m.negate().code().wrapping_add(by);
        if !own && ask_for(literals, places, stack, other, c)? {
            more = true;
        }
    }
    Ok(more)
}

/// Asks for what the reason of a literal in time frame number `c` needs. Whether anything was asked for.
fn ask(
    encoding: &Encoding,
    literals: &[Lit],
    places: &[u32],
    stack: &mut Vec<u64>,
    c: u32,
    reason: usize,
    code: u32,
) -> Result<bool, NoMemory> {
    let clauses = encoding.clauses().slice();
    let step = encoding.vars().wrapping_mul(2);
    if reason < clauses.len() {
        let clause = clauses[reason].slice();
        let by = step.wrapping_mul(c);
        return ask_clause(literals, places, stack, clause, by, c, code);
    }
    let f = reason - clauses.len();
    let next = encoding.next();
    if c == 0 || f >= next.len() {
        return Ok(false);
    }
    let positive = next[f].code() / 2 * 2;
    let other = step.wrapping_mul(c - 1).wrapping_add(positive);
    ask_for(literals, places, stack, other.wrapping_add(code % 2), c - 1)
}

/// Notes for what denies the other literals of a clause that this clause needs it.
fn note_later(later: &mut Vec<u32>, places: &[u32], clause: &[Lit], code: u32, at: u32) {
    for m in clause {
        if m.code() != code {
            let place = number_at(places, m.code() as usize / 2) as usize;
            write(later, place, at);
        }
    }
}

/// The literal of this code in a clause.
fn literal_in(clause: &[Lit], code: u32) -> Option<Lit> {
    for m in clause {
        if m.code() == code {
            return Some(*m);
        }
    }
    None
}

/// Puts a row at the end.
fn add(cone: &mut NeededClauses, l: Lit, row: UnrolledClause, at: u32) -> Result<(), NoMemory>
    ensures { OnOk result (Adds cone.old cone.new row) }
{
    cone.later.push(at)?;
    cone.literals.push(l)?;
    cone.ids.push(row.id)?;
    cone.clauses.push(row.clause)?;
    Ok(())
}

/// Gives the literal of this code its place, with its row.
fn place(
    cone: &mut NeededClauses,
    places: &mut Vec<u32>,
    l: Lit,
    code: u32,
    row: UnrolledClause,
) -> Result<(), NoMemory>
    ensures { OnOk result (Adds cone.old cone.new row) }
{
    let at = (cone.literals.len() % 0x1_0000_0000) as u32;
    write(places, code as usize / 2, at);
    note_later(
        &mut cone.later,
        places.as_slice(),
        row.clause.slice(),
        code,
        at,
    );
    add(cone, l, row, at)
}

/// Takes the last off.
fn drop_last(stack: &mut Vec<u64>) {
    let count = stack.len();
    if count > 0 {
        stack.truncate(count - 1);
    }
}

/// Notes that the last is looked at again.
fn look_again(stack: &mut Vec<u64>) {
    let count = stack.len();
    if count > 0 {
        let last = stack[count - 1];
        stack[count - 1] = last | AGAIN;
    }
}

/// Gives the literal of this code its place, where it stands in the row. Whether it does.
fn settle(
    encoding: &Encoding,
    reset: &Bits,
    k: u32,
    cone: &mut NeededClauses,
    places: &mut Vec<u32>,
    code: u32,
    row: UnrolledClause,
) -> Result<bool, NoMemory>
    requires row { IsRow (unrolled encoding.now reset.now k) row }
    requires rows { AreRows (unrolled encoding.now reset.now k) cone.old.ids.items cone.old.clauses.items }
    ensures { IfOk result (λ _. AreRows (unrolled encoding.now reset.now k) cone.new.ids.items cone.new.clauses.items) }
{
    match literal_in(row.clause.slice(), code) {
        None => Ok(false),
        Some(l) => {
            place(cone, places, l, code, row)?;
            Ok(true)
        }
    }
}

/// Makes the row of a reason for a literal in time frame number `c`. Whether there is one.
fn take(
    alloc: Global,
    encoding: &Encoding,
    reset: &Bits,
    k: u32,
    cone: &mut NeededClauses,
    places: &mut Vec<u32>,
    c: u32,
    reason: usize,
    code: u32,
) -> Result<bool, NoMemory>
    requires unrollable { IsUnrollable encoding.now k }
    requires width { length encoding.now.states ≡ length reset.now }
    requires small { length encoding.now.clauses ≤ ROW_ROOM }
    requires narrow { length encoding.now.states ≤ ROW_ROOM }
    requires rows { AreRows (unrolled encoding.now reset.now k) cone.old.ids.items cone.old.clauses.items }
    ensures { IfOk result (λ _. AreRows (unrolled encoding.now reset.now k) cone.new.ids.items cone.new.clauses.items) }
{
    match row_by(alloc, encoding, reset, k, c, reason, code % 2 == 0)? {
        None => Ok(false),
        Some(row) => settle(encoding, reset, k, cone, places, code, row),
    }
}

/// Looks at the literal of this code in time frame number `c`, which was asked for last. Whether there is a row for it.
fn visit(
    alloc: Global,
    encoding: &Encoding,
    reset: &Bits,
    reasons: &[u32],
    k: u32,
    cone: &mut NeededClauses,
    places: &mut Vec<u32>,
    c: u32,
    code: u32,
    again: bool,
) -> Result<bool, NoMemory>
    requires unrollable { IsUnrollable encoding.now k }
    requires width { length encoding.now.states ≡ length reset.now }
    requires small { length encoding.now.clauses ≤ ROW_ROOM }
    requires narrow { length encoding.now.states ≤ ROW_ROOM }
    requires rows { AreRows (unrolled encoding.now reset.now k) cone.old.ids.items cone.old.clauses.items }
    ensures { IfOk result (λ _. AreRows (unrolled encoding.now reset.now k) cone.new.ids.items cone.new.clauses.items) }
{
    let reason = number_at(reasons, code as usize / 2) as usize;
    if reason == 0 {
        return Ok(false);
    }
    if !again {
        look_again(&mut cone.stack);
        let literals = cone.literals.as_slice();
        let stack = &mut cone.stack;
        if ask(
            encoding,
            literals,
            places.as_slice(),
            stack,
            c,
            reason - 1,
            code,
        )? {
            return Ok(true);
        }
    }
    drop_last(&mut cone.stack);
    take(alloc, encoding, reset, k, cone, places, c, reason - 1, code)
}

/// Looks at what is asked for until nothing is, or nothing implies it.
fn gather(
    alloc: Global,
    encoding: &Encoding,
    reset: &Bits,
    reasons: &[u32],
    k: u32,
    cone: &mut NeededClauses,
    places: &mut Vec<u32>,
) -> Result<(), NoMemory>
    requires unrollable { IsUnrollable encoding.now k }
    requires width { length encoding.now.states ≡ length reset.now }
    requires small { length encoding.now.clauses ≤ ROW_ROOM }
    requires narrow { length encoding.now.states ≤ ROW_ROOM }
    requires rows { AreRows (unrolled encoding.now reset.now k) cone.old.ids.items cone.old.clauses.items }
    ensures { OnOk result (AreRows (unrolled encoding.now reset.now k) cone.new.ids.items cone.new.clauses.items) }
{
    'steps: for _ in 0..MAX_STEPS {
        let count = cone.stack.len();
        if count == 0 {
            return Ok(());
        }
        let last = cone.stack[count - 1];
        let code = (last % 0x1_0000_0000) as u32;
        let c = (last % AGAIN / 0x1_0000_0000) as u32;
        if has(cone.literals.as_slice(), places.as_slice(), code) {
            drop_last(&mut cone.stack);
        } else if !visit(
            alloc,
            encoding,
            reset,
            reasons,
            k,
            cone,
            places,
            c,
            code,
            last >= AGAIN,
        )? {
            return Ok(());
        }
    }
    Ok(())
}

/// Lets the clauses of the cone before go, and asks for a literal in a time frame.
fn begin(cone: &mut NeededClauses, l: Lit, c: u32) -> Result<(), NoMemory>
    ensures ids { cone.new.ids.items ≡ [] }
    ensures clauses { cone.new.clauses.items ≡ [] }
{
    cone.literals.truncate(0);
    cone.clauses.truncate(0);
    cone.ids.truncate(0);
    cone.later.truncate(0);
    cone.stack.truncate(0);
    cone.stack.push(asked(l.code(), c))?;
    Ok(())
}

/// The cone becomes that of the clauses from which a literal of time frame number `c` follows.
pub(crate) fn find(
    alloc: Global,
    encoding: &Encoding,
    reset: &Bits,
    reasons: &[u32],
    k: u32,
    cone: &mut NeededClauses,
    places: &mut Vec<u32>,
    l: Lit,
    c: u32,
) -> Result<(), NoMemory>
    requires unrollable { IsUnrollable encoding.now k }
    requires width { length encoding.now.states ≡ length reset.now }
    requires small { length encoding.now.clauses ≤ ROW_ROOM }
    requires narrow { length encoding.now.states ≤ ROW_ROOM }
    ensures { OnOk result (AreRows (unrolled encoding.now reset.now k) cone.new.ids.items cone.new.clauses.items) }
{
    begin(cone, l, c)?;
    gather(alloc, encoding, reset, reasons, k, cone, places)
}
