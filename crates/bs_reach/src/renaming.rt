//! Lines with other ids and variables.
ghost use Rattle.std.specs.Prelude.{◌≡◌, ◌≤◌, map, All, IfOk};
ghost use Rattle.bs_reach.specs.Renamed.{new_id, new_literal, new_clause, new_line, IdFits, LiteralFits, HasRoom};

use crate::offsets::Shift;
use bs_bits::List;
use bs_clause::{Lit, Lits, NoMemory, Var};
use bs_log::{Line, Log};
use std::alloc::Global;

/// Where an id goes.
fn new_id(s: Shift, id: u64) -> u64
    requires order { s.front_by ≤ s.listed_by }
    requires room { IdFits s id }
    ensures { result ≡ new_id s id }
{
    if id <= s.front {
        id
    } else if id <= s.listed {
        id + s.front_by
    } else {
        id + s.listed_by
    }
}

/// Where a literal goes.
fn new_literal(s: Shift, l: Lit) -> Lit
    requires room { LiteralFits s l }
    ensures { result ≡ new_literal s l }
{
    let v = l.var().0;
    let new = if v <= s.vars { v } else { v + s.vars_by };
    Lit::new(Var(new), l.positive())
}

/// Where ids go.
fn new_ids(alloc: Global, s: Shift, ids: &[u64]) -> Result<List<u64>, NoMemory>
    requires order { s.front_by ≤ s.listed_by }
    requires room { All (IdFits s) ids.now }
    ensures { IfOk result (λ new. new ≡ map (new_id s) ids.now) }
{
    let mut new = List::new(alloc);
    'ids: for id in ids {
        new.push(new_id(s, *id))?;
    }
    Ok(new)
}

/// Where the literals of a clause go.
fn new_clause(alloc: Global, s: Shift, clause: &[Lit]) -> Result<Lits, NoMemory>
    requires room { All (LiteralFits s) clause.now }
    ensures { IfOk result (λ new. new ≡ new_clause s clause.now) }
{
    let mut new = Lits::new(alloc);
    'literals: for l in clause {
        new.push(new_literal(s, *l))?;
    }
    Ok(new)
}

/// The line with the new ids and variables.
fn new_line(alloc: Global, s: Shift, line: &Line) -> Result<Line, NoMemory>
    requires order { s.front_by ≤ s.listed_by }
    requires room { HasRoom s line.now }
    ensures { IfOk result (λ new. new ≡ new_line s line.now) }
{
    match line {
        Line::Solve => Ok(Line::Solve),
        Line::Lemma { id, lits, hints } => {
            let new_lits = new_clause(alloc, s, lits.slice())?;
            let new_hints = new_ids(alloc, s, hints.slice())?;
            Ok(Line::Lemma {
                id: new_id(s, *id),
                lits: new_lits,
                hints: new_hints,
            })
        }
        Line::Block { id, lits } => {
            let new_lits = new_clause(alloc, s, lits.slice())?;
            Ok(Line::Block {
                id: new_id(s, *id),
                lits: new_lits,
            })
        }
        Line::Finish { id } => Ok(Line::Finish { id: new_id(s, *id) }),
        Line::Retire { id } => Ok(Line::Retire { id: new_id(s, *id) }),
        Line::Delete { ids } => {
            let new = new_ids(alloc, s, ids.slice())?;
            Ok(Line::Delete { ids: new })
        }
    }
}

/// The log with the new ids and variables.
pub fn renamed(alloc: Global, s: Shift, log: &Log) -> Result<Log, NoMemory>
    requires order { s.front_by ≤ s.listed_by }
    requires room { All (HasRoom s) log.now }
    ensures { IfOk result (λ new. new ≡ map (new_line s) log.now) }
{
    let mut new = Log::new(alloc);
    'lines: for line in log.slice() {
        new.push(new_line(alloc, s, line)?)?;
    }
    Ok(new)
}
