//! Marks on variables: which of them conflict analysis has yet to resolve or to keep.
ghost use Rattle.std.specs.Prelude.{◌≡◌, ◌<◌, ◌+◌, [], length, not, false, slice_set, replicate, IfOk, OnOk, OnErr};
ghost use Rattle.bs_solve_lemmas.specs.Marks.{MarkState, is_marked, marked_with, unmarked, widened, IsClear, StaysClear, AreTouched, HasMoved};

use bs_clause::{Lit, Lits, NoMemory};
use std::alloc::Global;
use std::marker::Model;

/// Marks on the variables 1 to a number. Contracts see each variable's mark, from 0, and the
/// literals that got a mark since all were cleared.
#[derive(Drop)]
pub struct Marks {
    flags: Vec<bool>,
    touched: Vec<Lit>,
}

impl Model for Marks {
    ghost use Rattle.bs_solve_lemmas.specs.Marks.{MarkState};

    ghost Value = { MarkState };

    ghost view = { λ m. record { flags = m.flags.items; touched = m.touched.items } };
}

impl Marks {
    /// No mark on so many variables.
    pub fn new(alloc: Global, vars: u32) -> Result<Marks, NoMemory>
        ensures { IfOk result (IsClear (vars + 1)) }
    {
        let flags = no_flags(alloc, vars as usize + 1)?;
        Ok(Marks {
            flags,
            touched: Vec::new(alloc),
        })
    }

    /// One more variable, which has no mark.
    pub fn grow(&mut self) -> Result<(), NoMemory>
        ensures ok { OnOk result (self.new ≡ widened self.old) }
        ensures clear { OnOk result (StaysClear self.old self.new) }
        ensures err { OnErr result (self.new ≡ self.old) }
    {
        self.flags.push(false)?;
        Ok(())
    }

    /// Whether the literal's variable has a mark.
    pub fn has(&self, l: Lit) -> bool
        requires { l.variable < length self.now.flags }
        ensures { result ≡ is_marked self.now l }
    {
        self.flags[l.var().0 as usize]
    }

    /// Marks the literal's variable. Whether it had no mark.
    pub fn add(&mut self, l: Lit) -> Result<bool, NoMemory>
        requires { l.variable < length self.old.flags }
        ensures is_new { IfOk result (λ is_new. is_new ≡ not (is_marked self.old l)) }
        ensures state { IfOk result (λ _. self.new ≡ marked_with self.old l) }
    {
        if self.has(l) {
            return Ok(false);
        }
        self.touched.push(l)?;
        set_flag(&mut self.flags, l, true);
        Ok(true)
    }

    /// Takes the mark of the literal's variable away.
    pub fn remove(&mut self, l: Lit)
        requires { l.variable < length self.old.flags }
        ensures { self.new ≡ unmarked self.old l }
    {
        set_flag(&mut self.flags, l, false);
    }

    /// Puts the marked literals at the clause's end, and clears all marks.
    pub fn move_to(&mut self, lits: &mut Lits) -> Result<(), NoMemory>
        requires { AreTouched self.old }
        ensures { OnOk result (HasMoved self.old self.new lits.old lits.new) }
    {
        move_marked(&mut self.flags, self.touched.as_slice(), lits)?;
        self.touched.clear();
        Ok(())
    }
}

// The mark of the literal's variable.
fn set_flag(flags: &mut Vec<bool>, l: Lit, marked: bool)
    requires { l.variable < length flags.old.items }
    ensures { flags.new.items ≡ slice_set flags.old.items l.variable marked }
{
    flags[l.var().0 as usize] = marked;
}

// The literals that have a mark, without their marks.
fn move_marked(flags: &mut Vec<bool>, touched: &[Lit], lits: &mut Lits) -> Result<(), NoMemory>
    requires { AreTouched (record { flags = flags.old.items; touched = touched.now }) }
    ensures { OnOk result (HasMoved (record { flags = flags.old.items; touched = touched.now })
        (record { flags = flags.new.items; touched = [] }) lits.old lits.new) }
{
    for l in touched {
        if flags[l.var().0 as usize] {
            lits.push(*l)?;
            set_flag(flags, *l, false);
        }
    }
    Ok(())
}

fn no_flags(alloc: Global, count: usize) -> Result<Vec<bool>, NoMemory>
    ensures { IfOk result (λ v. v.items ≡ replicate count false) }
{
    let flags = vec![in alloc; false; count]?;
    Ok(flags)
}
