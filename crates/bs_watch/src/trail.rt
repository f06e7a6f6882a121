//! The trail: the literals that are true, the oldest first, each with its reason and its level.
ghost use Rattle.std.specs.Prelude.{◌≡◌, ◌↔◌, ◌-◌, ◌+◌, ◌*◌, ◌^◌, ◌<◌, ◌≤◌, [], ◌∷◌, ◌++◌, false, length, map, take, replicate, slice_get, slice_set};
ghost use Rattle.std.specs.Prelude.{vec_len, vec_capacity, Option, Some, None, IfOk, IfSome, IfNone, IsTrue, OnOk, OnErr};
ghost use Rattle.bs_clause.specs.Literal.{IsVariable, code_of};
ghost use Rattle.bs_clause.specs.Range.{HasVariables};
ghost use Rattle.bs_watch.specs.Trail.{IsTrueOn, IsFalseOn, IsOpenOn, IsAssignedOn, IsValueOn, IsOpenVariable, AreAssignedBelow};
ghost use Rattle.bs_watch.specs.Places.{IsUnassigned, IsLevelOf, IsImpliedBy, HasNoReason, IsLiteralAt, AreApart, literals_of, renamed_place, with_place};
ghost use Rattle.bs_watch.specs.Tables.{no_cause, HasValues};

use crate::cause::Cause;
use crate::decision::{first_in, grow_order, new_order, put_back, stays_ordered};
use crate::renaming::rename_causes;
use crate::tables::{
    make_room, no_causes, no_values, note_phase, push_cause, push_literal, push_values, set_cause,
    set_value,
};
use bs_arena::{Order, Ref, Renaming};
use bs_clause::{Lit, NoMemory, Var};
use std::alloc::Global;
use std::marker::Model;

/// The literals that are true, in the order in which they were assigned, over the variables 1 to
/// `vars`. Values stand by literal code, causes and phases by variable. From a search's first
/// decision until its trail goes back below the first level, each variable without a value waits in
/// the order of decisions.
#[derive(Drop)]
pub struct Trail {
    vars: u32,
    values: Vec<bool>,
    causes: Vec<Cause>,
    literals: Vec<Lit>,
    order: Order,
    is_ordered: bool,
    phases: Vec<bool>,
}

impl Model for Trail {
    ghost use Rattle.std.specs.Prelude.{vec_capacity};
    ghost use Rattle.bs_watch.specs.Places.{TrailState};
    ghost use Rattle.bs_watch.specs.Tables.{IsTrail, places_in};

    ghost Value = { TrailState };

    ghost view = { λ t. record { vars = t.vars; places = places_in t.causes.items t.literals.items } };

    ghost invariant = { λ t. IsTrail t.vars t.values.items t.causes.items t.literals.items t.order t.is_ordered (vec_capacity t.literals) };
}

impl Trail {
    /// The empty trail over so many variables.
    pub fn new(alloc: Global, vars: u32) -> Result<Trail, NoMemory>
        requires { vars < 2 ^ 30 }
        ensures { IfOk result (λ t. t ≡ record { vars = vars; places = [] }) }
    {
        let values = no_values(alloc, 2 * vars as usize + 2)?;
        let causes = no_causes(alloc, vars as usize + 1)?;
        let mut literals = Vec::new(alloc);
        literals.reserve(vars as usize)?;
        let order = new_order(alloc, vars)?;
        let phases = no_values(alloc, vars as usize + 1)?;
        Ok(Trail {
            vars,
            values,
            causes,
            literals,
            order,
            is_ordered: false,
            phases,
        })
    }

    /// The number of variables.
    pub fn vars(&self) -> u32
        ensures { result ≡ self.now.vars }
    {
        self.vars
    }

    /// One more variable, which has no value.
    pub fn grow(&mut self) -> Result<(), NoMemory>
        requires { self.old.vars + 1 < 2 ^ 30 }
        ensures ok { OnOk result (self.new ≡ record self.old { vars = self.old.vars + 1 }) }
        ensures err { OnErr result (self.new ≡ self.old) }
    {
        let vars = self.vars as usize + 1;
        make_room(&mut self.values, &mut self.causes, &mut self.literals, vars)?;
        grow_order(&mut self.order)?;
        push_values(&mut self.values);
        push_cause(&mut self.causes);
        self.vars += 1;
        self.is_ordered = false;
        Ok(())
    }

    /// The number of places that are taken, at most one a variable.
    pub fn len(&self) -> usize
        ensures length { result ≡ length self.now.places }
        ensures room { length self.now.places ≤ self.now.vars }
        ensures apart { AreApart self.now.places }
        ensures range { HasVariables self.now.vars (literals_of self.now.places) }
    {
        self.literals.len()
    }

    /// The literals that are true, the oldest first.
    pub fn literals(&self) -> &[Lit]
        ensures { result.now ≡ literals_of self.now.places }
    {
        self.literals.as_slice()
    }

    /// The literal in a place, which counts from 0.
    pub fn literal(&self, at: usize) -> Lit
        requires { at < length self.now.places }
        ensures literal { IsLiteralAt self.now.places at result }
        ensures range { result.variable ≤ self.now.vars }
    {
        self.literals[at]
    }

    /// Whether the literal is true.
    pub fn is_true(&self, l: Lit) -> bool
        requires { l.variable ≤ self.now.vars }
        ensures { IsTrue result ↔ IsTrueOn (literals_of self.now.places) l }
    {
        self.values[l.code() as usize]
    }

    /// Whether each literal is true, by its code.
    pub fn values(&self) -> &[bool]
        ensures long { length result.now ≡ 2 * self.now.vars + 2 }
        ensures values { HasValues result.now (literals_of self.now.places) }
    {
        self.values.as_slice()
    }

    /// Whether the literal is true or false, if its variable has a value.
    pub fn value(&self, l: Lit) -> Option<bool>
        requires { l.variable ≤ self.now.vars }
        ensures { IsValueOn (literals_of self.now.places) l result }
    {
        if self.is_true(l) {
            Some(true)
        } else if self.is_true(l.negate()) {
            Some(false)
        } else {
            None
        }
    }

    /// The level of a variable that has a value.
    pub fn level_of(&self, l: Lit) -> u32
        requires { IsAssignedOn (literals_of self.now.places) l }
        ensures { IsLevelOf self.now.places l result }
    {
        self.causes[l.var().0 as usize].level
    }

    /// The clause that implied the literal's variable, if it has a value and was implied.
    pub fn reason(&self, l: Lit) -> Option<Ref>
        requires { l.variable ≤ self.now.vars }
        ensures some { IfSome result (IsImpliedBy self.now.places l) }
        ensures none { IfNone result (HasNoReason self.now.places l) }
    {
        match self.value(l) {
            Some(_) => self.causes[l.var().0 as usize].reason,
            None => None,
        }
    }

    /// The variable without a value that comes first in the order of decisions, which is filled where it was given up.
    pub fn first_open(&mut self) -> Option<Var>
        ensures same { self.new ≡ self.old }
        ensures some { IfSome result (λ v.
            IsOpenVariable (literals_of self.old.places) self.old.vars v.0) }
        ensures none { IfNone result
            (AreAssignedBelow (literals_of self.old.places) (self.old.vars + 1)) }
    {
        let first = first_in(&mut self.order, self.is_ordered, self.values.as_slice());
        self.is_ordered = true;
        first
    }

    /// The literal of a variable that was true when a return to a level opened the variable last, or else the negative one.
    /// Which of the two it is decides nothing that a contract sees.
    pub fn preferred(&self, variable: Var) -> Lit
        requires { IsVariable variable.0 }
        ensures { result.variable ≡ variable.0 }
    {
        Lit::new(variable, self.phase(variable))
    }

    // The value that a return to a level took from a variable last, or false.
    fn phase(&self, variable: Var) -> bool {
        match self.phases.get(variable.0 as usize) {
            Some(phase) => *phase,
            None => false,
        }
    }

    /// A variable is more active, and comes earlier in the order of decisions.
    pub fn bump(&mut self, variable: Var)
        requires { variable.0 ≤ self.old.vars }
        ensures { self.new ≡ self.old }
    {
        self.order.bump(variable.0);
    }

    /// Earlier bumps count for less.
    pub fn decay(&mut self)
        ensures { self.new ≡ self.old }
    {
        self.order.decay();
    }

    /// Takes the next place. It takes no memory.
    pub fn assign(&mut self, literal: Lit, reason: Option<Ref>, level: u32)
        requires { IsUnassigned self.old literal }
        ensures { self.new ≡ with_place self.old literal reason level }
    {
        set_value(&mut self.values, literal, true);
        set_cause(&mut self.causes, literal, reason, level);
        push_literal(&mut self.literals, literal);
    }

    /// Goes back to so many places, the end of a level. The order of decisions is given up with the first level, and what opens
    /// behind it waits there again.
    pub fn cut(&mut self, end: usize, level: u32)
        ensures { self.new ≡ record self.old { places = take end self.old.places } }
    {
        self.leave_order(level);
        while self.literals.len() > end {
            self.undo();
        }
    }

    // Gives up the order of decisions with the first level.
    fn leave_order(&mut self, level: u32)
        ensures { self.new ≡ self.old }
    {
        self.is_ordered = stays_ordered(self.is_ordered, level);
    }

    // Gives up the newest place.
    fn undo(&mut self)
        requires { 0 < length self.old.places }
        ensures { self.new ≡ record self.old {
          places = take (length self.old.places - 1) self.old.places;
        } }
    {
        let last = self.literals.len() - 1;
        let literal = self.literals[last];
        set_value(&mut self.values, literal, false);
        note_phase(&mut self.phases, literal, self.is_ordered);
        self.literals.truncate(last);
        put_back(&mut self.order, self.is_ordered, literal.var());
    }

    /// Each reason has its new reference.
    pub fn rename(&mut self, names: &Renaming)
        ensures { self.new ≡ record self.old {
          places = map (renamed_place names.now.names) self.old.places;
        } }
    {
        rename_causes(&mut self.causes, names);
    }
}
