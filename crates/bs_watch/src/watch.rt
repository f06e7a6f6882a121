//! A trail with levels and reasons, and the watched literals of clauses.
ghost use Rattle.std.specs.Prelude.{◌≡◌, ◌+◌, ◌*◌, ◌^◌, ◌<◌, ◌≤◌, [], length, take, slice_get, option_map, IfOk, IfSome, IfNone, IsSome, IsPermutation, OnOk, OnErr};
ghost use Rattle.bs_watch.specs.Trail.{IsAssignedOn, IsValueOn, IsOpenVariable, AreAssignedBelow};
ghost use Rattle.bs_watch.specs.Places.{IsUnassigned, IsLevelOf, IsImpliedBy, HasNoReason, AreApart, literals_of};
ghost use Rattle.bs_watch.specs.Scene.{IsWatchable, Advances, Propagated, KeepsRoom};
ghost use Rattle.bs_clause.specs.Literal.{IsVariable};
ghost use Rattle.bs_clause.specs.Range.{HasVariables};
ghost use Rattle.bs_watch.specs.Choice.{AreHighest};
ghost use Rattle.bs_watch.specs.Passing.{ArePassed};
ghost use Rattle.bs_watch.specs.Spans.{IsSpan};
ghost use Rattle.bs_watch.specs.Tables.{HasValues};
ghost use Rattle.bs_watch.specs.Sweep.{HasServed, HasSwept};
ghost use Rattle.bs_watch.specs.Lists.{IsAttached};
ghost use Rattle.bs_arena.specs.Arena.{KeepsOthers, held_at, literals_at};
ghost use Rattle.bs_watch.specs.Watch.{Serves, ServesAll, HasNone, KeepsService, MayAttach, HasAttached, HasGoneBack, ServesRenamed, AreLevelled};
ghost use Rattle.bs_watch.specs.Watch.{scene, grown, decided, assigned, with_head, renamed_watch};

use crate::attachment::join_two;
use crate::choice::lift;
use crate::false_span::{FalseSpan, cut, longer};
use crate::lists::WatchLists;
use crate::propagation::{first_watched, look_on};
use crate::sweep::sweep_lists;
use crate::trail::Trail;
use crate::visit::Outcome;
use bs_arena::{Arena, Ref, Renaming};
use bs_clause::{Lit, NoMemory, Var};
use std::alloc::Global;
use std::marker::Model;

/// Where a level begins: how many places the trail had, and how many of them had been looked at.
#[derive(Clone, Copy)]
pub struct Level {
    pub start: usize,
    pub looked: usize,
}

/// A trail and watch lists. Contracts see the places of the trail, where each level begins, how
/// many places have been looked at, and the watchers of each literal.
#[derive(Drop)]
pub struct Watch {
    trail: Trail,
    levels: Vec<Level>,
    head: usize,
    lists: WatchLists,
    span: FalseSpan,
}

impl Model for Watch {
    ghost use Rattle.std.specs.Prelude.{vec_capacity};
    ghost use Rattle.bs_watch.specs.Watch.{WatchState};
    ghost use Rattle.bs_watch.specs.Spans.{IsSpanned};

    ghost Value = { WatchState };

    ghost view = { λ w. record { trail = w.trail; levels = w.levels.items; head = w.head; lists = w.lists } };

    ghost invariant = { λ w. IsSpanned (record { trail = w.trail; levels = w.levels.items; head = w.head; lists = w.lists }) (vec_capacity w.levels) w.span };
}

impl Watch {
    /// An empty trail over the variables 1 to `vars`, and no attached clause.
    pub fn new(alloc: Global, vars: u32) -> Result<Watch, NoMemory>
        requires { vars < 2 ^ 30 }
        ensures vars { IfOk result (λ w. w.trail ≡ record { vars = vars; places = [] }) }
        ensures levels { IfOk result (λ w. w.levels ≡ []) }
        ensures serves { IfOk result ServesAll }
        ensures attached { IfOk result HasNone }
    {
        let trail = Trail::new(alloc, vars)?;
        let mut levels = Vec::new(alloc);
        levels.reserve(vars as usize + 1)?;
        let lists = WatchLists::new(alloc, 2 * vars as usize + 2)?;
        Ok(Watch {
            trail,
            levels,
            head: 0,
            lists,
            span: FalseSpan {
                first: vars + 1,
                past: vars + 1,
                places: 0,
            },
        })
    }

    /// One more variable, the last, which has no value and no clause.
    pub fn grow(&mut self, alloc: Global) -> Result<Var, NoMemory>
        requires { self.old.trail.vars + 1 < 2 ^ 30 }
        ensures variable { IfOk result (λ v. v.0 ≡ self.old.trail.vars + 1) }
        ensures ok { OnOk result (self.new ≡ grown self.old) }
        ensures serves { OnOk result (KeepsService self.old self.new) }
        ensures err { OnErr result (self.new ≡ self.old) }
    {
        let vars = self.trail.vars() + 1;
        self.levels
            .reserve((vars as usize + 1).saturating_sub(self.levels.len()))?;
        let rows = self.lists.rows();
        self.lists.grow(alloc)?;
        match self.trail.grow() {
            Ok(()) => Ok(Var(vars)),
            Err(fault) => {
                self.lists.cut(rows);
                Err(fault)
            }
        }
    }

    /// Makes room for more watchers of the literal with this code, if there is one. Nothing that a contract sees changes.
    pub fn reserve(&mut self, code: usize, more: usize) -> Result<(), NoMemory>
        ensures { self.new ≡ self.old }
    {
        self.lists.reserve(code, more)
    }

    /// Attaches a clause whose first two literals are guarded: where one of them is false and has
    /// been looked at, the clause has a true literal.
    pub fn attach(&mut self, arena: &Arena, r: Ref) -> Result<(), NoMemory>
        requires serves { Serves self.old arena.now.clauses }
        requires live { IsSome (held_at arena.now.clauses r) }
        requires watchable { IsWatchable self.old.trail.vars (literals_at arena.now.clauses r) }
        requires fresh { ¬ IsAttached self.old.lists r }
        requires guarded { MayAttach self.old (literals_at arena.now.clauses r) }
        ensures ok { OnOk result (HasAttached self.old self.new arena.now.clauses r) }
        ensures err { OnErr result (self.new ≡ self.old) }
    {
        let codes = arena.lits(r);
        join_two(
            &mut self.lists,
            r,
            Lit::from_code(codes[0]),
            Lit::from_code(codes[1]),
        )
    }

    /// Moves the two literals to the front of a clause that are not false, or became so last. The
    /// clause can then be attached as it is, or once the trail has gone back to the level of the
    /// second one and the first one has been assigned.
    pub fn choose_watches(&self, arena: &mut Arena, r: Ref)
        requires live { IsSome (held_at arena.old.clauses r) }
        requires watchable { IsWatchable self.now.trail.vars (literals_at arena.old.clauses r) }
        ensures live { IsSome (held_at arena.new.clauses r) }
        ensures watchable { IsWatchable self.now.trail.vars (literals_at arena.new.clauses r) }
        ensures same { IsPermutation (literals_at arena.old.clauses r)
            (literals_at arena.new.clauses r) }
        ensures highest { AreHighest self.now.trail.places (literals_at arena.new.clauses r) }
        ensures others { KeepsOthers arena.old.clauses arena.new.clauses r }
        ensures id { option_map (λ h. h.id) (held_at arena.new.clauses r)
            ≡ option_map (λ h. h.id) (held_at arena.old.clauses r) }
        ensures room { KeepsRoom arena.old arena.new }
    {
        self.holds_levels();
        lift(&self.trail, arena, r, 0);
        lift(&self.trail, arena, r, 1);
    }

    /// Detaches the clauses that were killed since the watch served the arena. These literals watch
    /// them, the first two of each, which the caller has read before the kills. A list is looked
    /// through once for each time that its literal is given.
    pub fn sweep(&mut self, arena: &Arena, literals: &[Lit])
        requires served { HasServed self.old arena.now literals.now }
        requires range { HasVariables self.old.trail.vars literals.now }
        ensures { HasSwept self.old self.new arena.now.clauses }
    {
        sweep_lists(&mut self.lists, arena, literals);
    }

    /// The number of variables.
    pub fn vars(&self) -> u32
        ensures { result ≡ self.now.trail.vars }
    {
        self.trail.vars()
    }

    /// The literals that are true, in the order in which they were assigned.
    pub fn trail(&self) -> &[Lit]
        ensures { result.now ≡ literals_of self.now.trail.places }
    {
        self.trail.literals()
    }

    /// Whether each literal is true, by its code.
    pub fn values(&self) -> &[bool]
        ensures long { length result.now ≡ 2 * self.now.trail.vars + 2 }
        ensures values { HasValues result.now (literals_of self.now.trail.places) }
    {
        self.trail.values()
    }

    /// Whether the literal is true or false, if its variable has a value.
    pub fn value(&self, lit: Lit) -> Option<bool>
        requires { lit.variable ≤ self.now.trail.vars }
        ensures { IsValueOn (literals_of self.now.trail.places) lit result }
    {
        self.trail.value(lit)
    }

    /// The level of a variable that has a value.
    pub fn level_of(&self, lit: Lit) -> u32
        requires { IsAssignedOn (literals_of self.now.trail.places) lit }
        ensures { IsLevelOf self.now.trail.places lit result }
    {
        self.trail.level_of(lit)
    }

    /// The clause that implied the literal's variable, if it has a value and was implied.
    pub fn reason(&self, lit: Lit) -> Option<Ref>
        requires { lit.variable ≤ self.now.trail.vars }
        ensures some { IfSome result (IsImpliedBy self.now.trail.places lit) }
        ensures none { IfNone result (HasNoReason self.now.trail.places lit) }
    {
        self.trail.reason(lit)
    }

    /// The variable without a value that comes first in the order of decisions: the most active one, and of those the lowest.
    pub fn first_open(&mut self) -> Option<Var>
        ensures same { self.new ≡ self.old }
        ensures some { IfSome result (λ v.
            IsOpenVariable (literals_of self.old.trail.places) self.old.trail.vars v.0) }
        ensures none { IfNone result
            (AreAssignedBelow (literals_of self.old.trail.places) (self.old.trail.vars + 1)) }
    {
        self.trail.first_open()
    }

    /// The literal of a variable that was true when a return to a level opened the variable last, or else the negative one. A
    /// return to what stands for good is none to a level. Which of the two it is decides nothing that a contract sees.
    pub fn preferred(&self, variable: Var) -> Lit
        requires { IsVariable variable.0 }
        ensures { result.variable ≡ variable.0 }
    {
        self.trail.preferred(variable)
    }

    /// A variable had a part in a conflict: it comes earlier in the order of decisions. Nothing that a contract sees changes.
    pub fn bump(&mut self, variable: Var)
        requires { variable.0 ≤ self.old.trail.vars }
        ensures { self.new ≡ self.old }
    {
        self.trail.bump(variable);
    }

    /// A conflict is over: parts in it and in those before count for less. Nothing that a contract sees changes.
    pub fn decay(&mut self)
        ensures { self.new ≡ self.old }
    {
        self.trail.decay();
    }

    /// What holds of every watch.
    pub fn holds_levels(&self)
        ensures levels { AreLevelled self.now.trail.places self.now.levels }
        ensures apart { AreApart self.now.trail.places }
        ensures room { length self.now.trail.places ≤ self.now.trail.vars }
        ensures range { HasVariables self.now.trail.vars (literals_of self.now.trail.places) }
        ensures looked { self.now.head ≤ length self.now.trail.places }
    {
        let _ = self.trail.len();
    }

    /// The number of the present level.
    pub fn level(&self) -> u32
        ensures { result ≡ length self.now.levels }
    {
        self.levels.len() as u32
    }

    /// Begins a level.
    pub fn decide(&mut self)
        requires { length self.old.levels ≤ self.old.trail.vars }
        ensures new { self.new ≡ decided self.old }
        ensures serves { KeepsService self.old self.new }
    {
        let level = Level {
            start: self.trail.len(),
            looked: self.head,
        };
        let _ = self.levels.push(level);
    }

    /// Takes the next place of the trail. It takes no memory.
    pub fn assign(&mut self, lit: Lit, reason: Option<Ref>)
        requires { IsUnassigned self.old.trail lit }
        ensures new { self.new ≡ assigned self.old lit reason }
        ensures serves { KeepsService self.old self.new }
    {
        let level = self.levels.len() as u32;
        self.trail.assign(lit, reason, level);
    }

    /// Assigns what the attached clauses imply, until none is unit, or one is false.
    pub fn propagate(&mut self, arena: &mut Arena) -> Result<Outcome, NoMemory>
        requires { Serves self.old arena.old.clauses }
        ensures serves { Serves self.new arena.new.clauses }
        ensures advances { Advances (length self.old.levels) (scene self.old arena.old.clauses)
            (scene self.new arena.new.clauses) }
        ensures levels { self.new.levels ≡ self.old.levels }
        ensures room { KeepsRoom arena.old arena.new }
        ensures ok { IfOk result (Propagated (scene self.new arena.new.clauses)) }
    {
        let level = self.levels.len() as u32;
        look_on(
            &mut self.trail,
            &mut self.lists,
            arena,
            level,
            &mut self.head,
        )
    }

    /// Counts the next places of the trail as looked at, up to the first whose negated literal is watched. What nobody will
    /// watch is so passed once, and not again by each propagation after a return. The span grows by the variable of the last
    /// literal, if that is its next one and is false. It takes no memory.
    pub fn pass(&mut self)
        ensures new { self.new ≡ with_head self.old self.new.head }
        ensures passed { ArePassed self.old.lists self.old.trail.places self.old.head self.new.head }
        ensures serves { KeepsService self.old self.new }
    {
        self.head = first_watched(&self.trail, &self.lists, self.head);
        self.span = longer(&self.trail, self.span);
    }

    /// Variables in a row that are false, which need no look at each. It begins behind those of `new`.
    pub fn span(&self) -> FalseSpan
        ensures { IsSpan self.now.trail result }
    {
        self.span
    }

    /// Goes back to the end of a level.
    pub fn cancel_to(&mut self, level: u32)
        requires { level ≤ length self.old.levels }
        ensures levels { self.new.levels ≡ take level self.old.levels }
        ensures lists { self.new.lists ≡ self.old.lists }
        ensures back { IfSome (slice_get self.old.levels level) (HasGoneBack self.old self.new) }
        ensures same { length self.old.levels ≤ level → self.new ≡ self.old }
        ensures serves { KeepsService self.old self.new }
    {
        if (level as usize) < self.levels.len() {
            let begun = self.levels[level as usize];
            self.levels.truncate(level as usize);
            self.trail.cut(begun.start, level);
            self.head = begun.looked;
            self.span = cut(self.span, begun.start);
        }
    }

    /// Each reference is replaced by its new one.
    pub fn rename(&mut self, names: &Renaming)
        ensures new { self.new ≡ renamed_watch names.now.names self.old }
        ensures serves { ServesRenamed self.old self.new names.now.names }
    {
        self.trail.rename(names);
        self.lists.rename(names);
    }
}
