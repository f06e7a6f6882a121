//! The variables that may be open, the most active one first.
ghost use Rattle.std.specs.Prelude.{◌≡◌, ◌+◌, ◌*◌, ◌<◌, ◌≤◌, ◌^◌, [], ◌∷◌, ◌++◌, length, true, false, None, replicate, slice_set};
ghost use Rattle.std.specs.Prelude.{vec_len, vec_capacity, IfOk, IfSome, IfNone, OnOk, OnErr};
ghost use Rattle.bs_arena.specs.Heap.{AreScaled, IsRaised};
ghost use Rattle.bs_arena.specs.Open.{HoldsOpen, AreAllAssigned, is_in, is_assigned};

use crate::activity_heap::{add_last, first_without, raise, sift_up};
use crate::value::has_value;
use std::alloc::{AllocError, Global};
use std::marker::Model;

/// A bump above this has all activities scaled down, and the bump with them.
/// Activities are sums of bumps, and bumps grow by a sixteenth: so activities stay far below 2^64.
const MAX_BUMP: u64 = 1 << 50;

/// By so many binary digits.
/// `MAX_BUMP` comes down to `FIRST_BUMP`.
const SCALE: u32 = 30;

/// What a first bump adds: what a bump above the limit is scaled down to.
/// It is great enough that a sixteenth of it still has many digits.
const FIRST_BUMP: u64 = 1 << 20;

/// The variables 1 to a number by activity, those that wait in a heap. Contracts see whether each variable waits, from 0, which
/// never does.
#[derive(Drop)]
pub struct Order {
    heap: Vec<u32>,
    positions: Vec<Option<u32>>,
    activities: Vec<u64>,
    bump: u64,
}

impl Model for Order {
    ghost use Rattle.std.specs.Prelude.{List, Bool, vec_capacity};
    ghost use Rattle.bs_arena.specs.Heap.{IsOrder, members};

    ghost Value = { List Bool };

    ghost view = { λ o. members o.positions.items };

    ghost invariant = { λ o. IsOrder o.heap.items o.positions.items o.activities.items (vec_capacity o.heap) };
}

// Room for so many variables, and one more.
fn no_heap(alloc: Global, vars: u32) -> Result<Vec<u32>, AllocError>
    requires { vars < 2 ^ 30 }
    ensures empty { IfOk result (λ v. v.items ≡ []) }
    ensures room { IfOk result (λ v. vars + 1 < vec_capacity v) }
{
    let mut heap = Vec::new(alloc);
    heap.reserve(vars as usize + 2)?;
    Ok(heap)
}

// So many variables that stand nowhere.
fn no_places(alloc: Global, vars: u32) -> Result<Vec<Option<u32>>, AllocError>
    ensures { IfOk result (λ v. v.items ≡ replicate (vars + 1) None) }
{
    let places = vec![in alloc; None; vars as usize + 1]?;
    Ok(places)
}

// So many variables that have not been active.
fn no_activities(alloc: Global, vars: u32) -> Result<Vec<u64>, AllocError>
    ensures { IfOk result (λ v. v.items ≡ replicate (vars + 1) 0) }
{
    let activities = vec![in alloc; 0; vars as usize + 1]?;
    Ok(activities)
}

// Room for one more variable, and in the heap for all.
fn make_room(
    heap: &mut Vec<u32>,
    positions: &mut Vec<Option<u32>>,
    activities: &mut Vec<u64>,
) -> Result<(), AllocError>
    requires { length positions.old.items < 2 ^ 30 }
    ensures heap { heap.new.items ≡ heap.old.items }
    ensures positions { positions.new.items ≡ positions.old.items }
    ensures activities { activities.new.items ≡ activities.old.items }
    ensures kept { vec_capacity heap.old ≤ vec_capacity heap.new }
    ensures for_heap { OnOk result (length positions.old.items + 1 < vec_capacity heap.new) }
    ensures for_positions { OnOk result (vec_len positions.new < vec_capacity positions.new) }
    ensures for_activities { OnOk result (vec_len activities.new < vec_capacity activities.new) }
{
    let all = positions.len() + 2;
    heap.reserve(all.saturating_sub(heap.len()))?;
    positions.reserve(1)?;
    activities.reserve(1)?;
    Ok(())
}

// One more variable, which stands nowhere.
fn push_place(positions: &mut Vec<Option<u32>>)
    requires { vec_len positions.old < vec_capacity positions.old }
    ensures { positions.new.items ≡ positions.old.items ++ None ∷ [] }
{
    let _ = positions.push(None);
}

// One more variable, which has not been active.
fn push_activity(activities: &mut Vec<u64>)
    requires { vec_len activities.old < vec_capacity activities.old }
    ensures { activities.new.items ≡ activities.old.items ++ 0 ∷ [] }
{
    let _ = activities.push(0);
}

// A variable is more active.
fn add_activity(activities: &mut Vec<u64>, variable: u32, more: u64)
    requires { variable < length activities.old.items }
    ensures { IsRaised activities.old.items activities.new.items variable }
{
    activities[variable as usize] = activities[variable as usize].saturating_add(more);
}

// Scales all down, which keeps their order.
fn scale_down(activities: &mut [u64])
    ensures { AreScaled activities.old activities.new }
{
    'variables: for at in 0..activities.len() {
        activities[at] >>= SCALE;
    }
}

impl Order {
    /// The variables 1 to a number, none of which waits.
    pub fn new(alloc: Global, vars: u32) -> Result<Order, AllocError>
        requires { vars < 2 ^ 30 }
        ensures { IfOk result (λ o. o ≡ replicate (vars + 1) false) }
    {
        let heap = no_heap(alloc, vars)?;
        let positions = no_places(alloc, vars)?;
        let activities = no_activities(alloc, vars)?;
        Ok(Order {
            heap,
            positions,
            activities,
            bump: FIRST_BUMP,
        })
    }

    /// One more variable, which does not wait.
    pub fn grow(&mut self) -> Result<(), AllocError>
        requires { length self.old < 2 ^ 30 }
        ensures ok { OnOk result (self.new ≡ self.old ++ false ∷ []) }
        ensures err { OnErr result (self.new ≡ self.old) }
    {
        make_room(&mut self.heap, &mut self.positions, &mut self.activities)?;
        push_place(&mut self.positions);
        push_activity(&mut self.activities);
        Ok(())
    }

    // Whether a variable waits.
    fn contains(&self, variable: u32) -> bool
        requires { variable < length self.now }
        ensures { result ≡ is_in self.now variable }
    {
        self.positions[variable as usize].is_some()
    }

    /// A variable comes in, or stays. It takes no memory.
    pub fn push(&mut self, variable: u32)
        requires low { 1 ≤ variable }
        requires high { variable < length self.old }
        ensures { self.new ≡ slice_set self.old variable true }
    {
        if self.contains(variable) {
            return;
        }
        let last = self.heap.len();
        add_last(&mut self.heap, &mut self.positions, variable);
        sift_up(
            self.heap.as_mut_slice(),
            self.positions.as_mut_slice(),
            self.activities.as_slice(),
            last,
        );
    }

    /// The variables without a value come in. Values stand by literal code.
    pub fn fill(&mut self, values: &[bool])
        requires { length values.now ≡ 2 * length self.old }
        ensures width { length self.new ≡ length self.old }
        ensures holds { HoldsOpen self.new values.now }
    {
        let past = self.positions.len() as u32;
        'variables: for variable in 1..past {
            if !has_value(values, variable) {
                self.push(variable);
            }
        }
    }

    /// The first variable without a value, which stays. Those before it leave. Values stand by literal code.
    pub fn first_open(&mut self, values: &[bool]) -> Option<u32>
        requires long { length values.now ≡ 2 * length self.old }
        requires holds { HoldsOpen self.old values.now }
        ensures width { length self.new ≡ length self.old }
        ensures holds { HoldsOpen self.new values.now }
        ensures some { IfSome result (λ v. (1 ≤ v) × (v < length self.old) × (is_assigned values.now v ≡ false)) }
        ensures none { IfNone result (AreAllAssigned (length self.old) values.now) }
    {
        first_without(
            &mut self.heap,
            self.positions.as_mut_slice(),
            self.activities.as_slice(),
            values,
        )
    }

    /// A variable is more active.
    pub fn bump(&mut self, variable: u32)
        requires { variable < length self.old }
        ensures { self.new ≡ self.old }
    {
        add_activity(&mut self.activities, variable, self.bump);
        raise(
            self.heap.as_mut_slice(),
            self.positions.as_mut_slice(),
            self.activities.as_slice(),
            variable,
        );
    }

    /// What came before counts for less: later bumps are greater by a sixteenth.
    pub fn decay(&mut self)
        ensures { self.new ≡ self.old }
    {
        self.bump = self.bump.saturating_add(self.bump / 16);
        if self.bump > MAX_BUMP {
            self.scale();
        }
    }

    // Scales the activities and the next bump down.
    fn scale(&mut self)
        ensures { self.new ≡ self.old }
    {
        scale_down(self.activities.as_mut_slice());
        self.bump >>= SCALE;
    }
}
