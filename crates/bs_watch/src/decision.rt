//! The order of decisions of a trail: the variables that may be open, the most active one first.
ghost use Rattle.std.specs.Prelude.{◌≡◌, ◌+◌, ◌*◌, ◌^◌, ◌<◌, ◌≤◌, [], ◌∷◌, ◌++◌, length, true, false, replicate, slice_set};
ghost use Rattle.std.specs.Prelude.{IfOk, IfSome, IfNone, OnOk, OnErr};
ghost use Rattle.bs_arena.specs.Open.{HoldsOpen, AreAllAssigned, is_assigned};

use bs_arena::Order;
use bs_clause::{NoMemory, Var};
use std::alloc::Global;

/// The variables 1 to a number, none of which waits.
pub fn new_order(alloc: Global, vars: u32) -> Result<Order, NoMemory>
    requires { vars < 2 ^ 30 }
    ensures { IfOk result (λ o. o ≡ replicate (vars + 1) false) }
{
    let order = Order::new(alloc, vars)?;
    Ok(order)
}

/// One more variable, which does not wait.
pub fn grow_order(order: &mut Order) -> Result<(), NoMemory>
    requires { length order.old < 2 ^ 30 }
    ensures ok { OnOk result (order.new ≡ order.old ++ false ∷ []) }
    ensures err { OnErr result (order.new ≡ order.old) }
{
    order.grow()?;
    Ok(())
}

/// A variable that has opened waits again, where the order is kept up.
pub fn put_back(order: &mut Order, is_ordered: bool, variable: Var)
    requires low { 1 ≤ variable.0 }
    requires high { variable.0 < length order.old }
    ensures width { length order.new ≡ length order.old }
    ensures back { is_ordered ≡ true → order.new ≡ slice_set order.old variable.0 true }
{
    if is_ordered {
        order.push(variable.0);
    }
}

/// Whether the order is kept up behind a return to the end of a level.
pub fn stays_ordered(is_ordered: bool, level: u32) -> bool
    ensures { result ≡ true → is_ordered ≡ true }
{
    is_ordered && level > 0
}

// The variables without a value wait, where they did not.
fn fill(order: &mut Order, is_ordered: bool, values: &[bool])
    requires long { length values.now ≡ 2 * length order.old }
    requires holds { is_ordered ≡ true → HoldsOpen order.old values.now }
    ensures width { length order.new ≡ length order.old }
    ensures holds { HoldsOpen order.new values.now }
{
    if !is_ordered {
        order.fill(values);
    }
}

// The first variable without a value, in an order that is kept up.
fn first_waiting(order: &mut Order, values: &[bool]) -> Option<Var>
    requires long { length values.now ≡ 2 * length order.old }
    requires holds { HoldsOpen order.old values.now }
    ensures width { length order.new ≡ length order.old }
    ensures holds { HoldsOpen order.new values.now }
    ensures some { IfSome result (λ v. (1 ≤ v.0) × (v.0 < length order.old) × (is_assigned values.now v.0 ≡ false)) }
    ensures none { IfNone result (AreAllAssigned (length order.old) values.now) }
{
    match order.first_open(values) {
        Some(variable) => Some(Var(variable)),
        None => None,
    }
}

/// The first variable without a value. The order is filled, where it is not kept up.
pub fn first_in(order: &mut Order, is_ordered: bool, values: &[bool]) -> Option<Var>
    requires long { length values.now ≡ 2 * length order.old }
    requires holds { is_ordered ≡ true → HoldsOpen order.old values.now }
    ensures width { length order.new ≡ length order.old }
    ensures holds { HoldsOpen order.new values.now }
    ensures some { IfSome result (λ v. (1 ≤ v.0) × (v.0 < length order.old) × (is_assigned values.now v.0 ≡ false)) }
    ensures none { IfNone result (AreAllAssigned (length order.old) values.now) }
{
    fill(order, is_ordered, values);
    first_waiting(order, values)
}
