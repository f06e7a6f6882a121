//! The values that a solve found.
ghost use Rattle.std.specs.Prelude.{◌≡◌, ◌+◌, ◌<◌, ◌≤◌, Some, length, slice_get};
ghost use Rattle.bs_clause.specs.Literal.{value_at};
ghost use Rattle.bs_solve_lemmas.specs.Values.{values_of};

use bs_clause::Var;
use std::marker::Model;

/// Values of all variables. Contracts see them as those of an assignment that leaves none open. So many in the middle are
/// false, as those of retired activation literals are, and take no memory.
#[derive(Drop)]
pub struct Solution {
    front: Vec<bool>,
    falses: u32,
    back: Vec<bool>,
}

impl Model for Solution {
    ghost use Rattle.std.specs.Prelude.{List, Option, Bool};
    ghost use Rattle.bs_solve_lemmas.specs.Values.{values_of};

    ghost Value = { List (Option Bool) };

    ghost view = { λ s. values_of s.front.items s.falses s.back.items };
}

impl Solution {
    /// The values of the first variables, then so many that are false, and the values of the rest.
    pub fn new(front: Vec<bool>, falses: u32, back: Vec<bool>) -> Solution
        ensures { result ≡ values_of front.items falses back.items }
    {
        Solution {
            front,
            falses,
            back,
        }
    }

    /// The variable's value. No variable is open.
    pub fn get(&self, v: Var) -> Option<bool>
        requires { (1 ≤ v.0) × (v.0 ≤ length self.now) }
        ensures { value_at self.now v.0 ≡ Some result }
    {
        let value = value_in(
            self.front.as_slice(),
            self.falses,
            self.back.as_slice(),
            v.0 as usize - 1,
        );
        Some(value)
    }
}

// The value in a place, which counts from 0.
fn value_in(front: &[bool], falses: u32, back: &[bool], at: usize) -> bool
    requires { at < length front.now + falses + length back.now }
    ensures { slice_get (values_of front.now falses back.now) at ≡ Some (Some result) }
{
    if at < front.len() {
        return front[at];
    }
    let behind = at - front.len();
    let count = falses as usize;
    if behind < count {
        return false;
    }
    back[behind - count]
}
