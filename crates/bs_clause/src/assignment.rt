//! Assignments of values to variables.
ghost use Rattle.std.specs.Prelude.{◌≡◌, ◌-◌, ◌<◌, ◌≤◌, Option, Bool, replicate, length, IfOk, slice_set};
ghost use Rattle.bs_clause.specs.Literal.{value_at};

use crate::literal::Var;
use bs_bits::NoMemory;
use std::alloc::Global;
use std::marker::Model;

/// An assignment, which may leave variables open. Contracts see a list with the value of each
/// variable, or None: that of variable 1 stands first.
#[derive(Drop)]
pub struct Assignment {
    values: Vec<Option<bool>>,
}

impl Model for Assignment {
    ghost use Rattle.std.specs.Prelude.{List, Option, Bool};

    ghost Value = { List (Option Bool) };

    ghost view = { λ a. a.values.items };
}

impl Assignment {
    /// The assignment of the variables 1 to `vars` that leaves all of them open.
    pub fn new(alloc: Global, vars: u32) -> Result<Assignment, NoMemory>
        ensures { IfOk result (λ a. a ≡ replicate vars None) }
    {
        let values = vec![in alloc; None; vars as usize]?;
        Ok(Assignment { values })
    }

    /// The variable's value, or None where it is open.
    pub fn get(&self, v: Var) -> Option<bool>
        requires { (1 ≤ v.0) × (v.0 ≤ length self.now) }
        ensures { value_at self.now v.0 ≡ Some result }
    {
        self.values[v.0 as usize - 1]
    }

    /// Gives the variable this value, or leaves it open.
    pub fn set(&mut self, v: Var, b: Option<bool>)
        requires { (1 ≤ v.0) × (v.0 ≤ length self.old) }
        ensures { self.new ≡ slice_set self.old (v.0 - 1) b }
    {
        self.values[v.0 as usize - 1] = b;
    }
}
