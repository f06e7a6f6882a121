//! Variables and literals.
ghost use Rattle.std.specs.Prelude.{◌≡◌, ◌+◌, ◌*◌, ◌<◌, ◌≤◌, ◌↔◌, IsTrue, Contains};
ghost use Rattle.bs_clause.specs.Literal.{IsVariable, IsCode, negation, code_of, same_literal, has_literal};

use std::marker::Model;

/// Variables are 1 to one less than this.
/// So the code of a literal, at most twice the variable and 1, is below 2^31.
pub const VARIABLE_LIMIT: u32 = 1 << 30;

/// A variable. They are counted from 1, and a literal takes those below `VARIABLE_LIMIT`.
#[derive(Clone, Copy, Debug, PartialEq, Eq)]
pub struct Var(pub u32);

/// A variable with a sign, kept as its code. Contracts see the variable's number, and whether the sign is positive.
#[derive(Clone, Copy, Debug, PartialEq, Eq)]
pub struct Lit {
    code: u32,
}

impl Model for Lit {
    ghost use Rattle.bs_clause.specs.Literal.{Literal, IsCode, code_of, literal_of};
    ghost use Rattle.bs_clause.specs.Codes.{code_back};

    ghost Value = { Literal };

    ghost view = { λ l. literal_of l.code };

    ghost invariant = { λ l. IsCode l.code };

    ghost inverse = { λ d. record { code = code_of d } };

    ghost inverse_ok = { λ l _ i. record { code = code_back l.code i } };
}

impl Default for Lit {
    /// The literal that a place holds before another is written there.
    fn default() -> Lit {
        Lit { code: 2 }
    }
}

impl Lit {
    /// The literal of a variable that is 1 to `VARIABLE_LIMIT` - 1.
    pub fn new(var: Var, positive: bool) -> Lit
        requires { IsVariable var.0 }
        ensures { result ≡ record { variable = var.0; positive = positive } }
    {
        let code = if positive { 2 * var.0 } else { 2 * var.0 + 1 };
        Lit { code }
    }

    /// The variable, which is 1 to `VARIABLE_LIMIT` - 1.
    pub fn var(self) -> Var
        ensures variable { result.0 ≡ self.variable }
        ensures range { IsVariable self.variable }
    {
        Var(self.code / 2)
    }

    /// Whether it is the variable itself and not its negation.
    pub fn positive(self) -> bool
        ensures { result ≡ self.positive }
    {
        self.code % 2 == 0
    }

    /// The literal of the same variable with the other sign.
    pub fn negate(self) -> Lit
        ensures { result ≡ negation self }
    {
        let code = if self.code % 2 == 0 {
            self.code + 1
        } else {
            self.code - 1
        };
        Lit { code }
    }

    /// Its code, twice the variable, and 1 more for a negation.
    pub fn code(self) -> u32
        ensures code { result ≡ code_of self }
        ensures range { IsCode result }
    {
        self.code
    }

    /// The literal with this code, which is 2 to 2 * `VARIABLE_LIMIT` - 1.
    pub fn from_code(code: u32) -> Lit
        requires { IsCode code }
        ensures { code_of result ≡ code }
    {
        Lit { code }
    }
}

/// Whether two literals have the same variable and the same sign.
#[tactic(auto, using(crate::proofs::Literals::same_literal_iff))]
pub fn is_same(a: Lit, b: Lit) -> bool
    ensures test { result ≡ same_literal a b }
    ensures same { IsTrue result ↔ (a ≡ b) }
{
    a.code() == b.code()
}

/// Whether the literal stands in the clause.
#[tactic(auto, using(crate::proofs::Literals::has_literal_iff))]
pub fn has_literal(clause: &[Lit], literal: Lit) -> bool
    ensures test { result ≡ has_literal clause.now literal }
    ensures member { IsTrue result ↔ Contains clause.now literal }
{
    for other in clause {
        if is_same(literal, *other) {
            return true;
        }
    }
    false
}
