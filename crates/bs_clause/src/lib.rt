//! Literals, clauses, the assignments that meet them, and resolution.
//!
//! Modules: `literal` (`Var`, `Lit`, a code of four bytes), `lists` (`Lits`, four literals without
//! the heap; `Clauses`), `assignment`, `resolution` (`resolve`). Used above: a `Lit` is a variable
//! with a sign, `Lits` a list of literals; `has_literal` is the test that `resolve` asks for. The
//! code of a literal: `specs/Literal`; a resolvent: `specs/Resolvent`; a unit run: `specs/UnitRun`.
//! Lemmas to cite: `proofs/Literals`, `proofs/Values`.
#![tactic(auto)]

mod assignment;
mod lists;
mod literal;
mod resolution;

pub use assignment::Assignment;
pub use bs_bits::NoMemory;
pub use lists::{Clauses, Lits};
pub use literal::{Lit, VARIABLE_LIMIT, Var, has_literal, is_same};
pub use resolution::resolve;
