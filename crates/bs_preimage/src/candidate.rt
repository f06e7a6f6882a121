//! The candidate that an assignment shows.
ghost use Rattle.std.specs.Prelude.{◌≡◌, ◌<◌, ◌≤◌, length, IfOk};
ghost use Rattle.std.specs.Option.{option_to_list};
ghost use Rattle.bs_clause.specs.Literal.{literal_value};
ghost use Rattle.bs_clause.specs.Range.{HasVariables};
ghost use Rattle.bs_solve_lemmas.specs.Values.{value_of};
ghost use Rattle.bs_encode.specs.Cycle.{bits_on};
ghost use Rattle.bs_encode.specs.Listing.{joins};
ghost use Rattle.bs_preimage.specs.Turn.{before_on};

use bs_bits::Bits;
use bs_clause::{Lit, NoMemory, Var};
use bs_encode::Encoding;
use bs_report::{Before, Cand};
use bs_solve_lemmas::Solution;
use std::alloc::Global;

/// The value of a variable, false where it is open.
fn value(values: &Solution, v: Var) -> bool
    requires { (1 ≤ v.0) × (v.0 ≤ length values.now) }
    ensures { result ≡ value_of values.now v.0 }
{
    values.get(v).unwrap_or(false)
}

/// The values of the literals' variables.
fn bits(alloc: Global, literals: &[Lit], values: &Solution) -> Result<Bits, NoMemory>
    requires { HasVariables (length values.now) literals.now }
    ensures { IfOk result (λ bits. bits ≡ bits_on (value_of values.now) literals.now) }
{
    let mut bits = Bits::new(alloc);
    'literals: for literal in literals {
        bits.push(value(values, literal.var()))?;
    }
    Ok(bits)
}

/// Whether a literal is true, where what is open counts as false.
fn holds(values: &Solution, literal: Lit) -> bool
    requires { (1 ≤ literal.variable) × (literal.variable ≤ length values.now) }
    ensures { result ≡ literal_value (value_of values.now) literal }
{
    value(values, literal.var()) == literal.positive()
}

/// Whether an assignment joins the second time frame to the first.
fn is_joined(encoding: &Encoding, values: &Solution) -> bool
    requires { HasVariables (length values.now) (option_to_list encoding.now.link) }
    ensures { result ≡ joins (value_of values.now) encoding.now.link }
{
    match encoding.link() {
        None => false,
        Some(link) => holds(values, link),
    }
}

/// The state and the input of the cycle before that an assignment shows, where it joins the time frames.
fn before(alloc: Global, encoding: &Encoding, values: &Solution) -> Result<Option<Before>, NoMemory>
    requires link { HasVariables (length values.now) (option_to_list encoding.now.link) }
    requires states { HasVariables (length values.now) encoding.now.older_states }
    requires inputs { HasVariables (length values.now) encoding.now.older_inputs }
    ensures { IfOk result (λ before. before ≡ before_on encoding.now (value_of values.now)) }
{
    if !is_joined(encoding, values) {
        return Ok(None);
    }
    let state = bits(alloc, encoding.older_states(), values)?;
    let input = bits(alloc, encoding.older_inputs(), values)?;
    Ok(Some(Before { state, input }))
}

/// The state and the input that an assignment shows, and those of the cycle before.
pub(crate) fn candidate(
    alloc: Global,
    encoding: &Encoding,
    values: &Solution,
) -> Result<Cand, NoMemory>
    requires states { HasVariables (length values.now) encoding.now.states }
    requires inputs { HasVariables (length values.now) encoding.now.inputs }
    requires link { HasVariables (length values.now) (option_to_list encoding.now.link) }
    requires older_states { HasVariables (length values.now) encoding.now.older_states }
    requires older_inputs { HasVariables (length values.now) encoding.now.older_inputs }
    ensures state { IfOk result (λ cand. cand.state ≡ bits_on (value_of values.now) encoding.now.states) }
    ensures input { IfOk result (λ cand. cand.input ≡ bits_on (value_of values.now) encoding.now.inputs) }
    ensures before { IfOk result (λ cand. cand.before ≡ before_on encoding.now (value_of values.now)) }
{
    let state = bits(alloc, encoding.states(), values)?;
    let input = bits(alloc, encoding.inputs(), values)?;
    let before = before(alloc, encoding, values)?;
    Ok(Cand {
        state,
        input,
        before,
    })
}

/// An equal state and input of the cycle before, if there are any.
pub fn copied_before(before: &Option<Before>) -> Result<Option<Before>, NoMemory>
    ensures { IfOk result (λ copy. copy ≡ before.now) }
{
    match before {
        None => Ok(None),
        Some(before) => {
            let state = before.state.copy()?;
            let input = before.input.copy()?;
            Ok(Some(Before { state, input }))
        }
    }
}

/// An equal candidate.
pub(crate) fn copied(cand: &Cand) -> Result<Cand, NoMemory>
    ensures { IfOk result (λ copy. copy ≡ cand.now) }
{
    let state = cand.state.copy()?;
    let input = cand.input.copy()?;
    let before = copied_before(&cand.before)?;
    Ok(Cand {
        state,
        input,
        before,
    })
}
