//! What the end of a search tells: the outcome, and an execution where there is one.
ghost use Rattle.std.specs.Prelude.{◌≡◌, ◌+◌, ◌*◌, ◌<◌, ◌≤◌, [], length, All, IfOk, OnOk};
ghost use Rattle.bs_solve_lemmas.specs.Values.{value_of};
ghost use Rattle.bs_encode.specs.Cycle.{bits_on};
ghost use Rattle.bs_encode.specs.Frame.{raised_all, HasRoom};
ghost use Rattle.bs_reach_unrolled.specs.Room.{IsUnrollable};
ghost use Rattle.bs_reach_unrolled.specs.Unrolled.{states_at, inputs_at, next_at};
ghost use Rattle.bs_reach_unrolled.specs.Laws.{states_shown, inputs_shown};
ghost use Rattle.bs_reach.specs.Verdict.{EndFits, Tells};

use crate::reach::Outcome;
use crate::search::End;
use bs_bits::{Bits, List};
use bs_clause::{Lit, NoMemory, Var};
use bs_encode::Encoding;
use bs_solve_lemmas::Solution;
use std::alloc::Global;

/// The outcome, with the states and inputs of an execution where there is one.
#[derive(Drop)]
pub(crate) struct Verdict {
    pub(crate) outcome: Outcome,
    pub(crate) states: List<Bits>,
    pub(crate) inputs: List<Bits>,
}

/// The value of a variable, false where it is open.
fn value(values: &Solution, v: Var) -> bool
    requires { (1 ≤ v.0) × (v.0 ≤ length values.now) }
    ensures { result ≡ value_of values.now v.0 }
{
    values.get(v).unwrap_or(false)
}

/// The values of the variables that are so much higher than those of the literals.
fn bits_above(alloc: Global, literals: &[Lit], by: u32, values: &Solution) -> Result<Bits, NoMemory>
    requires room { HasRoom by literals.now }
    requires wide { All (λ l. by + l.variable ≤ length values.now) literals.now }
    ensures { IfOk result (λ bits. bits ≡ bits_on (value_of values.now) (raised_all by literals.now)) }
{
    let mut bits = Bits::new(alloc);
    'literals: for literal in literals {
        bits.push(value(values, Var(by + literal.var().0)))?;
    }
    Ok(bits)
}

/// The state that a time frame shows.
fn state_at(
    alloc: Global,
    encoding: &Encoding,
    values: &Solution,
    c: u32,
    k: u32,
) -> Result<Bits, NoMemory>
    requires unrollable { IsUnrollable encoding.now k }
    requires within { c < k }
    requires wide { k * encoding.now.variables ≤ length values.now }
    ensures { IfOk result (λ bits. bits ≡ bits_on (value_of values.now) (states_at encoding.now c)) }
{
    let bits = bits_above(alloc, encoding.states(), c * encoding.vars(), values)?;
    Ok(bits)
}

/// The input that a time frame shows.
fn input_at(
    alloc: Global,
    encoding: &Encoding,
    values: &Solution,
    c: u32,
    k: u32,
) -> Result<Bits, NoMemory>
    requires unrollable { IsUnrollable encoding.now k }
    requires within { c < k }
    requires wide { k * encoding.now.variables ≤ length values.now }
    ensures { IfOk result (λ bits. bits ≡ bits_on (value_of values.now) (inputs_at encoding.now c)) }
{
    let bits = bits_above(alloc, encoding.inputs(), c * encoding.vars(), values)?;
    Ok(bits)
}

/// The next state that a time frame shows.
fn next_state_at(
    alloc: Global,
    encoding: &Encoding,
    values: &Solution,
    c: u32,
    k: u32,
) -> Result<Bits, NoMemory>
    requires unrollable { IsUnrollable encoding.now k }
    requires within { c < k }
    requires wide { k * encoding.now.variables ≤ length values.now }
    ensures { IfOk result (λ bits. bits ≡ bits_on (value_of values.now) (next_at encoding.now c)) }
{
    let bits = bits_above(alloc, encoding.next(), c * encoding.vars(), values)?;
    Ok(bits)
}

/// Puts the states of the execution whose last time frame this is into an empty list.
fn put_states(
    states: &mut List<Bits>,
    alloc: Global,
    encoding: &Encoding,
    values: &Solution,
    c: u32,
    k: u32,
) -> Result<(), NoMemory>
    requires empty { states.old ≡ [] }
    requires unrollable { IsUnrollable encoding.now k }
    requires within { c < k }
    requires wide { k * encoding.now.variables ≤ length values.now }
    ensures { OnOk result (states.new ≡ states_shown encoding.now (value_of values.now) (c + 1)) }
{
    'frames: for i in 0..c + 1 {
        states.push(state_at(alloc, encoding, values, i, k)?)?;
    }
    states.push(next_state_at(alloc, encoding, values, c, k)?)?;
    Ok(())
}

/// The states of the execution whose last time frame this is.
fn states_of(
    alloc: Global,
    encoding: &Encoding,
    values: &Solution,
    c: u32,
    k: u32,
) -> Result<List<Bits>, NoMemory>
    requires unrollable { IsUnrollable encoding.now k }
    requires within { c < k }
    requires wide { k * encoding.now.variables ≤ length values.now }
    ensures { IfOk result (λ states. states ≡ states_shown encoding.now (value_of values.now) (c + 1)) }
{
    let mut states = List::new(alloc);
    put_states(&mut states, alloc, encoding, values, c, k)?;
    Ok(states)
}

/// Puts the inputs of the execution whose last time frame this is into an empty list.
fn put_inputs(
    inputs: &mut List<Bits>,
    alloc: Global,
    encoding: &Encoding,
    values: &Solution,
    c: u32,
    k: u32,
) -> Result<(), NoMemory>
    requires empty { inputs.old ≡ [] }
    requires unrollable { IsUnrollable encoding.now k }
    requires within { c < k }
    requires wide { k * encoding.now.variables ≤ length values.now }
    ensures { OnOk result (inputs.new ≡ inputs_shown encoding.now (value_of values.now) (c + 1)) }
{
    'frames: for i in 0..c + 1 {
        inputs.push(input_at(alloc, encoding, values, i, k)?)?;
    }
    Ok(())
}

/// The inputs of the execution whose last time frame this is.
fn inputs_of(
    alloc: Global,
    encoding: &Encoding,
    values: &Solution,
    c: u32,
    k: u32,
) -> Result<List<Bits>, NoMemory>
    requires unrollable { IsUnrollable encoding.now k }
    requires within { c < k }
    requires wide { k * encoding.now.variables ≤ length values.now }
    ensures { IfOk result (λ inputs. inputs ≡ inputs_shown encoding.now (value_of values.now) (c + 1)) }
{
    let mut inputs = List::new(alloc);
    put_inputs(&mut inputs, alloc, encoding, values, c, k)?;
    Ok(inputs)
}

/// An outcome without an execution.
pub(crate) fn without_states(alloc: Global, outcome: Outcome) -> Verdict
    ensures { result.outcome ≡ outcome }
{
    Verdict {
        outcome,
        states: List::new(alloc),
        inputs: List::new(alloc),
    }
}

/// What the end of a search tells.
pub(crate) fn tell(
    alloc: Global,
    encoding: &Encoding,
    end: &End,
    k: u32,
) -> Result<Verdict, NoMemory>
    requires unrollable { IsUnrollable encoding.now k }
    requires fits { EndFits encoding.now k end.now }
    ensures { IfOk result (Tells encoding.now end.now) }
{
    match end {
        End::Reached(c, values) => Ok(Verdict {
            outcome: Outcome::Reached(u64::from(*c) + 1),
            states: states_of(alloc, encoding, values, *c, k)?,
            inputs: inputs_of(alloc, encoding, values, *c, k)?,
        }),
        End::Unreached => Ok(without_states(alloc, Outcome::Unreached)),
        End::Unknown(c) => Ok(without_states(alloc, Outcome::Unknown(u64::from(*c) + 1))),
    }
}
