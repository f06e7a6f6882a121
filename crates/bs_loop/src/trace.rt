//! The trace of a backtrace: the way from the last hit to its end.
ghost use Rattle.std.specs.Prelude.{◌≡◌, ◌∷◌, ◌++◌, [], IfOk, OnOk, option_and_then};
ghost use Rattle.bs_report.specs.Trace.{hit_state, input_for, trace_inputs, trace_states};

use bs_bits::{Bits, List, NoMemory};
use bs_report::{Step, input_for};
use std::alloc::Global;

/// Puts a copy of a state behind the others.
fn push_copy(states: &mut List<Bits>, state: &Bits) -> Result<(), NoMemory>
    ensures { OnOk result (states.new ≡ states.old ++ state.now ∷ []) }
{
    let copy = state.copy()?;
    states.push(copy)
}

/// The states hit, from the last step to the first, and then the last one.
pub fn states_back(alloc: Global, steps: &[Step], last: &Bits) -> Result<List<Bits>, NoMemory>
    ensures { IfOk result (λ states. states ≡ trace_states last.now steps.now) }
{
    let mut states = List::new(alloc);
    'steps: for i in (0..steps.len()).rev() {
        if let Some(hit) = &steps[i].hit {
            push_copy(&mut states, &hit.state)?;
        }
    }
    push_copy(&mut states, last)?;
    Ok(states)
}

/// A copy of the input that a step lists for a state.
fn input_beside(step: &Step, state: &Bits) -> Result<Option<Bits>, NoMemory>
    ensures { IfOk result (λ input. input ≡ input_for step.now state.now) }
{
    match input_for(step, state) {
        Some(input) => Ok(Some(input.copy()?)),
        None => Ok(None),
    }
}

/// The input that a step lists for the state that it hit.
fn input_of(step: &Step) -> Result<Option<Bits>, NoMemory>
    ensures { IfOk result (λ input. input ≡ option_and_then (input_for step.now) (hit_state step.now)) }
{
    match &step.hit {
        Some(hit) => input_beside(step, &hit.state),
        None => Ok(None),
    }
}

/// Behind each state hit, from the last step to the first, the input that its step lists for it.
pub fn inputs_back(alloc: Global, steps: &[Step]) -> Result<List<Bits>, NoMemory>
    ensures { IfOk result (λ inputs. inputs ≡ trace_inputs steps.now) }
{
    let mut inputs = List::new(alloc);
    'steps: for i in (0..steps.len()).rev() {
        if let Some(input) = input_of(&steps[i])? {
            inputs.push(input)?;
        }
    }
    Ok(inputs)
}
