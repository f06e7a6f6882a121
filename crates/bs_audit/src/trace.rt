//! The trace of a report.
ghost use Rattle.std.specs.Prelude.{◌≡◌, ◌&&◌, option_map, option_and_then, reverse, filter_map, MatchOption, Some};
ghost use Rattle.bs_report.specs.Trace.{hit_state, input_for, trace_states, trace_inputs};
ghost use Rattle.bs_report.specs.Valid.{all_bits_eq, is_right_trace};
ghost use Rattle.bs_audit.specs.Cut.{IsCut, IsUncut};

use bs_bits::Bits;
use bs_report::{Report, Step, input_for};
use bs_scan::Seen;

/// The lists without the last one, if that is as wanted.
fn without_last<'a>(lists: &'a [Bits], last: &Bits) -> Option<&'a [Bits]>
    ensures { MatchOption result (IsUncut lists.now (Some last.now)) (λ front. IsCut lists.now (Some last.now) front.now) }
{
    match lists.split_last() {
        None => None,
        Some((found, front)) => if found.equals(last) {
            Some(front)
        } else {
            None
        },
    }
}

/// The same, where nothing is cut off if nothing is wanted.
fn cut<'a>(lists: &'a [Bits], last: Option<&Bits>) -> Option<&'a [Bits]>
    ensures { MatchOption result (IsUncut lists.now (option_map (λ bits. bits.now) last.entry)) (λ front. IsCut lists.now (option_map (λ bits. bits.now) last.entry) front.now) }
{
    match last {
        None => Some(lists),
        Some(last) => without_last(lists, last),
    }
}

/// The state that a step hit.
fn hit_state(step: &Step) -> Option<&Bits>
    ensures { option_map (λ bits. bits.now) result ≡ hit_state step.now }
{
    match &step.hit {
        None => None,
        Some(hit) => Some(&hit.state),
    }
}

/// The input that a step lists for the state that it hit.
fn hit_input(step: &Step) -> Option<&Bits>
    ensures { option_map (λ bits. bits.now) result ≡ option_and_then (input_for step.now) (hit_state step.now) }
{
    match &step.hit {
        None => None,
        Some(hit) => input_for(step, &hit.state),
    }
}

/// Whether the states are those that the steps hit, from the last step to the first.
fn are_hits(states: &[Bits], steps: &[Step]) -> bool
    ensures { result ≡ all_bits_eq states.now (reverse (filter_map hit_state steps.now)) }
{
    let mut left = states;
    'steps: for step in steps {
        match cut(left, hit_state(step)) {
            None => return false,
            Some(front) => left = front,
        }
    }
    left.is_empty()
}

/// Whether the inputs are those that the steps list for the states hit, from the last step to the first.
fn are_inputs(inputs: &[Bits], steps: &[Step]) -> bool
    ensures { result ≡ all_bits_eq inputs.now (trace_inputs steps.now) }
{
    let mut left = inputs;
    'steps: for step in steps {
        match cut(left, hit_input(step)) {
            None => return false,
            Some(front) => left = front,
        }
    }
    left.is_empty()
}

/// Whether the states are those of the trace that ends in this one.
fn are_states(states: &[Bits], last: &Bits, steps: &[Step]) -> bool
    ensures { result ≡ all_bits_eq states.now (trace_states last.now steps.now) }
{
    match without_last(states, last) {
        None => false,
        Some(front) => are_hits(front, steps),
    }
}

/// Whether the states and the inputs are those of the trace, which ends in what is known of this state.
pub fn is_right_trace(report: &Report, last: &Seen) -> bool
    ensures { result ≡ is_right_trace last.now report.now }
{
    let states = are_states(report.states.slice(), &last.bits, report.steps.slice());
    let free = report.free.equals(&last.free);
    let inputs = are_inputs(report.inputs.slice(), report.steps.slice());
    states && free && inputs
}
