//! The laws of the transition clauses.
ghost use Rattle.std.specs.Prelude.{◌≡◌, length};
ghost use Rattle.bs_net.specs.Circuit.{reset_state};
ghost use Rattle.bs_net.specs.Netlist.{circuit};
ghost use Rattle.bs_encode.specs.Cycle.{EncodesCycles};
ghost use Rattle.bs_encode.specs.Encoded.{encoding_of};
ghost use Rattle.bs_encode.specs.Listing.{IsTidy, PredecessorsAreShown, SolutionsArePredecessors};
ghost use Rattle.bs_encode.specs.Depth.{IsLinkable, encoding_by};
ghost use Rattle.bs_encode.specs.Meaning.{ClausesEqualGates, FramesEqualGates};

use bs_net::Netlist;
use bs_scan::Choice;

/// The transition clauses say what the gates do: valuations that fit, and nothing else, with their
/// next states and signatures.
pub fn clauses_equal_gates(net: &Netlist, choice: &Choice)
    requires { choice.now.width ≡ length (circuit net.now).flops }
    ensures { ClausesEqualGates (circuit net.now) choice.now.items }
{
    let _items = choice.items();
    let _raw = net.raw();
}

/// The clauses of two time frames and their link say what the gates do in two cycles: two valuations that fit, where under the link
/// the second one's next state is the first one's state, and nothing else.
pub fn frames_equal_gates(net: &Netlist, choice: &Choice)
    requires { choice.now.width ≡ length (circuit net.now).flops }
    ensures { FramesEqualGates (circuit net.now) choice.now.items }
{
    let _items = choice.items();
    let _raw = net.raw();
}

/// One time frame has room for a second one above it.
pub(crate) fn encodings_are_linkable(net: &Netlist, choice: &Choice)
    requires { choice.now.width ≡ length (circuit net.now).flops }
    ensures linkable { IsLinkable (encoding_of (circuit net.now) choice.now.items) }
    ensures width { length (encoding_of (circuit net.now) choice.now.items).states ≡ length (reset_state (circuit net.now)) }
{
    let _items = choice.items();
    let _raw = net.raw();
}

/// An encoding is one cycle of its netlist: an assignment meets the clauses exactly where it shows a state, an input, the
/// state to which this leads, and the state's signature; whatever flip-flops the signature is taken of.
pub fn encodings_are_cycles(net: &Netlist)
    ensures { EncodesCycles (circuit net.now) }
{
    let _raw = net.raw();
}

/// An encoding has room for the activation literals of a listing. Its literals are its own variables, and no variable stands twice in a
/// clause, in what a step assumes, or in a block.
pub fn encodings_are_tidy(net: &Netlist, choice: &Choice)
    requires { choice.now.width ≡ length (circuit net.now).flops }
    ensures { IsTidy (circuit net.now) choice.now (encoding_by (circuit net.now) choice.now) }
{
    let _items = choice.items();
    let _raw = net.raw();
}

/// A state that agrees with the stored signatures and leads to the present one is shown in the step of this present: an
/// assignment meets the clauses, what the step assumes, and the block of every other state.
pub fn predecessors_are_shown(net: &Netlist, choice: &Choice)
    requires { choice.now.width ≡ length (circuit net.now).flops }
    ensures { PredecessorsAreShown (circuit net.now) choice.now (encoding_by (circuit net.now) choice.now) }
{
    let _items = choice.items();
    let _raw = net.raw();
}

/// An assignment that meets the clauses and what a step assumes shows a state that agrees with the stored signatures, and
/// an input under which it leads to the present state; and in the second time frame such ones of the cycle before.
pub fn solutions_are_predecessors(net: &Netlist, choice: &Choice)
    requires { choice.now.width ≡ length (circuit net.now).flops }
    ensures { SolutionsArePredecessors (circuit net.now) choice.now (encoding_by (circuit net.now) choice.now) }
{
    let _items = choice.items();
    let _raw = net.raw();
}
