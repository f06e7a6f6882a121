//! Steps of simulators and encodings, from a netlist's text on.

use crate::netlists::netlist;
use bs_bits::{Bits, NoMemory};
use bs_clause::{Clauses, Lit};
use bs_encode::Encoding;
use bs_net::{NetId, Netlist};
use bs_scan::{Choice, ChoiceFault, MAX_SIGNATURE_BYTES};
use bs_sim::{Event, Schedule, Settled, Sim};
use std::alloc::Global;
use std::test::Fail;

const TOGGLE: &str = "module t(ck); input ck; not g(d,q); dff f(ck,q,d); endmodule";

/// The toggle with a second gate, which is quiet while the first is not.
const TWO_GATES: &str = "module t(ck); input ck; not g(d,q); buf h(e,q); dff f(ck,q,d); endmodule";

const XNOR: &str =
    "module x(ck); input ck; xnor g(d0,q0,q1,1'b0); nand h(d1,q0); dff f0(ck,q0,d0); dff f1(ck,q1,d1); endmodule";

const S27: &str = "// s27, four inputs, three flip-flops
module dff(CK,Q,D);
input CK,D;
output Q;
reg Q;
always @(posedge CK) Q <= D;
endmodule
module s27(GND,VDD,CK,G0,G1,G17,G2,G3);
input GND,VDD,CK,G0,G1,G2,G3;
output G17;
wire G5,G10,G6,G11,G7,G13,G14,G8,G15,G12,G16,G9;
dff DFF_0(CK,G5,G10);
dff DFF_1(CK,G6,G11);
dff DFF_2(CK,G7,G13);
not NOT_0(G14,G0);
not NOT_1(G17,G11);
and AND2_0(G8,G14,G6);
or OR2_0(G15,G12,G8);
or OR2_1(G16,G3,G8);
nand NAND2_0(G9,G16,G15);
nor NOR2_0(G10,G14,G11);
nor NOR2_1(G11,G5,G9);
nor NOR2_2(G12,G1,G7);
nor NOR2_3(G13,G2,G12);
endmodule
";

// ---- the values of the tables

/// The bits of a text, or none where it is no text of bits.
fn bits(alloc: Global, text: &str) -> Result<Bits, NoMemory> {
    match Bits::read_text(alloc, text.as_bytes())? {
        Some(bits) => Ok(bits),
        None => Ok(Bits::new(alloc)),
    }
}

/// What a signature file says, if it is short enough.
fn choice(alloc: Global, text: &str, net: &Netlist) -> Result<Choice, ChoiceFault> {
    if text.len() > MAX_SIGNATURE_BYTES as usize {
        return Err(ChoiceFault::NoMemory);
    }
    Choice::read(alloc, text.as_bytes(), net)
}

// ---- simulators

/// A state, an input, and the next state.
#[derive(Drop)]
struct Edge {
    state: Bits,
    input: Bits,
    next: Bits,
}

/// An edge that is given as texts.
fn edge_of(alloc: Global, state: &str, input: &str, next: &str) -> Result<Edge, NoMemory> {
    let state = bits(alloc, state)?;
    let input = bits(alloc, input)?;
    let next = bits(alloc, next)?;
    Ok(Edge { state, input, next })
}

/// Whether the plain simulator takes an edge while a net shows 0.
fn is_plain_edge(
    alloc: Global,
    net: &Netlist,
    edge: &Edge,
    probe: NetId,
) -> Result<bool, NoMemory> {
    if edge.state.len() != net.width() || edge.input.len() != net.data_inputs().len() {
        return Ok(false);
    }
    if probe.0 >= net.raw().names.len() {
        return Ok(false);
    }
    let mut sim = Sim::new(alloc, net)?;
    sim.load(&edge.state);
    sim.step(&edge.input);
    Ok(!sim.value(probe) && sim.state().equals(&edge.next))
}

/// Whether the event simulator takes it so.
fn is_event_edge(
    alloc: Global,
    net: &Netlist,
    edge: &Edge,
    probe: NetId,
) -> Result<bool, NoMemory> {
    if edge.state.len() != net.width() || edge.input.len() != net.data_inputs().len() {
        return Ok(false);
    }
    if probe.0 >= net.raw().names.len() {
        return Ok(false);
    }
    let mut event = Event::new(alloc, net)?;
    event.load(&edge.state);
    event.step(&edge.input);
    Ok(!event.value(probe) && event.state().equals(&edge.next))
}

/// The work of the event simulator's first three steps from reset, with no data inputs.
fn works(alloc: Global, net: &Netlist) -> Result<Option<(u64, u64, u64)>, NoMemory> {
    if net.data_inputs().len() != 0 {
        return Ok(None);
    }
    let mut event = Event::new(alloc, net)?;
    let input = Bits::new(alloc);
    event.step(&input);
    let first = event.work();
    event.step(&input);
    let second = event.work();
    event.step(&input);
    Ok(Some((first, second, event.work())))
}

/// Whether no gate step, then one, then two more of the first gate end so, with a net that shows the last bit.
fn plays(
    alloc: Global,
    net: &Netlist,
    state: &Bits,
    probe: NetId,
) -> Result<Option<(Settled, Settled, Settled, bool)>, NoMemory> {
    if state.len() != net.width() || net.data_inputs().len() != 0 {
        return Ok(None);
    }
    if net.raw().gates.len() == 0 || probe.0 >= net.raw().names.len() {
        return Ok(None);
    }
    let input = Bits::new(alloc);
    let mut schedule = Schedule::new(alloc, net, state, &input)?;
    let none = schedule.play(&[]);
    let one = schedule.play(&[0]);
    let two = schedule.play(&[0, 0]);
    Ok(Some((none, one, two, schedule.value(probe))))
}

/// Whether both simulators take an edge while a net shows 0.
fn are_edges(alloc: Global, net: &Netlist, edge: &Edge, probe: NetId) -> Result<bool, NoMemory> {
    Ok(is_plain_edge(alloc, net, edge, probe)? && is_event_edge(alloc, net, edge, probe)?)
}

/// Whether both simulators step from 000 under 011001 to 010, with a net that shows 0.
fn are_steps(alloc: Global, net: &Netlist, probe: NetId) -> Result<bool, NoMemory> {
    let edge = edge_of(alloc, "000", "011001", "010")?;
    are_edges(alloc, net, &edge, probe)
}

/// The same for the net with a name.
fn are_named_steps(alloc: Global, net: &Netlist, name: &str) -> Result<bool, NoMemory> {
    match net.raw().names.number(name) {
        Some(probe) => are_steps(alloc, net, probe),
        None => Ok(false),
    }
}

/// The same for s27 and its output.
fn are_s27_steps(alloc: Global) -> Result<bool, NoMemory> {
    match netlist(alloc, S27.as_bytes()) {
        Some(net) => are_named_steps(alloc, &net, "G17"),
        None => Ok(false),
    }
}

/// The work of the toggle's first three steps: in the second the bit has changed, and in the third it has changed back.
fn toggle_works(alloc: Global) -> Result<Option<(u64, u64, u64)>, NoMemory> {
    match netlist(alloc, TOGGLE.as_bytes()) {
        Some(net) => works(alloc, &net),
        None => Ok(None),
    }
}

/// What gate steps lead to in state 0, with the bit of `d` after them.
fn plays_in_zero(
    alloc: Global,
    net: &Netlist,
) -> Result<Option<(Settled, Settled, Settled, bool)>, NoMemory> {
    let state = bits(alloc, "0")?;
    match net.raw().names.number("d") {
        Some(probe) => plays(alloc, net, &state, probe),
        None => Ok(None),
    }
}

/// Whether the toggle, or a text like it, is quiet from the first step of its first gate on, and not before.
fn is_quiet_from_one(alloc: Global, text: &str) -> Result<bool, NoMemory> {
    let want = (Settled::Unstable(0), Settled::Quiet, Settled::Quiet, true);
    match netlist(alloc, text.as_bytes()) {
        Some(net) => Ok(plays_in_zero(alloc, &net)? == Some(want)),
        None => Ok(false),
    }
}

#[test]
fn simulators_step_and_settle(rt: HostRuntime) -> Result<(), Fail> {
    let alloc = rt.alloc();
    assert!(rt; are_s27_steps(alloc)?);
    assert_eq!(rt; toggle_works(alloc)?, Some((0, 1, 1)));
    assert!(rt; is_quiet_from_one(alloc, TOGGLE)?);
    assert!(rt; is_quiet_from_one(alloc, TWO_GATES)?);
    Ok(())
}

// ---- clauses

/// The encoding of a netlist and of what its signature is taken of.
fn encoding_of(alloc: Global, net: &Netlist, choice: &Choice) -> Option<Encoding> {
    if choice.width() != net.width() {
        return None;
    }
    Encoding::new(alloc, net, choice).ok()
}

/// The encoding of a netlist and a signature file.
fn encoding_with(alloc: Global, net: &Netlist, items: &str) -> Option<Encoding> {
    match choice(alloc, items, net) {
        Err(_) => None,
        Ok(choice) => encoding_of(alloc, net, &choice),
    }
}

/// The encoding of a netlist's text and a signature file.
fn encoding(alloc: Global, text: &str, items: &str) -> Option<Encoding> {
    match netlist(alloc, text.as_bytes()) {
        None => None,
        Some(net) => encoding_with(alloc, &net, items),
    }
}

/// Whether a literal is this number, which is negative for a negation.
fn is_lit(literal: Lit, number: i32) -> bool {
    literal.var().0 == number.unsigned_abs() && literal.positive() == (number > 0)
}

/// Whether a clause is of these literals.
fn is_clause(clause: &[Lit], numbers: &[i32]) -> bool {
    if clause.len() != numbers.len() {
        return false;
    }
    for (literal, number) in clause.iter().zip(numbers) {
        if !is_lit(*literal, *number) {
            return false;
        }
    }
    true
}

/// Whether the clauses are of these literals.
fn are_clauses(clauses: &Clauses, wanted: &[&[i32]]) -> bool {
    if clauses.len() != wanted.len() {
        return false;
    }
    for (clause, numbers) in clauses.slice().iter().zip(wanted) {
        if !is_clause(clause.slice(), numbers) {
            return false;
        }
    }
    true
}

/// The numbers of variables and of clauses.
fn sizes(alloc: Global, text: &str, items: &str) -> Option<(u32, usize)> {
    match encoding(alloc, text, items) {
        Some(encoding) => Some((encoding.vars(), encoding.clauses().len())),
        None => None,
    }
}

/// Whether the clauses of the toggle are these.
fn are_of_toggle(alloc: Global, wanted: &[&[i32]]) -> bool {
    match encoding(alloc, TOGGLE, "") {
        Some(encoding) => are_clauses(encoding.clauses(), wanted),
        None => false,
    }
}

/// Netlists, signatures, and the numbers of variables and of clauses.
static SIZES: [(&str, &str, (u32, usize)); 4] = [
    (TOGGLE, "", (4, 5)),
    (TOGGLE, "cycles 2\n", (9, 12)),
    (S27, "bit G5\n", (24, 37)),
    (XNOR, "", (9, 16)),
];

/// The clauses of the toggle.
static CLAUSES: [&[i32]; 5] = [&[-2, -3], &[2, 3], &[-1], &[-4, 2], &[4, -2]];

/// Whether an encoding has these numbers of variables and of clauses.
fn has_sizes(alloc: Global, (text, items, want): &(&str, &str, (u32, usize))) -> bool {
    sizes(alloc, text, items) == Some(*want)
}

#[test]
fn netlists_are_encoded(rt: HostRuntime) -> Result<(), Fail> {
    for row in &SIZES {
        assert!(rt; has_sizes(rt.alloc(), row));
    }
    assert!(rt; are_of_toggle(rt.alloc(), &CLAUSES));
    Ok(())
}
