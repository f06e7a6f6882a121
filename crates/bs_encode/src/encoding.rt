//! The encoding of a netlist and what its signature is taken of.
ghost use Rattle.std.specs.Prelude.{◌≡◌, ◌≢◌, ◌<◌, ◌≤◌, ◌+◌, ◌-◌, [], ◌++◌, true, length, map, All, IfOk, OnOk, None, Some, option_map, slice_get};
ghost use Rattle.std.specs.List.{range_with_len};
ghost use Rattle.bs_net.specs.declared.limits.TheConstants.{MAX_NETS};
ghost use Rattle.bs_clause.specs.declared.literal.TheConstants.{VARIABLE_LIMIT};
ghost use Rattle.bs_clause.specs.Literal.{IsVariable};
ghost use Rattle.bs_net.specs.Netlist.{circuit};
ghost use Rattle.bs_encode.specs.Tables.{lit};
ghost use Rattle.bs_encode.specs.Transition.{cycle_clauses, table_clauses, tidied, state_vars, net_var, item_vars, first_item, first_next, variables};
ghost use Rattle.bs_encode.specs.Encoded.{literals, joined, unsigned, encoding_of};
ghost use Rattle.bs_encode.specs.Assuming.{asking, AreWide, before_assumed, assumptions_for, block_for};
ghost use Rattle.bs_encode.specs.Depth.{IsLinkable, linked, linked_clauses, encoding_by};

use crate::circuit_clauses::{add_gates, add_items, add_next, variable};
use crate::earlier_frame::{Older, append, no_older, older_clauses, older_literals};
use crate::law::encodings_are_linkable;
use crate::signs::{push_all, push_denied, push_seen, push_signed};
use crate::tidy::tidy;
use crate::units::{add_units, constant_table, zero_nets};
use bs_bits::{Bits, List};
use bs_clause::{Clauses, Lit, Lits, NoMemory, Var};
use bs_net::{Flop, NetId, Netlist};
use bs_scan::{Choice, Seen};
use std::alloc::Global;
use std::marker::Model;

/// The activation literals of so many steps fit above the variables of an encoding.
/// A report has at most so many steps, and each step has one such literal.
pub const MAX_ACTIVATIONS: u32 = 65_536;

/// The variables that show the state.
fn state_variables(alloc: Global, flops: &[Flop]) -> Result<List<u32>, NoMemory>
    requires { All (λ f. f.q.0 < MAX_NETS) flops.now }
    ensures value { IfOk result (λ l. l ≡ map (λ f. net_var f.q) flops.now) }
    ensures range { IfOk result (λ l. All IsVariable l) }
{
    let mut states = List::new(alloc);
    for flop in flops {
        states.push(variable(flop.q))?;
    }
    Ok(states)
}

/// The clauses as the tables give them, the first next variable, and the first variable after all.
#[derive(Drop)]
struct PartialEncoding {
    clauses: Clauses,
    next: u32,
    end: u32,
}

/// The clauses of the gates, of the constants and the zero nets, and of the flip-flops.
fn encode_cycle(alloc: Global, net: &Netlist) -> Result<PartialEncoding, NoMemory>
    requires { first_item (circuit net.now) ≤ VARIABLE_LIMIT }
    ensures clauses { IfOk result (λ l. l.clauses ≡ cycle_clauses (circuit net.now)) }
    ensures next { IfOk result (λ l. l.next ≡ first_next (circuit net.now)) }
    ensures end { IfOk result (λ l. l.end ≡ first_item (circuit net.now)) }
{
    let _order = net.order();
    let raw = net.raw();
    let zero = zero_nets(alloc, net)?;
    let values = constant_table(alloc, raw.names.len() as usize, raw.consts.slice())?;
    let mut into = Clauses::new(alloc);
    let next = add_gates(alloc, &mut into, raw.names.len() + 1, raw.gates.slice())?;
    add_units(alloc, &mut into, zero.as_slice(), values.as_slice())?;
    add_next(alloc, &mut into, next, raw.flops.slice())?;
    Ok(PartialEncoding {
        clauses: into,
        next,
        end: next + raw.flops.len() as u32,
    })
}

/// The same with the clauses of the items; the literals of the items go into `own`.
fn encode_parts(
    alloc: Global,
    net: &Netlist,
    states: &[u32],
    choice: &Choice,
    own: &mut Lits,
) -> Result<PartialEncoding, NoMemory>
    requires states { states.now ≡ state_vars (circuit net.now) }
    requires range { All IsVariable states.now }
    requires width { choice.now.width ≡ length states.now }
    requires few { All (λ item. length item < VARIABLE_LIMIT) choice.now.items }
    requires room { variables (circuit net.now) choice.now.items < VARIABLE_LIMIT }
    ensures clauses { IfOk result (λ l. l.clauses ≡ table_clauses (circuit net.now) choice.now.items) }
    ensures next { IfOk result (λ l. l.next ≡ first_next (circuit net.now)) }
    ensures end { IfOk result (λ l. l.end ≡ variables (circuit net.now) choice.now.items + 1) }
    ensures own { OnOk result (own.new ≡ own.old ++ map (λ u. lit u true) (item_vars (first_item (circuit net.now)) choice.now.items)) }
{
    let partial = encode_cycle(alloc, net)?;
    let mut into = partial.clauses;
    let end = add_items(alloc, &mut into, own, states, partial.end, choice)?;
    Ok(PartialEncoding {
        clauses: into,
        next: partial.next,
        end,
    })
}

/// The positive literals of variables.
fn literals_of(alloc: Global, variables: &[u32]) -> Result<Lits, NoMemory>
    requires { All IsVariable variables.now }
    ensures { IfOk result (λ l. l ≡ literals variables.now) }
{
    let mut all = Lits::new(alloc);
    for &v in variables {
        all.push(Lit::new(Var(v), true))?;
    }
    Ok(all)
}

/// The positive literals of so many variables from one on.
fn literals_from(alloc: Global, first: u32, count: usize) -> Result<Lits, NoMemory>
    requires { (1 ≤ first) × (first + count ≤ VARIABLE_LIMIT) }
    ensures { IfOk result (λ l. l ≡ literals (range_with_len first count)) }
{
    let mut all = Lits::new(alloc);
    for i in 0..count {
        all.push(Lit::new(Var(first + i as u32), true))?;
    }
    Ok(all)
}

/// The literals of nets.
fn net_literals(alloc: Global, nets: &[NetId]) -> Result<Lits, NoMemory>
    requires { All (λ n. n.0 < MAX_NETS) nets.now }
    ensures { IfOk result (λ l. l ≡ literals (map net_var nets.now)) }
{
    let mut all = Lits::new(alloc);
    for &net in nets {
        all.push(Lit::new(Var(variable(net)), true))?;
    }
    Ok(all)
}

/// The transition relation of a netlist as clauses, with the literals of its state, its next state,
/// its inputs and its signature; where two signatures are kept, with a second time frame of all, for the cycle before.
pub struct Encoding {
    clauses: Clauses,
    variables: u32,
    states: Lits,
    next: Lits,
    signatures: Lits,
    inputs: Lits,
    older: Older,
}

// One function for every place that drops an encoding, so that the proof of each such place stays small.
impl Drop for Encoding {
    fn drop(self) {
        let Encoding {
            clauses,
            variables: _,
            states,
            next,
            signatures,
            inputs,
            older,
        } = self;
        drop(clauses);
        drop(states);
        drop(next);
        drop(signatures);
        drop(inputs);
        drop(older);
    }
}

impl Model for Encoding {
    ghost use Rattle.bs_encode.specs.Encoded.{Encoded};

    ghost Value = { Encoded };

    ghost view = { λ e. record { clauses = e.clauses; variables = e.variables; states = e.states; next = e.next; signatures = e.signatures; inputs = e.inputs; link = e.older.link; older_states = e.older.states; older_inputs = e.older.inputs; older_signatures = e.older.signatures; at_reset = e.older.at_reset } };
}

/// The literals of a netlist's state, next state and data inputs.
#[derive(Drop)]
struct NetLiterals {
    states: Lits,
    next: Lits,
    inputs: Lits,
}

/// The literals of a netlist, whose next variables begin at `first`.
fn literals_in(
    alloc: Global,
    net: &Netlist,
    states: &[u32],
    first: u32,
) -> Result<NetLiterals, NoMemory>
    requires states { states.now ≡ state_vars (circuit net.now) }
    requires range { All IsVariable states.now }
    requires next { first ≡ first_next (circuit net.now) }
    requires room { first_item (circuit net.now) ≤ VARIABLE_LIMIT }
    ensures states { IfOk result (λ own. own.states ≡ literals (state_vars (circuit net.now))) }
    ensures next { IfOk result (λ own. own.next ≡ literals (range_with_len (first_next (circuit net.now)) (length (circuit net.now).flops))) }
    ensures inputs { IfOk result (λ own. own.inputs ≡ literals (map net_var (circuit net.now).inputs)) }
{
    let raw = net.raw();
    let next = literals_from(alloc, first, raw.flops.len())?;
    let inputs = net_literals(alloc, net.data_inputs().slice())?;
    let states = literals_of(alloc, states)?;
    Ok(NetLiterals {
        states,
        next,
        inputs,
    })
}

/// The encoding of its parts, with no signature.
fn encoding_with(alloc: Global, clauses: Clauses, variables: u32, own: NetLiterals) -> Encoding
    ensures { result ≡ unsigned clauses variables own.states own.next own.inputs }
{
    Encoding {
        clauses,
        variables,
        states: own.states,
        next: own.next,
        signatures: Lits::new(alloc),
        inputs: own.inputs,
        older: no_older(alloc),
    }
}

/// The encoding of clauses over these literals, with no signature.
fn join_literals(
    alloc: Global,
    partial: &PartialEncoding,
    own: NetLiterals,
) -> Result<Encoding, NoMemory>
    requires end { 1 ≤ partial.now.end }
    ensures { IfOk result (λ e. e ≡ unsigned (tidied partial.now.clauses) (partial.now.end - 1) own.states own.next own.inputs) }
{
    match tidy(alloc, &partial.clauses) {
        Ok(clauses) => Ok(encoding_with(alloc, clauses, partial.end - 1, own)),
        Err(want) => {
            drop(own);
            Err(want)
        }
    }
}

/// The encoding of clauses over the literals of a netlist, with no signature.
fn join(
    alloc: Global,
    net: &Netlist,
    states: &[u32],
    partial: &PartialEncoding,
) -> Result<Encoding, NoMemory>
    requires states { states.now ≡ state_vars (circuit net.now) }
    requires range { All IsVariable states.now }
    requires next { partial.now.next ≡ first_next (circuit net.now) }
    requires room { first_item (circuit net.now) ≤ VARIABLE_LIMIT }
    requires end { 1 ≤ partial.now.end }
    ensures { IfOk result (λ e. e ≡ joined (circuit net.now) (tidied partial.now.clauses) (partial.now.end - 1) []) }
{
    match literals_in(alloc, net, states, partial.next) {
        Ok(own) => join_literals(alloc, partial, own),
        Err(want) => Err(want),
    }
}

/// The encoding with the literals of a signature.
fn with_signatures(encoding: Encoding, signatures: Lits) -> Encoding
    ensures { result ≡ record encoding { signatures = signatures } }
{
    let mut encoding = encoding;
    encoding.signatures = signatures;
    encoding
}

/// The encoding of clauses and signatures over the literals of a netlist.
fn join_signed(
    alloc: Global,
    net: &Netlist,
    states: &[u32],
    partial: PartialEncoding,
    signatures: Lits,
) -> Result<Encoding, NoMemory>
    requires states { states.now ≡ state_vars (circuit net.now) }
    requires range { All IsVariable states.now }
    requires next { partial.next ≡ first_next (circuit net.now) }
    requires room { first_item (circuit net.now) ≤ VARIABLE_LIMIT }
    requires end { 1 ≤ partial.end }
    ensures { IfOk result (λ e. e ≡ joined (circuit net.now) (tidied partial.clauses) (partial.end - 1) signatures) }
{
    let unsigned = join(alloc, net, states, &partial);
    drop(partial);
    match unsigned {
        Ok(encoding) => Ok(with_signatures(encoding, signatures)),
        Err(want) => {
            drop(signatures);
            Err(want)
        }
    }
}

/// One time frame of the transition over the state's variables, and the signature.
fn frame_over(
    alloc: Global,
    net: &Netlist,
    states: &[u32],
    choice: &Choice,
) -> Result<Encoding, NoMemory>
    requires width { choice.now.width ≡ length (circuit net.now).flops }
    requires states { states.now ≡ state_vars (circuit net.now) }
    requires range { All IsVariable states.now }
    ensures { IfOk result (λ e. e ≡ encoding_of (circuit net.now) choice.now.items) }
{
    let _raw = net.raw();
    let _items = choice.items();
    let mut signatures = Lits::new(alloc);
    match encode_parts(alloc, net, states, choice, &mut signatures) {
        Ok(partial) => join_signed(alloc, net, states, partial, signatures),
        Err(want) => {
            drop(signatures);
            Err(want)
        }
    }
}

/// One time frame of the transition, and the signature.
fn one_frame(alloc: Global, net: &Netlist, choice: &Choice) -> Result<Encoding, NoMemory>
    requires { choice.now.width ≡ length (circuit net.now).flops }
    ensures { IfOk result (λ e. e ≡ encoding_of (circuit net.now) choice.now.items) }
{
    let states = state_variables(alloc, net.raw().flops.slice())?;
    let encoding = frame_over(alloc, net, states.slice(), choice)?;
    Ok(encoding)
}

/// Puts the clauses of a second time frame to those of one.
fn add_older_clauses(alloc: Global, one: &mut Encoding) -> Result<(), NoMemory>
    requires { IsLinkable one.old }
    ensures { OnOk result (one.new ≡ record one.old { clauses = linked_clauses one.old }) }
{
    match older_clauses(alloc, one) {
        Ok(more) => append(&mut one.clauses, more),
        Err(want) => Err(want),
    }
}

/// Gives an encoding the literals of a second time frame, and so many variables.
fn set_older(one: &mut Encoding, variables: u32, older: Older)
    ensures { one.new ≡ record one.old { variables = variables; link = older.link; older_states = older.states; older_inputs = older.inputs; older_signatures = older.signatures; at_reset = older.at_reset } }
{
    one.variables = variables;
    one.older = older;
}

/// Gives an encoding of one time frame a second one, for the cycle before.
fn link_older(alloc: Global, one: &mut Encoding, reset: &Bits) -> Result<(), NoMemory>
    requires linkable { IsLinkable one.old }
    requires width { length one.old.states ≡ length reset.now }
    ensures { OnOk result (one.new ≡ linked reset.now one.old) }
{
    let variables = 2 * one.variables + 1;
    let older = older_literals(alloc, one, reset)?;
    match add_older_clauses(alloc, one) {
        Ok(_) => {
            set_older(one, variables, older);
            Ok(())
        }
        Err(want) => {
            drop(older);
            Err(want)
        }
    }
}

impl Encoding {
    /// The encoding of a netlist by a choice: one time frame of the transition, and a second one where two signatures are kept
    /// (docs/FORMATS.md, "Clauses of the transition relation").
    pub fn new(alloc: Global, net: &Netlist, choice: &Choice) -> Result<Encoding, NoMemory>
        requires { choice.now.width ≡ length (circuit net.now).flops }
        ensures { IfOk result (λ e. e ≡ encoding_by (circuit net.now) choice.now) }
    {
        encodings_are_linkable(net, choice);
        let mut encoding = one_frame(alloc, net, choice)?;
        if choice.depth() == 2 {
            link_older(alloc, &mut encoding, net.reset())?;
        }
        Ok(encoding)
    }

    /// The encoding of a netlist without a signature.
    pub fn plain(alloc: Global, net: &Netlist) -> Result<Encoding, NoMemory>
        ensures { IfOk result (λ e. e ≡ encoding_of (circuit net.now) []) }
    {
        let raw = net.raw();
        let states = state_variables(alloc, raw.flops.slice())?;
        let partial = encode_cycle(alloc, net)?;
        let encoding = join(alloc, net, states.slice(), &partial)?;
        Ok(encoding)
    }

    /// The clauses; clause number i, from 1, has the id i.
    pub fn clauses(&self) -> &Clauses
        ensures { result.now ≡ self.now.clauses }
    {
        &self.clauses
    }

    /// Gives the clauses away; the encoding keeps none.
    pub fn take_clauses(&mut self, alloc: Global) -> Clauses
        ensures given { result ≡ self.old.clauses }
        ensures rest { self.new ≡ record self.old { clauses = [] } }
    {
        std::mem::replace(&mut self.clauses, Clauses::new(alloc))
    }

    /// The number of variables.
    pub fn vars(&self) -> u32
        ensures { result ≡ self.now.variables }
    {
        self.variables
    }

    /// The literals of the present state, in the order of the flip-flops.
    pub fn states(&self) -> &[Lit]
        ensures { result.now ≡ self.now.states }
    {
        self.states.slice()
    }

    /// The literals of the next state, in the order of the flip-flops.
    pub fn next(&self) -> &[Lit]
        ensures { result.now ≡ self.now.next }
    {
        self.next.slice()
    }

    /// The literals of the data inputs, in their order.
    pub fn inputs(&self) -> &[Lit]
        ensures { result.now ≡ self.now.inputs }
    {
        self.inputs.slice()
    }

    /// The literals of the signature, in the order of the items.
    pub fn signatures(&self) -> &[Lit]
        ensures { result.now ≡ self.now.signatures }
    {
        self.signatures.slice()
    }

    /// The literal of a flip-flop's present bit.
    pub fn state_lit(&self, i: usize) -> Lit
        requires { i < length self.now.states }
        ensures { slice_get self.now.states i ≡ Some result }
    {
        *self.states.get(i)
    }

    /// The literal of a flip-flop's next bit.
    pub fn next_lit(&self, i: usize) -> Lit
        requires { i < length self.now.next }
        ensures { slice_get self.now.next i ≡ Some result }
    {
        *self.next.get(i)
    }

    /// The literal of an item's bit of the signature.
    pub fn sig_lit(&self, i: usize) -> Lit
        requires { i < length self.now.signatures }
        ensures { slice_get self.now.signatures i ≡ Some result }
    {
        *self.signatures.get(i)
    }

    /// The literal of a data input's bit.
    pub fn input_lit(&self, i: usize) -> Lit
        requires { i < length self.now.inputs }
        ensures { slice_get self.now.inputs i ≡ Some result }
    {
        *self.inputs.get(i)
    }

    /// The link, where there is a second time frame.
    pub fn link(&self) -> Option<Lit>
        ensures { result ≡ self.now.link }
    {
        self.older.link
    }

    /// The link, which is true where the second time frame leads to the first.
    pub fn link_lit(&self) -> Lit
        requires { self.now.link ≢ None }
        ensures { self.now.link ≡ Some result }
    {
        self.older.link.unwrap()
    }

    /// The literals of the state before, in the order of the flip-flops; none where there is one time frame.
    pub fn older_states(&self) -> &[Lit]
        ensures { result.now ≡ self.now.older_states }
    {
        self.older.states.slice()
    }

    /// The literals of the data inputs in the cycle before, in their order; none where there is one time frame.
    pub fn older_inputs(&self) -> &[Lit]
        ensures { result.now ≡ self.now.older_inputs }
    {
        self.older.inputs.slice()
    }

    /// The literal of a flip-flop's bit before.
    pub fn older_state_lit(&self, i: usize) -> Lit
        requires { i < length self.now.older_states }
        ensures { slice_get self.now.older_states i ≡ Some result }
    {
        *self.older.states.get(i)
    }

    /// The literal of a data input's bit in the cycle before.
    pub fn older_input_lit(&self, i: usize) -> Lit
        requires { i < length self.now.older_inputs }
        ensures { slice_get self.now.older_inputs i ≡ Some result }
    {
        *self.older.inputs.get(i)
    }

    /// The literal of an item's bit of the signature before.
    pub fn older_sig_lit(&self, i: usize) -> Lit
        requires { i < length self.now.older_signatures }
        ensures { slice_get self.now.older_signatures i ≡ Some result }
    {
        *self.older.signatures.get(i)
    }

    /// Puts what an older signature, or none, says of the cycle before at the end.
    fn push_before(&self, into: &mut Lits, l: Lit, older: Option<&Bits>) -> Result<(), NoMemory>
        requires { AreWide (length self.now.older_signatures) (option_map (λ bits. bits.now) older) }
        ensures { OnOk result (into.new ≡ into.old ++ before_assumed self.now l (option_map (λ bits. bits.now) older.entry)) }
    {
        match older {
            None => {
                into.push(l.negate())?;
                push_all(into, self.older.at_reset.slice())
            }
            Some(older) => {
                into.push(l)?;
                push_signed(into, self.older.signatures.slice(), older)
            }
        }
    }

    /// What a step assumes: its activation literal, the next literals with the signs of the present state where it is known, and the
    /// signature literals with the signs of the stored signature. Where there is a second time frame, also what it says of the cycle before: the link
    /// and the older signature, or the reset state and no link.
    pub fn assumptions(
        &self,
        alloc: Global,
        activation: Lit,
        present: &Seen,
        stored: &Bits,
        older: Option<&Bits>,
    ) -> Result<Lits, NoMemory>
        requires state { length present.now.bits ≡ length self.now.next }
        requires signature { length stored.now ≡ length self.now.signatures }
        requires older { AreWide (length self.now.older_signatures) (option_map (λ bits. bits.now) older) }
        ensures { IfOk result (λ l. l ≡ assumptions_for self.now activation (asking present.now stored.now (option_map (λ bits. bits.now) older.entry))) }
    {
        let mut all = Lits::new(alloc);
        all.push(activation)?;
        push_seen(&mut all, self.next.slice(), present)?;
        push_signed(&mut all, self.signatures.slice(), stored)?;
        if let Some(l) = self.older.link {
            self.push_before(&mut all, l, older)?;
        }
        Ok(all)
    }

    /// The clause that a state alone does not meet: each state literal with the sign that the state makes false.
    pub fn block(&self, alloc: Global, state: &Bits) -> Result<Lits, NoMemory>
        requires { length state.now ≡ length self.now.states }
        ensures { IfOk result (λ c. c ≡ block_for self.now state.now) }
    {
        let mut clause = Lits::new(alloc);
        push_denied(&mut clause, self.states.slice(), state)?;
        Ok(clause)
    }
}
