//! The nets with a name, and their facts.
ghost use Rattle.std.specs.Prelude.{◌≡◌, ◌<◌, ◌≤◌, ◌==◌, ◌&&◌, ◌∷◌, [], ◌++◌, false, not, length, map, All, IfOk, MatchOption, OnOk};
ghost use Rattle.std.specs.List.{flat_map, list_any};
ghost use Rattle.bs_net.specs.Netlist.{circuit};
ghost use Rattle.bs_inspect_view.specs.Signals.{member_in, members_of};
ghost use Rattle.bs_inspect_causes.specs.Accounts.{has_net};
ghost use Rattle.bs_inspect_why.specs.Question.{AreAsked, asked_net, asked_nets, IsAsked, is_driven};

use bs_bits::{List, NoMemory};
use bs_inspect_view::{Member, members, net_keys};
use bs_net::{Const, Flop, Gate, NetId, Netlist};
use bs_net_facts::{Fact, Moments};
use std::alloc::Global;

/// The nets with a name.
#[tactic(auto, using(crate::proofs::AskedLemmas::members_are))]
fn named<'a>(alloc: Global, net: &'a Netlist, name: &str) -> Result<Vec<Member<'a>>, NoMemory>
    ensures { IfOk result (λ members. map member_in members.items ≡ members_of (name.now ∷ []) net.now.raw.names) }
{
    let keys = net_keys(alloc, net)?;
    let members = members(alloc, keys.as_slice(), &[name])?;
    Ok(members)
}

/// Whether one of some nets is this one.
fn has_net(nets: &[NetId], net: NetId) -> bool
    ensures { result ≡ has_net nets.now net }
{
    'nets: for other in nets {
        let same = other.0 == net.0;
        if same {
            return true;
        }
    }
    false
}

/// Whether a flip-flop drives a net.
fn flop_drives(flops: &[Flop], net: NetId) -> bool
    ensures { result ≡ list_any (λ f. f.q.0 == net.0) flops.now }
{
    'flops: for flop in flops {
        let same = flop.q.0 == net.0;
        if same {
            return true;
        }
    }
    false
}

/// Whether a constant drives a net.
fn constant_drives(constants: &[Const], net: NetId) -> bool
    ensures { result ≡ list_any (λ k. k.net.0 == net.0) constants.now }
{
    'constants: for constant in constants {
        let same = constant.net.0 == net.0;
        if same {
            return true;
        }
    }
    false
}

/// Whether a gate drives a net.
fn gate_drives(gates: &[Gate], net: NetId) -> bool
    ensures { result ≡ list_any (λ g. g.out.0 == net.0) gates.now }
{
    'gates: for gate in gates {
        let same = gate.out.0 == net.0;
        if same {
            return true;
        }
    }
    false
}

/// Whether a net is driven and no data input.
#[tactic(auto, using(crate::proofs::AskedLemmas::driven_is))]
fn is_asked(net: &Netlist, id: NetId) -> bool
    ensures { result ≡ (not (has_net (circuit net.now).inputs id) && is_driven (circuit net.now) id) }
{
    let raw = net.raw();
    let input = has_net(net.data_inputs().slice(), id);
    let flop = flop_drives(raw.flops.slice(), id);
    let constant = constant_drives(raw.consts.slice(), id);
    let gate = gate_drives(raw.gates.slice(), id);
    !input && (flop || (constant || gate))
}

/// Puts a net at the end, where it is driven and no data input.
fn put_asked(nets: &mut Vec<NetId>, net: &Netlist, member: &Member<'_>) -> Result<(), NoMemory>
    ensures { OnOk result (nets.new.items ≡ nets.old.items ++ asked_net (circuit net.now) (member_in member.now)) }
{
    let id = NetId(member.place);
    if is_asked(net, id) {
        nets.push(id)?;
    }
    Ok(())
}

/// Those of some nets that are driven and no data inputs.
fn driven(alloc: Global, net: &Netlist, members: &[Member<'_>]) -> Result<Vec<NetId>, NoMemory>
    ensures { IfOk result (λ nets. nets.items ≡ flat_map (asked_net (circuit net.now)) (map member_in members.now)) }
{
    let mut nets = Vec::new(alloc);
    'members: for member in members {
        put_asked(&mut nets, net, member)?;
    }
    Ok(nets)
}

/// The nets with a name that are driven and no data inputs.
#[tactic(auto, using(crate::proofs::AskedLemmas::nets_are, crate::proofs::AskedLemmas::nets_placed, crate::proofs::AskedLemmas::nets_driven))]
pub(crate) fn asked_nets(alloc: Global, net: &Netlist, name: &str) -> Result<Vec<NetId>, NoMemory>
    ensures placed { IfOk result (λ nets. All (λ n. n.0 < (circuit net.now).nets) nets.items) }
    ensures driven { IfOk result (λ nets. All (λ n. has_net (circuit net.now).inputs n ≡ false) nets.items) }
    ensures are { IfOk result (λ nets. nets.items ≡ asked_nets net.now.raw name.now) }
{
    let members = named(alloc, net, name)?;
    let nets = driven(alloc, net, members.as_slice())?;
    Ok(nets)
}

/// The fact of a net at a moment; none where its bit is open.
#[tactic(auto, using(crate::proofs::AskedLemmas::fact_is, crate::proofs::AskedLemmas::fact_open))]
fn fact_of(moments: &Moments<'_>, net: NetId, at: u32) -> Option<Fact>
    requires { net.0 < (circuit moments.now.net).nets }
    ensures { MatchOption result (length moments.now.inputs ≤ at) (IsAsked moments.now net at) }
{
    match moments.bit(net, at) {
        Some(bit) => Some(Fact {
            net,
            cycle: at,
            bit,
        }),
        None => None,
    }
}

/// The facts of nets at a moment; none where a bit is open.
#[tactic(auto, using(crate::proofs::AskedLemmas::facts_begin, crate::proofs::AskedLemmas::net_here))]
pub(crate) fn asked_facts(
    alloc: Global,
    moments: &Moments<'_>,
    nets: &[NetId],
    at: u32,
) -> Result<Option<List<Fact>>, NoMemory>
    requires { All (λ n. n.0 < (circuit moments.now.net).nets) nets.now }
    ensures { IfOk result (λ facts. MatchOption facts (length moments.now.inputs ≤ at) (AreAsked moments.now nets.now at (length nets.now))) }
{
    let mut facts = List::new(alloc);
    'nets: for i in 0..nets.len() {
        let Some(fact) = fact_of(moments, nets[i], at) else {
            return Ok(None);
        };
        facts.push(fact)?;
    }
    Ok(Some(facts))
}
