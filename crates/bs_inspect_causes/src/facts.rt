//! Facts of the trace: of nets at a cycle, and which of some are real.
ghost use Rattle.std.specs.Prelude.{◌≡◌, ◌<◌, [], ◌∷◌, ◌++◌, true, length, All, IfOk, OnOk};
ghost use Rattle.bs_net.specs.Netlist.{circuit};
ghost use Rattle.bs_net_facts.specs.Sources.{sources};
ghost use Rattle.bs_inspect_causes.specs.Accounts.{AreFactsOf, IsRealIn};
ghost use Rattle.bs_inspect_causes.specs.Layers.{IsReady};

use crate::basis::Basis;
use crate::since::known_bit;
use bs_bits::{List, NoMemory};
use bs_net::NetId;
use bs_net_facts::{Fact, Moments};
use std::alloc::Global;

/// Puts a fact at the end.
fn push_fact(facts: &mut List<Fact>, net: NetId, cycle: u32, bit: bool) -> Result<(), NoMemory>
    ensures { OnOk result (facts.new ≡ facts.old ++ record { net = net; cycle = cycle; bit = bit } ∷ []) }
{
    facts.push(Fact { net, cycle, bit })?;
    Ok(())
}

/// The facts of some nets at a cycle that has an input.
#[tactic(auto, using(crate::proofs::FactLemmas::facts_none))]
fn facts_at(
    alloc: Global,
    moments: &Moments<'_>,
    nets: &[NetId],
    cycle: u32,
) -> Result<List<Fact>, NoMemory>
    requires placed { All (λ n. n.0 < (circuit moments.now.net).nets) nets.now }
    requires early { cycle < length moments.now.inputs }
    ensures { IfOk result (λ facts. AreFactsOf moments.now nets.now cycle facts) }
{
    let mut facts = List::new(alloc);
    'nets: for net in nets {
        let bit = known_bit(moments, *net, cycle);
        push_fact(&mut facts, *net, cycle, bit)?;
    }
    Ok(facts)
}

/// The data inputs at a cycle that has an input.
#[tactic(auto, using(crate::proofs::SourceLemmas::inputs_in, crate::proofs::SourceLemmas::facts_in))]
pub fn input_facts(alloc: Global, moments: &Moments<'_>, cycle: u32) -> Result<List<Fact>, NoMemory>
    requires { cycle < length moments.now.inputs }
    ensures { IfOk result (λ facts. AreFactsOf moments.now (circuit moments.now.net).inputs cycle facts) }
{
    let net = moments.net();
    let _raw = net.raw();
    let facts = facts_at(alloc, moments, net.data_inputs().slice(), cycle)?;
    Ok(facts)
}

/// All flip-flops and data inputs at a cycle that has an input.
#[tactic(auto, using(crate::proofs::SourceLemmas::flops_there, crate::proofs::SourceLemmas::inputs_there))]
pub(crate) fn sources_at(basis: &Basis<'_>, cycle: u32) -> Result<List<Fact>, NoMemory>
    requires ready { IsReady basis.now.scene.now.moments.now basis.now.drivers.now }
    requires early { cycle < length basis.now.scene.now.moments.now.inputs }
    ensures are { IfOk result (λ facts. facts ≡ sources (circuit basis.now.scene.now.moments.now.net) basis.now.scene.now.moments.now.states basis.now.scene.now.moments.now.inputs cycle) }
    ensures real { IfOk result (λ facts. All (IsRealIn basis.now.scene.now.moments.now) facts) }
{
    let moments = basis.scene.moments;
    let net = moments.net();
    let mut facts = facts_at(basis.alloc, moments, basis.drivers.flops.slice(), cycle)?;
    let inputs = facts_at(basis.alloc, moments, net.data_inputs().slice(), cycle)?;
    facts.append(inputs)?;
    Ok(facts)
}

/// Whether a fact is the trace's.
pub(crate) fn is_real(moments: &Moments<'_>, fact: Fact) -> bool
    ensures { result ≡ true → IsRealIn moments.now fact }
{
    match moments.bit(fact.net, fact.cycle) {
        Some(shown) => shown == fact.bit,
        None => false,
    }
}

/// Puts a fact at the end if it is the trace's.
#[tactic(auto, using(crate::proofs::FactLemmas::real_push))]
fn push_real(facts: &mut List<Fact>, moments: &Moments<'_>, fact: Fact) -> Result<(), NoMemory>
    requires { All (IsRealIn moments.now) facts.old }
    ensures { OnOk result (All (IsRealIn moments.now) facts.new) }
{
    if is_real(moments, fact) {
        facts.push(fact)?;
    }
    Ok(())
}

/// Those of some facts that are the trace's.
#[tactic(auto, using(crate::proofs::FactLemmas::real_none))]
pub(crate) fn real_facts(
    alloc: Global,
    moments: &Moments<'_>,
    facts: &[Fact],
) -> Result<List<Fact>, NoMemory>
    ensures { IfOk result (λ real. All (IsRealIn moments.now) real) }
{
    let mut real = List::new(alloc);
    'facts: for fact in facts {
        push_real(&mut real, moments, *fact)?;
    }
    Ok(real)
}

/// A copy of some facts.
pub(crate) fn copied(alloc: Global, facts: &[Fact]) -> Result<List<Fact>, NoMemory>
    ensures { IfOk result (λ copy. copy ≡ facts.now) }
{
    let copy = Vec::from_slice(alloc, facts)?;
    Ok(List::of(copy))
}
