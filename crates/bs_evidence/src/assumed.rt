//! What each step of a report assumes.
ghost use Rattle.std.specs.Prelude.{◌≡◌, ◌+◌, ◌<◌, ◌^◌, true, length, map, option_map, All, IfOk};
ghost use Rattle.bs_net.specs.Netlist.{circuit};
ghost use Rattle.bs_encode.specs.Assuming.{assumptions_for, steps_from, AreWide};
ghost use Rattle.bs_encode.specs.Depth.{encoding_by};
ghost use Rattle.bs_encode.specs.Listing.{IsTidy};
ghost use Rattle.bs_encode.specs.Tables.{lit};
ghost use Rattle.bs_report.specs.Chain.{present_of};
ghost use Rattle.bs_evidence.specs.Evidence.{Suits};

use bs_bits::{Bits, List, NoMemory};
use bs_clause::{Lit, Lits, Var};
use bs_encode::{Encoding, encodings_are_tidy};
use bs_net::Netlist;
use bs_report::Step;
use bs_scan::Choice;
use std::alloc::Global;

/// The encoding of a netlist and of what its signature is taken of.
pub fn encoding(alloc: Global, net: &Netlist, choice: &Choice) -> Result<Encoding, NoMemory>
    requires { choice.now.width ≡ length (circuit net.now).flops }
    ensures value { IfOk result (λ e. e ≡ encoding_by (circuit net.now) choice.now) }
    ensures tidy { IfOk result (IsTidy (circuit net.now) choice.now) }
{
    encodings_are_tidy(net, choice);
    Encoding::new(alloc, net, choice)
}

/// The activation literal of a step, counted from 0.
fn activation_of(encoding: &Encoding, i: usize) -> Lit
    requires { encoding.now.variables + (i + 1) < 2 ^ 30 }
    ensures { result ≡ lit (encoding.now.variables + (i + 1)) true }
{
    Lit::new(Var(encoding.vars() + (i as u32 + 1)), true)
}

/// The signature, lent, if there is one.
fn lent(signature: &Option<Bits>) -> Option<&Bits>
    ensures { option_map (λ bits. bits.now) result ≡ signature.now }
{
    match signature {
        None => None,
        Some(bits) => Some(bits),
    }
}

/// What a step assumes.
fn assumed(
    alloc: Global,
    encoding: &Encoding,
    activation: Lit,
    step: &Step,
) -> Result<Lits, NoMemory>
    requires present { length step.now.present.bits ≡ length encoding.now.next }
    requires stored { length step.now.stored ≡ length encoding.now.signatures }
    requires older { AreWide (length encoding.now.older_signatures) step.now.older }
    ensures { IfOk result (λ l. l ≡ assumptions_for encoding.now activation (present_of step.now)) }
{
    let older = lent(&step.older);
    encoding.assumptions(alloc, activation, &step.present, &step.stored, older)
}

/// What each step assumes.
pub fn assumptions(
    alloc: Global,
    encoding: &Encoding,
    steps: &[Step],
) -> Result<List<Lits>, NoMemory>
    requires fit { All (Suits encoding.now) steps.now }
    requires room { encoding.now.variables + length steps.now < 2 ^ 30 }
    ensures { IfOk result (λ l. l ≡ steps_from encoding.now 1 (map present_of steps.now)) }
{
    let mut all = List::new(alloc);
    'steps: for i in 0..steps.len() {
        let activation = activation_of(encoding, i);
        all.push(assumed(alloc, encoding, activation, &steps[i])?)?;
    }
    Ok(all)
}
