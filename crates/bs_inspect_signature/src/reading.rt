//! The signature that a proposal is, and the lists by it.
ghost use Rattle.std.specs.Prelude.{◌≡◌, ◌≢◌, ◌<◌, length, None, Some, true, false, IfOk};
ghost use Rattle.bs_net.specs.Netlist.{circuit};
ghost use Rattle.bs_stim.specs.Runs.{inputs_of};
ghost use Rattle.bs_scan.specs.declared.fault.ChoiceFault.TheVariants.{NoMemory as Want};
ghost use Rattle.bs_inspect_signature.specs.Reading.{AreBy, choice_in, mixed_choice};

use crate::counting::ListPurpose;
use crate::item_lines::mixed_lines;
use crate::lists::{MomentCount, count_lists};
use bs_bits::NoMemory;
use bs_net::Netlist;
use bs_scan::{Choice, ChoiceFault, MAX_SIGNATURE_BYTES};
use bs_stim::Runs;
use std::alloc::Global;

/// Whether memory ran out.
fn is_want(fault: ChoiceFault) -> bool
    ensures yes { result ≡ true → fault ≡ Want }
    ensures no { result ≡ false → fault ≢ Want }
{
    match fault {
        ChoiceFault::Line(_) => false,
        ChoiceFault::TooMany(_) => false,
        ChoiceFault::UnknownFlop(_) => false,
        ChoiceFault::NoMemory => true,
    }
}

/// No signature, unless memory ran out.
fn refused(fault: ChoiceFault) -> Result<Option<Choice>, NoMemory>
    ensures none { IfOk result (λ choice. choice ≡ None) }
    ensures other { IfOk result (λ _. fault ≢ Want) }
{
    if is_want(fault) {
        Err(NoMemory)
    } else {
        Ok(None)
    }
}

/// The signature of one state that a text is as a file, if it is one.
#[tactic(auto, using(crate::proofs::ReadingLemmas::text_long, crate::proofs::ReadingLemmas::text_read, crate::proofs::ReadingLemmas::text_refused))]
fn read_choice(alloc: Global, net: &Netlist, text: &[u8]) -> Result<Option<Choice>, NoMemory>
    ensures { IfOk result (λ choice. choice ≡ choice_in net.now.raw text.now) }
{
    if text.len() > MAX_SIGNATURE_BYTES as usize {
        return Ok(None);
    }
    match Choice::read(alloc, text, net) {
        Ok(choice) => Ok(Some(choice.with_depth(1))),
        Err(fault) => refused(fault),
    }
}

/// The signature that a proposal of so many items is, if its lines are one.
#[tactic(auto, using(crate::proofs::ReadingLemmas::mixed_read))]
pub(crate) fn read_mixed(
    alloc: Global,
    net: &Netlist,
    count: usize,
) -> Result<Option<Choice>, NoMemory>
    requires { 0 < count }
    ensures { IfOk result (λ choice. choice ≡ mixed_choice net.now.raw count) }
{
    let lines = mixed_lines(alloc, net, count)?;
    let choice = read_choice(alloc, net, lines.as_slice())?;
    Ok(choice)
}

/// The lists by a signature that a proposal is.
#[tactic(auto, using(crate::proofs::ReadingLemmas::choice_wide, crate::proofs::ReadingLemmas::choice_once, crate::proofs::ReadingLemmas::are_by))]
fn lists_in(
    alloc: Global,
    net: &Netlist,
    choice: Choice,
    runs: &Runs,
    count: usize,
) -> Result<Vec<MomentCount>, NoMemory>
    requires inputs { runs.now.width ≡ length (circuit net.now).inputs }
    requires read { Some choice ≡ mixed_choice net.now.raw count }
    ensures { IfOk result (λ lists. AreBy (circuit net.now) (inputs_of runs.now) (mixed_choice net.now.raw count) lists.items) }
{
    let _count = count;
    let lists = count_lists(alloc, ListPurpose::Numbers, net, &choice, runs)?;
    Ok(lists)
}

/// The lists by a proposal of so many items, and none where it is no signature.
#[tactic(auto, using(crate::proofs::ReadingLemmas::none_by))]
pub(crate) fn lists_by(
    alloc: Global,
    net: &Netlist,
    runs: &Runs,
    count: usize,
) -> Result<Vec<MomentCount>, NoMemory>
    requires inputs { runs.now.width ≡ length (circuit net.now).inputs }
    requires some { 0 < count }
    ensures { IfOk result (λ lists. AreBy (circuit net.now) (inputs_of runs.now) (mixed_choice net.now.raw count) lists.items) }
{
    match read_mixed(alloc, net, count)? {
        Some(choice) => lists_in(alloc, net, choice, runs, count),
        None => Ok(Vec::new(alloc)),
    }
}
