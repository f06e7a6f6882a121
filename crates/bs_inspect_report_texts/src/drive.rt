//! The inputs that a test bench drives.
ghost use Rattle.std.specs.Prelude.{◌≡◌, ◌<◌, ◌≤◌, ◌++◌, [], length, take, slice_index_or, IfOk, OnOk};
ghost use Rattle.bs_stim.specs.Runs.{inputs_of, run_at};
ghost use Rattle.bs_scan.specs.Moments.{IsMoment, run_of};
ghost use Rattle.bs_inspect_report_texts.specs.Driven.{IsThere, begin_of, driven, driven_from};

use bs_bits::{Bits, List, NoMemory};
use bs_report::Report;
use bs_scan::Moment;
use bs_stim::Runs;
use std::alloc::Global;

/// As many zeros.
fn zeros(alloc: Global, count: usize) -> Result<Bits, NoMemory>
    ensures { IfOk result (λ bits. length bits ≡ count) }
{
    let mut bits = Bits::new(alloc);
    'zeros: for _ in 0..count {
        bits.push(false)?;
    }
    Ok(bits)
}

/// The input of a cycle of a run.
fn recorded(alloc: Global, runs: &Runs, number: u32, cycle: u32) -> Result<Bits, NoMemory>
    requires from_one { 1 ≤ number }
    requires there { number ≤ length runs.now.runs }
    requires lasts { cycle < length (run_at runs.now number).inputs }
    ensures { IfOk result (λ input. input ≡ slice_index_or (run_at runs.now number).inputs cycle []) }
{
    let mut input = zeros(alloc, runs.width())?;
    runs.fill(number, cycle, &mut input);
    Ok(input)
}

/// Appends the inputs of a run up to a moment.
#[tactic(auto, using(crate::proofs::DriveLemmas::run_there, crate::proofs::DriveLemmas::cycle_there, crate::proofs::DriveLemmas::recorded_more, crate::proofs::DriveLemmas::recorded_none))]
fn push_recorded(
    alloc: Global,
    runs: &Runs,
    m: Moment,
    into: &mut List<Bits>,
) -> Result<(), NoMemory>
    requires { IsMoment (inputs_of runs.now) m }
    ensures { OnOk result (into.new ≡ into.old ++ take m.cycle (run_of (inputs_of runs.now) m.run)) }
{
    'cycles: for cycle in 0..m.cycle {
        let input = recorded(alloc, runs, m.run, cycle)?;
        into.push(input)?;
    }
    Ok(())
}

/// Appends copies of inputs.
#[tactic(auto, using(crate::proofs::DriveLemmas::copies_more, crate::proofs::DriveLemmas::copies_all))]
fn push_copies(inputs: &List<Bits>, into: &mut List<Bits>) -> Result<(), NoMemory>
    ensures { OnOk result (into.new ≡ into.old ++ inputs.now) }
{
    'inputs: for i in 0..inputs.len() {
        let input = inputs.get(i).copy()?;
        into.push(input)?;
    }
    Ok(())
}

/// Appends the inputs of the run that was hit, where one was, and then those of the trace.
#[tactic(auto, using(crate::proofs::DriveLemmas::driven_appended))]
fn push_driven(
    alloc: Global,
    runs: &Runs,
    inputs: &List<Bits>,
    begin: Option<Moment>,
    into: &mut List<Bits>,
) -> Result<(), NoMemory>
    requires { IsThere (inputs_of runs.now) begin }
    ensures { OnOk result (into.new ≡ into.old ++ driven_from (inputs_of runs.now) inputs.now begin) }
{
    match begin {
        Some(m) => {
            push_recorded(alloc, runs, m, into)?;
            push_copies(inputs, into)
        }
        None => push_copies(inputs, into),
    }
}

/// The inputs that a test bench drives, cycle by cycle from reset. It takes a byte for each bit.
pub(crate) fn driven(
    alloc: Global,
    runs: &Runs,
    report: &Report,
    begin: Option<Moment>,
) -> Result<List<Bits>, NoMemory>
    requires there { IsThere (inputs_of runs.now) begin }
    requires begin { begin ≡ begin_of report.now }
    ensures { IfOk result (λ inputs. inputs ≡ driven (inputs_of runs.now) report.now) }
{
    let mut inputs = List::new(alloc);
    match push_driven(alloc, runs, &report.inputs, begin, &mut inputs) {
        Ok(()) => Ok(inputs),
        Err(refused) => {
            drop(inputs);
            Err(refused)
        }
    }
}
