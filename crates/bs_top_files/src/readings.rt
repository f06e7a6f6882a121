//! What a signature is taken of, and the two tests that follow the reading of files.
ghost use Rattle.std.specs.Prelude.{◌≡◌, ◌≤◌, length};
ghost use Rattle.std.specs.Bool.{OnTrue};
ghost use Rattle.bs_bits.specs.Lines.{lines_of};
ghost use Rattle.bs_bits.specs.Reading.{Answers};
ghost use Rattle.bs_outside.specs.declared.limits.TheConstants.{MAX_SIGNATURE_BYTES};
ghost use Rattle.bs_stim.specs.declared.limits.TheConstants.{MAX_CYCLES, MAX_RUNS};
ghost use Rattle.bs_stim.specs.Runs.{run_at};
ghost use Rattle.bs_top_files.specs.Readings.{choice_in, has_moment, is_drawable, is_known};

use crate::limits::MAX_WAVE_VALUES;
use bs_net::Netlist;
use bs_report::Report;
use bs_scan::{Choice, ChoiceFault};
use bs_stim::Runs;
use std::alloc::Global;

/// What a signature is taken of.
pub fn read_choice(alloc: Global, bytes: &[u8], net: &Netlist) -> Result<Choice, ChoiceFault>
    requires { length bytes.now ≤ MAX_SIGNATURE_BYTES }
    ensures { Answers ChoiceFault.NoMemory (λ choice. choice) result (choice_in net.now.raw (lines_of bytes.now)) }
{
    Choice::read(alloc, bytes, net)
}

/// Whether the runs have a moment.
pub fn has_moment(runs: &Runs, run: u64, cycle: u64) -> bool
    ensures is { result ≡ has_moment runs.now run cycle }
    ensures run { OnTrue result (run ≤ MAX_RUNS) }
    ensures cycle { OnTrue result (cycle ≤ MAX_CYCLES) }
    ensures from_one { OnTrue result (1 ≤ run) }
    ensures recorded { OnTrue result (run ≤ length runs.now.runs) }
    ensures lasts { OnTrue result (cycle ≤ length (run_at runs.now run).inputs) }
{
    if run < 1 || run > u64::from(runs.count()) {
        return false;
    }
    cycle <= u64::from(runs.cycles(run as u32))
}

/// Whether all is known of the trace's last state.
pub fn is_known(report: &Report) -> bool
    ensures { result ≡ is_known report.now }
{
    report.free.len() == 0
}

/// Whether a waveform of the report's trace has few enough values.
pub fn is_drawable(net: &Netlist, report: &Report) -> bool
    ensures { result ≡ is_drawable net.now.raw report.now }
{
    let nets = u64::from(net.raw().names.len());
    match nets.checked_mul(report.states.len() as u64) {
        Some(values) => values <= MAX_WAVE_VALUES,
        None => false,
    }
}
