//! A run beside the text of its VCD, or the diagnostic of that text.
ghost use Rattle.std.specs.Prelude.{◌≡◌, ◌<◌, ◌≤◌, ◌^◌, length, map, option_map};
ghost use Rattle.bs_bits.specs.Reading.{Answers};
ghost use Rattle.bs_net.specs.Netlist.{circuit};
ghost use Rattle.bs_vcd_header.specs.declared.fault.VcdFault.TheVariants.{NoMemory as Want};
ghost use Rattle.bs_inspect_check.specs.Comparison.{compared_in};
ghost use Rattle.bs_outside.specs.declared.limits.TheConstants.{MAX_VCD_BYTES};
ghost use Rattle.bs_outside.specs.Diagnostic.{noted, worded};
ghost use Rattle.bs_outside.specs.Walks.{Reads};
ghost use Rattle.bs_top_files.specs.Causes.{CheckSays, NoteSays};
ghost use Rattle.bs_inspect_files.specs.VcdReadings.{compared_read};

use bs_inspect_check::{Comparison, RunOf, compare};
use bs_inspect_notes::Subject;
use bs_inspect_values::{Sampling, maybe_bytes, vcd_diagnostic};
use bs_outside::Unread;
use bs_vcd_header::VcdFault;
use std::alloc::Global;

/// A run beside the text of its VCD.
fn compared(
    alloc: Global,
    run: RunOf<'_>,
    text: &[u8],
    names: &[&[u8]],
    sampling: Sampling<'_>,
) -> Result<Comparison, VcdFault>
    requires inputs { run.runs.now.width ≡ length (circuit run.net.now).inputs }
    requires from_one { 1 ≤ run.number }
    requires there { run.number ≤ length run.runs.now.runs }
    requires short { length text.now ≤ MAX_VCD_BYTES }
    requires flops { length names.now < 2 ^ 32 }
    ensures { Answers Want (λ m. m) result (compared_in run.entry.net.now.raw run.entry.runs.now run.entry.number sampling.entry.vcd.now text.now (option_map (λ s. s.now) sampling.entry.scope) sampling.entry.clock.now (map (λ n. n.now) names.now)) }
{
    let scope = maybe_bytes(sampling.scope);
    let clock = sampling.clock.as_bytes();
    let file = sampling.vcd.as_bytes();
    compare(alloc, run, file, text, scope, clock, names)
}

/// A run beside the text of its VCD, by the names of the flip-flops, which have these keys in the netlist; or the diagnostic of that text.
pub(crate) fn compared_or_diagnostic(
    alloc: Global,
    run: RunOf<'_>,
    text: &[u8],
    keys: &[&[u8]],
    names: &[&[u8]],
    sampling: Sampling<'_>,
) -> Result<Comparison, Unread>
    requires inputs { run.runs.now.width ≡ length (circuit run.net.now).inputs }
    requires from_one { 1 ≤ run.number }
    requires there { run.number ≤ length run.runs.now.runs }
    requires short { length text.now ≤ MAX_VCD_BYTES }
    requires flops { length names.now < 2 ^ 32 }
    ensures words { Reads CheckSays (λ m. m) (compared_read run.entry.net.now.raw run.entry.runs.now run.entry.number sampling.entry.vcd.now (map (λ k. k.now) keys.now) (map (λ n. n.now) names.now) (option_map (λ s. s.now) sampling.entry.scope) sampling.entry.clock.now text.now) (worded result) }
    ensures note { Reads NoteSays (λ m. m) (compared_read run.entry.net.now.raw run.entry.runs.now run.entry.number sampling.entry.vcd.now (map (λ k. k.now) keys.now) (map (λ n. n.now) names.now) (option_map (λ s. s.now) sampling.entry.scope) sampling.entry.clock.now text.now) (noted result) }
{
    match compared(alloc, run, text, names, sampling) {
        Ok(comparison) => Ok(comparison),
        Err(fault) => Err(vcd_diagnostic(
            alloc,
            Subject::Flops,
            text,
            keys,
            names,
            sampling,
            fault,
        )),
    }
}
