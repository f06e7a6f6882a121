//! What is told of a netlist, of recorded runs and of a simulation, as a reply.
ghost use Rattle.std.specs.Prelude.{◌≡◌, map, IfOk, ◌<◌, length};
ghost use Rattle.bs_inspect_plans.specs.Finishes.{finishes, check_status};
ghost use Rattle.bs_inspect_plans.specs.Work.{to_runs, to_check, to_dump, to_flops, to_inputs, to_keys, to_near, to_novel, to_seen, to_signature, to_state, to_stats};
ghost use Rattle.bs_inspect_values.specs.Simulated.{simulated_in};
ghost use Rattle.bs_stim.specs.Runs.{inputs_of};
ghost use Rattle.bs_scan.specs.Moments.{IsMoment};
ghost use Rattle.bs_inspect_near.specs.Novel.{TellsNovel};
ghost use Rattle.bs_inspect_near.specs.Tells.{TellsNear};
ghost use Rattle.bs_inspect_plans.specs.Taken.{near_files_in};
ghost use Rattle.bs_inspect_files.specs.Taken.{one_run_in, run_files_in};
ghost use Rattle.bs_inspect_files.specs.Checked.{checked_in};
ghost use Rattle.bs_inspect_values.specs.Dumped.{dumped_in};
ghost use Rattle.bs_inspect_files.specs.FlopFiles.{scanned_in};
ghost use Rattle.bs_inspect_netlist.specs.Dumped.{dump_lines};
ghost use Rattle.bs_inspect_netlist.specs.Order.{state_line};
ghost use Rattle.bs_net.specs.Netlist.{circuit};
ghost use Rattle.bs_inspect_seen.specs.State.{state_line as seen_line};
ghost use Rattle.bs_inspect_seen.specs.Taken.{named_in};

use bs_inspect_check::{Comparison, all_agree, check_text};
use bs_inspect_files::{Checked, OneRun, RunFiles, Scanned};
use bs_inspect_names::keys_text;
use bs_inspect_near::{near_text, novel_text};
use bs_inspect_netlist::{flops_text, inputs_text, last_dump, last_state, state_text, stats_text};
use bs_inspect_plans::NearFiles;
use bs_inspect_seen::{Named, state_text as seen_text};
use bs_inspect_signature::signature_text;
use bs_inspect_values::{Dumped, Simulated, runs_text};
use bs_net::Netlist;
use bs_outside::{NoMemory, Reply, Status};
use bs_scan::{Moment, Seen};
use std::alloc::Global;

/// The flip-flops of a netlist.
pub fn tell_flops(alloc: Global, net: &Netlist) -> Result<Reply, NoMemory>
    ensures { IfOk result (λ answer. finishes (to_flops net.now.raw) answer.status answer.text.items) }
{
    let text = flops_text(alloc, net)?;
    Ok(Reply {
        status: Status::Done,
        text,
    })
}

/// The data inputs of a netlist.
pub fn tell_inputs(alloc: Global, net: &Netlist) -> Result<Reply, NoMemory>
    ensures { IfOk result (λ answer. finishes (to_inputs net.now.raw) answer.status answer.text.items) }
{
    let text = inputs_text(alloc, net)?;
    Ok(Reply {
        status: Status::Done,
        text,
    })
}

/// The sizes of a netlist.
pub fn tell_stats(alloc: Global, net: &Netlist) -> Result<Reply, NoMemory>
    ensures { IfOk result (λ answer. finishes (to_stats net.now.raw) answer.status answer.text.items) }
{
    let text = stats_text(alloc, net)?;
    Ok(Reply {
        status: Status::Done,
        text,
    })
}

/// The keys of the flip-flops that names stand for.
pub fn tell_keys(alloc: Global, net: &Netlist, names: &[&str]) -> Result<Reply, NoMemory>
    ensures { IfOk result (λ answer. finishes (to_keys (map (λ s. s.now) names.now) net.now.raw) answer.status answer.text.items) }
{
    let text = keys_text(alloc, net, names)?;
    Ok(Reply {
        status: Status::Done,
        text,
    })
}

/// The line of what names with values show of a state.
fn seen_line(alloc: Global, named: &Named<'_>) -> Result<Vec<u8>, NoMemory>
    ensures { IfOk result (λ text. text.items ≡ seen_line (named_in named.now).raw (named_in named.now).givens) }
{
    let text = seen_text(alloc, &named.net, named.givens.as_slice())?;
    Ok(text)
}

/// What names with values show of a state.
pub fn tell_seen(alloc: Global, named: &Named<'_>) -> Result<Reply, NoMemory>
    ensures { IfOk result (λ answer. finishes (to_seen (named_in named.now)) answer.status answer.text.items) }
{
    let text = seen_line(alloc, named)?;
    Ok(Reply {
        status: Status::Done,
        text,
    })
}

/// The state that a pattern of a scan chain is, so many flip-flops wide.
fn state_line(alloc: Global, scanned: &Scanned, width: usize) -> Result<Vec<u8>, NoMemory>
    ensures { IfOk result (λ text. text.items ≡ state_line width scanned.now.order.items scanned.now.pattern) }
{
    let text = state_text(alloc, width, scanned.order.as_slice(), &scanned.pattern)?;
    Ok(text)
}

/// The state that a pattern of a scan chain is.
pub fn tell_state(alloc: Global, scanned: &Scanned) -> Result<Reply, NoMemory>
    ensures { IfOk result (λ answer. finishes (to_state (scanned_in scanned.now)) answer.status answer.text.items) }
{
    let text = state_line(alloc, scanned, scanned.net.width())?;
    Ok(Reply {
        status: Status::Done,
        text,
    })
}

/// Simulated runs.
pub fn tell_runs(alloc: Global, _clock: &str, simulated: &Simulated) -> Result<Reply, NoMemory>
    ensures { IfOk result (λ answer. finishes (to_runs _clock.now (simulated_in simulated.now)) answer.status answer.text.items) }
{
    let text = runs_text(alloc, simulated.sampled.runs.as_slice())?;
    Ok(Reply {
        status: Status::Done,
        text,
    })
}

/// The state of a dump alone, or with a signature the whole dump.
fn dump_lines(alloc: Global, dumped: &Dumped) -> Result<Vec<u8>, NoMemory>
    ensures { IfOk result (λ text. text.items ≡ dump_lines (dumped_in dumped.now).choice (dumped_in dumped.now).taken.states (dumped_in dumped.now).taken.marks) }
{
    match dumped {
        Dumped::Plain(plain) => last_state(alloc, &plain.taken.states, &plain.taken.marks),
        Dumped::Whole(whole) => last_dump(
            alloc,
            &whole.choice,
            &whole.taken.states,
            &whole.taken.marks,
        ),
    }
}

/// The dump of a simulation.
pub fn tell_dump(alloc: Global, dumped: &Dumped) -> Result<Reply, NoMemory>
    ensures { IfOk result (λ answer. finishes (to_dump (dumped_in dumped.now)) answer.status answer.text.items) }
{
    let text = dump_lines(alloc, dumped)?;
    Ok(Reply {
        status: Status::Done,
        text,
    })
}

/// The status of runs beside their VCDs.
fn check_status(comparisons: &[Comparison]) -> Status
    ensures { result ≡ check_status comparisons.now }
{
    if all_agree(comparisons) {
        Status::Done
    } else {
        Status::Rejected
    }
}

/// Recorded runs beside a simulation.
pub fn tell_check(alloc: Global, checked: &Checked) -> Result<Reply, NoMemory>
    ensures { IfOk result (λ answer. finishes (to_check (checked_in checked.now)) answer.status answer.text.items) }
{
    let comparisons = checked.comparisons.as_slice();
    let text = check_text(alloc, &checked.run_files.net, comparisons)?;
    Ok(Reply {
        status: check_status(comparisons),
        text,
    })
}

/// A signature of so many items that recorded runs propose, and the lists that it leads to.
pub fn tell_signature(alloc: Global, run_files: &RunFiles, items: u64) -> Result<Reply, NoMemory>
    requires { 0 < items }
    ensures { IfOk result (λ answer. finishes (to_signature items (run_files_in run_files.now)) answer.status answer.text.items) }
{
    let text = signature_text(alloc, &run_files.net, &run_files.runs, items as usize)?;
    Ok(Reply {
        status: Status::Done,
        text,
    })
}

/// The text of the values that the run of a moment alone has.
#[tactic(auto, using(crate::proofs::NetlistLemmas::run_first, crate::proofs::NetlistLemmas::run_there))]
fn novel_lines(
    alloc: Global,
    run_files: &RunFiles,
    moment: Moment,
    most: u64,
) -> Result<Vec<u8>, NoMemory>
    requires { IsMoment (inputs_of run_files.now.runs) moment }
    ensures { IfOk result (λ text. TellsNovel run_files.now.net.raw run_files.now.runs moment.run most text.items) }
{
    let text = novel_text(alloc, &run_files.net, &run_files.runs, moment.run, most)?;
    Ok(text)
}

/// The values that a run alone has, in so many lines at most.
pub fn tell_novel(alloc: Global, one_run: &OneRun, most: u64) -> Result<Reply, NoMemory>
    ensures { IfOk result (λ answer. finishes (to_novel most (one_run_in one_run.now)) answer.status answer.text.items) }
{
    let text = novel_lines(alloc, &one_run.run_files, one_run.moment, most)?;
    Ok(Reply {
        status: Status::Done,
        text,
    })
}

/// The text of what is near to what is seen of a state.
fn near_lines(alloc: Global, run_files: &RunFiles, seen: &Seen) -> Result<Vec<u8>, NoMemory>
    requires { length seen.now.bits ≡ length (circuit run_files.now.net).flops }
    ensures { IfOk result (λ text. TellsNear run_files.now.net.raw (inputs_of run_files.now.runs) seen.now text.items) }
{
    let text = near_text(alloc, &run_files.net, &run_files.runs, seen)?;
    Ok(text)
}

/// What is near to the state of a dump.
pub fn tell_near(alloc: Global, near_files: &NearFiles) -> Result<Reply, NoMemory>
    ensures { IfOk result (λ answer. finishes (to_near (near_files_in near_files.now)) answer.status answer.text.items) }
{
    let text = near_lines(alloc, &near_files.run_files, &near_files.seen)?;
    Ok(Reply {
        status: Status::Done,
        text,
    })
}
