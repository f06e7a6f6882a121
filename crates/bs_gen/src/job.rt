//! The texts of a generated job.
ghost use Rattle.std.specs.Prelude.{◌≡◌, ◌++◌, IfOk, OnOk};
ghost use Rattle.bs_gen.specs.Draws.{after};
ghost use Rattle.bs_gen.specs.Job.{netlist_for, netlist_text, ports_text, signature_text, stimulus_for};
ghost use Rattle.bs_gen.specs.Stimulus.{stimulus_text};

use crate::draws::Draws;
use crate::flops::push_flops;
use crate::gates::{push_counter, push_drawn_gates, push_feeds};
use crate::stimulus::push_runs;
use bs_bits::{List, NoMemory, push_line};
use std::alloc::Global;

/// The texts of a job.
#[derive(Drop)]
pub struct GeneratedJob {
    pub netlist: List<u8>,
    pub signature: List<u8>,
    pub stimulus: List<u8>,
}

/// A text as a list.
fn listed(alloc: Global, text: &[u8]) -> Result<List<u8>, NoMemory>
    ensures { IfOk result (λ list. list ≡ text.now) }
{
    let mut list = List::new(alloc);
    for byte in text {
        list.push(*byte)?;
    }
    Ok(list)
}

/// Appends the head of the module and its ports.
#[tactic(auto, unfolding(crate::specs::Job::ports_text))]
fn push_ports(text: &mut Vec<u8>) -> Result<(), NoMemory>
    ensures { OnOk result (text.new.items ≡ text.old.items ++ ports_text) }
{
    push_line(text, b"module demo(ck,x0,x1,x2,x3,x4);")?;
    push_line(text, b"input ck,x0,x1,x2,x3,x4;")
}

/// Draws a netlist and appends it.
#[tactic(auto, unfolding(crate::specs::Job::netlist_text))]
fn push_netlist(text: &mut Vec<u8>, draws: &mut Draws) -> Result<(), NoMemory>
    ensures text { OnOk result (text.new.items ≡ text.old.items ++ netlist_text draws.old) }
    ensures draws { OnOk result (draws.new ≡ after 1737 draws.old) }
{
    push_ports(text)?;
    push_counter(text)?;
    push_drawn_gates(text, draws)?;
    push_feeds(text)?;
    push_flops(text)?;
    push_line(text, b"endmodule")
}

/// Draws a netlist.
fn netlist(alloc: Global, draws: &mut Draws) -> Result<List<u8>, NoMemory>
    ensures text { IfOk result (λ list. list ≡ netlist_text draws.old) }
    ensures draws { OnOk result (draws.new ≡ after 1737 draws.old) }
{
    let mut text = Vec::with_capacity(alloc, 1 << 14)?;
    push_netlist(&mut text, draws)?;
    listed(alloc, text.as_slice())
}

/// The signature, the same for each number.
fn signature(alloc: Global) -> Result<List<u8>, NoMemory>
    ensures { IfOk result (λ list. list ≡ signature_text) }
{
    listed(alloc, b"bit r4_10\nxor r0_10 r1_10\n")
}

/// Draws a stimulus.
fn stimulus(alloc: Global, draws: &mut Draws) -> Result<List<u8>, NoMemory>
    ensures { IfOk result (λ list. list ≡ stimulus_text draws.old) }
{
    let mut text = Vec::with_capacity(alloc, 1 << 16)?;
    push_runs(&mut text, draws)?;
    listed(alloc, text.as_slice())
}

/// The job with a number.
#[tactic(auto, unfolding(crate::specs::Job::netlist_for, crate::specs::Job::stimulus_for))]
pub fn make(alloc: Global, number: u64) -> Result<GeneratedJob, NoMemory>
    ensures netlist { IfOk result (λ job. job.netlist ≡ netlist_for number) }
    ensures signature { IfOk result (λ job. job.signature ≡ signature_text) }
    ensures stimulus { IfOk result (λ job. job.stimulus ≡ stimulus_for number) }
{
    let mut draws = Draws::new(number);
    let netlist = netlist(alloc, &mut draws)?;
    let signature = signature(alloc)?;
    let stimulus = stimulus(alloc, &mut draws)?;
    Ok(GeneratedJob {
        netlist,
        signature,
        stimulus,
    })
}
