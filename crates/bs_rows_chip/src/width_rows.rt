//! One run among as many as the planes hold.
ghost use Rattle.std.specs.Prelude.{◌≡◌, ◌≤◌, ◌*◌, length, IsTrue, IfOk};
ghost use Rattle.bs_lanes.specs.Lanes.{is_wide};

use crate::netlists::netlist;
use bs_bits::NoMemory;
use bs_lanes::{Lanes, Planes};
use bs_net::Netlist;
use std::alloc::Global;
use std::test::Fail;

const S27: &str = "module s27(GND,VDD,CK,G0,G1,G17,G2,G3);
input GND,VDD,CK,G0,G1,G2,G3;
output G17;
wire G5,G10,G6,G11,G7,G13,G14,G8,G15,G12,G16,G9;
dff DFF_0(CK,G5,G10);
dff DFF_1(CK,G6,G11);
dff DFF_2(CK,G7,G13);
not NOT_0(G14,G0);
not NOT_1(G17,G11);
and AND2_0(G8,G14,G6);
or OR2_0(G15,G12,G8);
or OR2_1(G16,G3,G8);
nand NAND2_0(G9,G16,G15);
nor NOR2_0(G10,G14,G11);
nor NOR2_1(G11,G5,G9);
nor NOR2_2(G12,G1,G7);
nor NOR2_3(G13,G2,G12);
endmodule
";

/// Planes of six inputs: 011001 in one run, and zeros in the others.
fn one_input(alloc: Global, wide: usize, run: u32) -> Result<Planes, NoMemory>
    requires wide { IsTrue (is_wide wide) }
    requires from_one { 1 ≤ run }
    requires lane { run ≤ 64 * wide }
    ensures { IfOk result (λ p. length p.words ≡ 6 * wide) }
{
    let mut inputs = Planes::new(alloc, 6, wide)?;
    inputs.set(1, run, true);
    inputs.set(2, run, true);
    inputs.set(5, run, true);
    Ok(inputs)
}

/// Whether a run is in the state 010 and all others up to a count are in the state 000.
fn is_alone(alloc: Global, lanes: &Lanes<'_>, count: u32, run: u32) -> Result<bool, NoMemory>
    requires few { count ≤ 256 }
    requires lanes { count ≤ 64 * lanes.now.wide }
{
    'runs: for other in 1..count + 1 {
        let state = lanes.state_of(alloc, other)?;
        let mut text = Vec::new(alloc);
        state.text(&mut text)?;
        let want = if other == run { "010" } else { "000" };
        if text.as_slice() != want.as_bytes() {
            return Ok(false);
        }
    }
    Ok(true)
}

/// Whether one run of s27 goes to 010 under 011001, and all others to 000 under zeros.
fn is_row(alloc: Global, net: &Netlist, wide: usize, count: u32, run: u32) -> Result<bool, NoMemory>
    requires wide { IsTrue (is_wide wide) }
    requires few { count ≤ 256 }
    requires lanes { count ≤ 64 * wide }
    requires from_one { 1 ≤ run }
    requires lane { run ≤ 64 * wide }
{
    if net.data_inputs().len() != 6 {
        return Ok(false);
    }
    let inputs = one_input(alloc, wide, run)?;
    let mut lanes = Lanes::new(alloc, net, wide)?;
    lanes.step(inputs.words());
    is_alone(alloc, &lanes, count, run)
}

/// The same where the width, the count and the run are in range.
fn is_checked_row(alloc: Global, wide: usize, count: u32, run: u32) -> Result<bool, NoMemory> {
    if wide != 1 && wide != 2 && wide != 4 {
        return Ok(false);
    }
    if count > 256 || run < 1 || run > count || count as usize > 64 * wide {
        return Ok(false);
    }
    match netlist(alloc, S27.as_bytes()) {
        Some(net) => is_row(alloc, &net, wide, count, run),
        None => Ok(false),
    }
}

/// Words of a plane, numbers of runs, and the one among them.
static WIDTHS: [(usize, u32, u32); 8] = [
    (1, 64, 1),
    (1, 64, 63),
    (1, 64, 64),
    (2, 128, 65),
    (2, 128, 128),
    (4, 256, 64),
    (4, 256, 129),
    (4, 256, 256),
];

#[test]
fn one_run_of_many_goes_its_own_way(rt: HostRuntime) -> Result<(), Fail> {
    for (wide, count, run) in &WIDTHS {
        assert!(rt; is_checked_row(rt.alloc(), *wide, *count, *run)?);
    }
    Ok(())
}
