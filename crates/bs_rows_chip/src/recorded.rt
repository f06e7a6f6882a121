//! Three flip-flops in a row, and runs that shift ones through them.
use crate::netlists::netlist;
use bs_bits::{NoMemory, push_line, push_number_line};
use bs_net::Netlist;
use bs_scan::Choice;
use bs_stim::{MAX_TEXT, Runs};
use std::alloc::Global;

const SHIFT: &str = "module s(ck,a); input ck,a;
dff f0(ck,q0,a); dff f1(ck,q1,q0); dff f2(ck,q2,q1);
endmodule
";

/// A run of so many cycles, whose input is 1 in one of them, counted from 0, or in none where it has fewer.
pub type Pulse = (u32, u32);

/// The netlist of three flip-flops in a row.
pub fn shift_register(alloc: Global) -> Option<Netlist> {
    netlist(alloc, SHIFT.as_bytes())
}

/// The signature of no items.
pub fn choice(alloc: Global, net: &Netlist) -> Option<Choice> {
    Choice::read(alloc, "".as_bytes(), net).ok()
}

/// The runs of a short text with one data input, if they are read.
pub fn runs(alloc: Global, text: &[u8]) -> Option<Runs> {
    if text.len() > MAX_TEXT {
        return None;
    }
    bs_stim::read(alloc, text, 1).ok()
}

/// Appends the text of a run.
fn push_run(text: &mut Vec<u8>, (cycles, one): Pulse) -> Result<(), NoMemory> {
    push_number_line(text, "run r ".as_bytes(), u64::from(cycles))?;
    for cycle in 0..cycles {
        let bit = if cycle == one { "1" } else { "0" };
        push_line(text, bit.as_bytes())?;
    }
    push_line(text, "end".as_bytes())
}

/// The text of so many runs: equal ones, and a last one of its own.
pub fn stimulus(alloc: Global, count: u32, each: Pulse, last: Pulse) -> Result<Vec<u8>, NoMemory> {
    let mut text = Vec::new(alloc);
    for _ in 1..count {
        push_run(&mut text, each)?;
    }
    push_run(&mut text, last)?;
    Ok(text)
}
