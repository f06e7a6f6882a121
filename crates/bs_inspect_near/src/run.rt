//! A recorded run, and what 64 lanes show at a cycle.

use bs_net::Netlist;
use bs_stim::Runs;
use std::alloc::Global;

/// The run with a number among recorded ones, from 1.
#[derive(Clone, Copy)]
pub(crate) struct ChosenRun<'a> {
    pub(crate) alloc: Global,
    pub(crate) net: &'a Netlist,
    pub(crate) runs: &'a Runs,
    pub(crate) number: u32,
}

/// What 64 lanes show at a cycle, from that of a run on: a word for each flip-flop, and a mask of the lanes that are looked at.
#[derive(Clone, Copy)]
pub(crate) struct Column<'a> {
    pub(crate) words: &'a [u64],
    pub(crate) mask: u64,
    pub(crate) first: u32,
    pub(crate) cycle: u32,
}
