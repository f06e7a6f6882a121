//! What is asked of a trace.

use bs_net::NetId;
use bs_report::Report;
use std::alloc::Global;

/// A name, a moment of the trace or the last one, how many layers of accounts from 1, whether cones end at flip-flops and inputs alone, and
/// whether all is told, and as a table.
#[derive(Clone, Copy)]
pub struct Question<'a> {
    pub name: &'a str,
    pub at: Option<u64>,
    pub depth: u32,
    pub flops: bool,
    pub all: bool,
    pub csv: bool,
}

/// What is asked of a report: a question, its moment, and the nets with its name that are driven and no data inputs.
#[derive(Clone, Copy)]
pub(crate) struct AskedNets<'a> {
    pub(crate) alloc: Global,
    pub(crate) report: &'a Report,
    pub(crate) question: &'a Question<'a>,
    pub(crate) at: u32,
    pub(crate) nets: &'a [NetId],
}
