//! What accounts are made by.

use crate::drivers::Drivers;
use bs_inspect_holds::TraceScene;
use std::alloc::Global;

/// What accounts are made by: a trace, with where its cones end, and what drives its nets.
#[derive(Clone, Copy)]
pub(crate) struct Basis<'a> {
    pub(crate) alloc: Global,
    pub(crate) scene: &'a TraceScene<'a>,
    pub(crate) drivers: &'a Drivers,
    /// Whether a layer asks for each cause.
    pub(crate) all: bool,
}
