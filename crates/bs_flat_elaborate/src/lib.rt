//! The flat netlist of a design of blocks: all its parts, or the first limit that it passes, or a key that stands twice.
//!
//! Modules: `sizes` (the limits that modules tell) with `depth`, `labels` and `path_keys` (a path's text,
//! a net's key), `naming`, `clashes` (a key that stands twice), `terminals` (how many inputs of
//! gates, constants and ports there are), `nets`, `gates`, `flops`, `consts`, `ports`, `flat` (the
//! parts), `elaboration` (`elaborate`). Used above: `elaborate` answers exactly `elaborated` of the
//! design: its first limit, its first clash, or all its parts.
#![tactic(auto)]

mod clashes;
mod consts;
mod depth;
mod elaboration;
mod flat;
mod flops;
mod gates;
mod labels;
mod naming;
mod nets;
mod path_keys;
mod ports;
mod sizes;
mod terminals;

pub use elaboration::elaborate;
