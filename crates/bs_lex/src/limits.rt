//! The greatest size of a text.

/// How many bytes a netlist text may have (docs/FORMATS.md, "Netlists").
/// It is held in memory, and a place in it has four bytes.
pub const MAX_BYTES: usize = 16_777_216;
