//! The greatest sizes of a netlist (docs/DEFINITIONS.md, "Limits").

/// How many nets there may be.
/// With `MAX_TERMINALS` and the limits of a signature it keeps the variables of an encoding below 2^30.
pub const MAX_NETS: u32 = 100_000;

/// How many flip-flops there may be.
/// A limit of the format (docs/FORMATS.md, "The check"): it bounds a line of bits, and each candidate.
pub const MAX_FLOPS: usize = 4_096;

/// How many input port bits there may be, the clock counted.
/// A limit of the format: it bounds a line of bits.
pub const MAX_INPUTS: usize = 4_096;

/// How many inputs a gate may have.
/// A limit of the format: it bounds the helpers that a xor gate takes among the clauses.
pub const MAX_TERMINALS: usize = 64;
