//! The greatest sizes of a design.

/// How many instance names a path may have.
/// A limit of the format (docs/FORMATS.md, "Several modules"). It bounds the walk down the instances.
pub const MAX_DEPTH: u32 = 256;

/// How many paths have a number.
/// So a path's number has four bytes.
pub const MAX_PATHS: usize = 4_294_967_295;

/// How many nets the own texts of all modules may have together. Each module that is a part of the design has as many at least
/// as it adds to the flat nets, and its ports.
/// A text of 16 MiB could declare some 10^10 names: so a limit of the format is needed.
pub const MAX_OWN_NETS: u32 = 4_194_304;

/// How many gates, flip-flops and instances the flat parts may have together.
/// Gates and flip-flops that drive 100,000 nets are at most 100,000. The rest is for instances.
pub const MAX_PARTS: usize = 400_000;

/// How many inputs of gates, constants and ports of the top there may be together, on all paths. A netlist that passes the check
/// has not a tenth of so many.
pub const MAX_TERMINALS: usize = 268_435_456;

/// How many bytes the keys of all flat nets may have together.
/// A key has the names of a whole path: 100,000 of the longest would take gigabytes.
pub const MAX_KEY_BYTES: usize = 268_435_456;
