//! The greatest sizes of a stimulus (docs/FORMATS.md, "Stimulus").

/// How many bytes a text may have.
/// A limit of the format: `run` holds the runs in memory.
pub const MAX_TEXT: usize = 67_108_864;

/// How many runs there may be.
/// As many as the lanes that are simulated at once: four words of bits.
pub const MAX_RUNS: u32 = 256;

/// How many cycles a run may have.
/// A limit of the format (docs/FORMATS.md, "Stimulus").
pub const MAX_CYCLES: u32 = 65_536;

/// How many bytes the name of a run may have.
/// A limit of the format.
pub const MAX_NAME: usize = 64;
