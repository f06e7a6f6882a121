//! How far clauses are unrolled.

/// The cycles that are asked for are at most so many.
/// A limit of the format (docs/FORMATS.md, "Unrolled clauses").
pub const MAX_FRAMES: u32 = 1_024;

/// The variables of all time frames together are at most so many.
/// A limit of the format: it bounds the memory of a search, and keeps variables below 2^30.
pub const MAX_FRAME_VARIABLES: u32 = 4_194_304;
