//! The numbers that stand for themselves.

/// The greatest bound of a range, and the greatest index.
/// A limit of the format (docs/FORMATS.md, "Declarations and terms").
pub const MAX_INDEX: u32 = 65_535;

/// The least number above it: what such numbers are seen from.
pub const GREAT: u32 = 65_536;
