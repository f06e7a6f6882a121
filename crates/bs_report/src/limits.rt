//! The limits of what may be asked of a backtrace, and of a report's text (docs/FORMATS.md, "Report").

/// So many steps may be asked for.
/// A limit of the format (docs/FORMATS.md, "Command words").
pub const MAX_STEPS: u64 = 65_536;

/// So many candidates of a step may be asked for.
/// A limit of the format.
pub const MAX_CANDIDATES: u64 = 65_536;

/// So many lemmas of a solve may be asked for, 2^40.
/// A limit of the format, to which no search comes.
pub const MAX_CONFLICTS: u64 = 1_099_511_627_776;

/// The bytes of a report's text, 512 MiB.
/// A limit of the format: `audit` holds a report in memory as a whole.
pub const MAX_REPORT_BYTES: usize = 536_870_912;
