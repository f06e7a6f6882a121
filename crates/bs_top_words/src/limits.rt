//! The version of the programs, the greatest budgets of a run and of a search for a state, and the budgets that are taken where none is given (docs/FORMATS.md,
//! "Command words").

/// The version of both programs.
pub const VERSION: u64 = 1;

/// How many steps a run may make.
/// As many as a report may have.
pub const MAX_STEPS: u64 = 65_536;

/// How many candidates a list may have.
/// As many as a report may have.
pub const MAX_CANDIDATES: u64 = 65_536;

/// How many lemmas a list, or a length of a search, may take.
/// As many as a report may have.
pub const MAX_CONFLICTS: u64 = 1_099_511_627_776;

/// How many cycles a search for a state may be asked for.
/// As many as there may be time frames (`MAX_FRAMES` of bs_reach_unrolled).
pub const MAX_BOUND: u64 = 1_024;

/// The steps of a run that names none.
/// A first look takes seconds then, also at thousands of flip-flops.
pub const DEFAULT_STEPS: u64 = 64;

/// The candidates of a run that names none.
/// A signature that leaves longer lists is too small: more parities help better.
pub const DEFAULT_CANDIDATES: u64 = 256;

/// The lemmas of a run or search that names none.
/// So a first look at a hard list ends.
pub const DEFAULT_CONFLICTS: u64 = 100_000;

/// The most items of a signature.
/// As many as a signature may have (`MAX_ITEMS` of bs_scan).
pub const MAX_BITS: u64 = 256;
