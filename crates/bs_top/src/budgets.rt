//! The moment whose dump `demo` traces back, and the budgets within which it does.

/// The run, from 1.
pub const DEMO_RUN: u64 = 1;

/// The cycle, from 0: the last of the run.
pub const DEMO_CYCLE: u64 = 256;

/// The most steps.
pub const DEMO_STEPS: u64 = 64;

/// The most candidates of a step.
pub const DEMO_CANDIDATES: u64 = 64;

/// The most lemmas of a solve.
pub const DEMO_CONFLICTS: u64 = 10_000;
