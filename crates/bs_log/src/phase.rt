//! Where a log stands between two lines.

/// Where a log stands between two lines.
#[derive(Clone, Copy, PartialEq, Eq)]
pub enum Phase {
    /// No step is under way, and none has just ended.
    BetweenSteps,
    /// Behind a solve line and its lemmas.
    InSolve,
    /// Behind a block line.
    AfterBlock,
    /// Behind a finish line.
    AfterFinish,
    /// Behind a retire line, where a delete line may follow.
    AfterRetire,
}
