//! What a search misses, as far as a note needs it.

/// What the answer of a search says where it has no execution.
#[derive(Clone, Copy)]
pub enum Miss {
    /// The state is not reached within the cycles that were asked for.
    Unreached,
    /// The budget of lemmas is spent.
    Unknown,
}
