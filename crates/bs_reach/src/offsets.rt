//! Where the ids and variables of a log go.

/// Where ids and variables go. The ids of the clauses of a list are counted from 1.
#[derive(Clone, Copy)]
pub struct Shift {
    /// Variables up to this one stay.
    pub vars: u32,
    /// Those above it go so far up.
    pub vars_by: u32,
    /// Ids up to this one stay.
    pub front: u64,
    /// Those above it, up to `listed`, go so far up.
    pub front_by: u64,
    /// The number of clauses of the list.
    pub listed: u64,
    /// The ids that a log gives go so far up.
    pub listed_by: u64,
}
