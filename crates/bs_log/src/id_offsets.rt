//! Where ids go.

/// Where the parts of a step's clauses stand.
#[derive(Clone, Copy)]
pub struct Frame {
    /// The clauses up to this id keep it.
    pub front: u64,
    /// The ids that the log gives go so far up.
    pub by: u64,
    /// The step's blocks stand behind this id.
    pub own: u64,
    /// The clauses that turn other steps off stand behind this id.
    pub closed: u64,
    /// The step.
    pub step: u64,
}
