//! The reasons for which a line of a log is refused.

/// Why a line of a log is refused (docs/FORMATS.md, "The log"). The reasons are tried in the order of the words `Order`,
/// `NoClause`, `Duplicate`, `BadBlock`, `NotUnit`, `NotFalse`, `BadEnd`.
#[derive(Clone, Copy, PartialEq, Eq)]
pub enum Why {
    /// The line does not stand where it may, does not give the next id, or lists ids that do not ascend; or the log ends
    /// before its last step does.
    Order,
    /// An id names no clause that stands, or none that the line may name.
    NoClause,
    /// A variable stands in the clause twice.
    Duplicate,
    /// A hint before the last has not exactly one unassigned literal with all others false.
    NotUnit,
    /// The last hint has a literal that is not false.
    NotFalse,
    /// The block does not begin with its step's negated activation literal, or has a variable above the clauses' own behind it.
    BadBlock,
    /// The lemma holds a literal that is no negation of one of its step's assumptions.
    BadEnd,
}
