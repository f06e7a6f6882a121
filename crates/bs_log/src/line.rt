//! The lines of a log.
use bs_bits::List;
use bs_clause::Lits;

/// A line of a log (docs/FORMATS.md, "The log"). An id names a clause: the clauses that a search starts from have the ids
/// 1, 2, 3 and so on, and each line that adds a clause gives the next one.
#[derive(Drop)]
pub enum Line {
    /// A solve begins, and with the first one of a step the step.
    Solve,
    /// A learnt clause, with the ids of the clauses that lead from its negation to a false clause, in that order.
    Lemma {
        id: u64,
        lits: Lits,
        hints: List<u64>,
    },
    /// A clause that keeps a solution from coming again in its step: the negation of the step's activation literal comes first.
    Block {
        id: u64,
        lits: Lits,
    },
    /// The lemma of this id says that no solution is left.
    Finish {
        id: u64,
    },
    /// The step ends, and the unit of its negated activation literal is added under this id.
    Retire {
        id: u64,
    },
    /// The lemmas and blocks of these ids are taken away.
    Delete {
        ids: List<u64>,
    },
}
