//! A lemma or a block of a log.
use bs_arena::Ref;

/// A lemma or a block, by its id in the log and its clause in the arena.
#[derive(Clone, Copy)]
pub struct LoggedClause {
    pub id: u64,
    pub clause: Ref,
    pub is_lemma: bool,
}
