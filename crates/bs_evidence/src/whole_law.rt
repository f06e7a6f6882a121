//! What the clauses and the proof of all finished lists show.
ghost use Rattle.bs_evidence.specs.WholeLaw.{AcceptedIsUnmet, UnlistedMeetsWhole, WholeProofsAreRight};

/// The clauses of a log say that all its finished lists are complete: a state that is shown in a finished step and not blocked gives
/// an assignment that meets them. The proof of an accepted log is right over them, and so no assignment meets them.
pub fn finished_lists_are_shown()
    ensures unlisted { UnlistedMeetsWhole }
    ensures right { WholeProofsAreRight }
    ensures unmet { AcceptedIsUnmet }
{}
