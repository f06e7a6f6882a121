//! What the clauses and the proof of a step's list show.
ghost use Rattle.bs_log.specs.ShownLaw.{FinishedIsUnmet, ProofsAreRight, UnlistedMeets};

/// The clauses of a step say that its list is complete: a state that is shown in the step and not blocked gives an assignment that
/// meets them, and where an accepted log finishes the step, none does. The proof of such a step is right over them.
pub fn step_lists_are_shown()
    ensures unlisted { UnlistedMeets }
    ensures unmet { FinishedIsUnmet }
    ensures right { ProofsAreRight }
{}
