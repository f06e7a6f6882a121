//! The laws that conflict analysis rests on.
ghost use Rattle.bs_solve_lemmas.specs.Chain.{ChainsAreRight};
ghost use Rattle.bs_solve_lemmas.specs.Derives.{DerivesAtConflict, DerivesBackwards, DerivesLemma};

/// Reasons in the order of the trail, and then the clause that was false, are right hints of the lemma.
pub fn reasons_make_hints()
    ensures { ChainsAreRight }
{}

/// Conflict analysis makes such chains, one reason after another.
pub fn analysis_makes_chains()
    ensures start { DerivesAtConflict }
    ensures step { DerivesBackwards }
    ensures end { DerivesLemma }
{}
