//! The laws of the conflict bound and of learnt clauses.
ghost use Rattle.bs_solve_lemmas.specs.Laws.{ConflictsRaiseTheNumber, NumbersGrow, NumbersAreBounded, UnitRunsAreOnQuietTrails, LearntClausesAreNew};
ghost use Rattle.bs_solve_lemmas.specs.Laws.{LearntClausesKeepQuiet};

/// The number of a trail rises with each conflict above the first level, does not fall otherwise, and is bounded.
pub fn trails_are_numbers()
    ensures rise { ConflictsRaiseTheNumber }
    ensures grow { NumbersGrow }
    ensures bound { NumbersAreBounded }
{}

/// Where no clause is false or unit, each literal of a unit run is true, and a learnt clause contains no clause and
/// leaves none false or unit.
pub fn quiet_trails()
    ensures runs { UnitRunsAreOnQuietTrails }
    ensures new { LearntClausesAreNew }
    ensures quiet { LearntClausesKeepQuiet }
{}
