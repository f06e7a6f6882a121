//! What an accepted log proves, and that a log has one verdict.
ghost use Rattle.bs_log.specs.Refutation.{AddedClausesHold, FinishedStepsAreRefuted};
ghost use Rattle.bs_log.specs.LineForms.{LinesReadBack, TextsAreLines};
ghost use Rattle.bs_log.specs.FirstRefused.{NoneIsRefusedInAccepted, TheFirstIsRefused};

/// An accepted log refutes what is not listed, over every list of clauses and steps. Take an assignment that meets the
/// clauses, breaks no block of a step, and makes this step's activation literal true and every other activation literal false. It meets every clause
/// that the log adds before the step's retire line. So it does not meet the step's assumptions, if the log finishes the step.
pub fn accepted_logs_refute()
    ensures added { AddedClausesHold }
    ensures finished { FinishedStepsAreRefuted }
{}

/// A log is accepted exactly where it has no first refused line, and the first refused line and its reason are those that
/// `first_refused` gives.
pub fn the_first_refused_line_is_exact()
    ensures accepted { NoneIsRefusedInAccepted }
    ensures refused { TheFirstIsRefused }
{}

/// Reading and writing of lines are each other's inverse: a line with a text is read back from it, and a text is read as
/// the line that has it, if there is one.
pub fn reading_inverts_writing()
    ensures back { LinesReadBack }
    ensures exact { TextsAreLines }
{}
