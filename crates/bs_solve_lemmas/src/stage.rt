//! Where a solver stands between two calls.
ghost use Rattle.std.specs.Prelude.{◌≡◌};
ghost use Rattle.bs_solve_lemmas.specs.Stages.{is_begun, stage_of};

use crate::answer::Answer;

/// Where a solver stands.
#[derive(Clone, Copy)]
pub enum Stage {
    /// No step is under way.
    Idle,
    /// A step has begun and has had no solve.
    Begun,
    /// The last solve found values that are not blocked yet.
    Solved,
    /// The values that were found are blocked.
    Blocked,
    /// The last solve logged the lemma of this id, which denies only assumptions.
    Ended(u64),
    /// The last solve reached its limit.
    Stopped,
}

/// Whether a step has begun and has had no solve.
pub fn is_begun(stage: Stage) -> bool
    ensures { result ≡ is_begun stage }
{
    match stage {
        Stage::Begun => true,
        _ => false,
    }
}

/// Where an answer leaves the solver.
pub fn stage_after(answer: &Answer) -> Stage
    ensures { result ≡ stage_of answer.now }
{
    match answer {
        Answer::Found(_) => Stage::Solved,
        Answer::Refuted(id) => Stage::Ended(*id),
        Answer::Spent => Stage::Stopped,
    }
}
