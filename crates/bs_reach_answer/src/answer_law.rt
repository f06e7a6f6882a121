//! What the text of an answer and its reading have to do with each other.
ghost use Rattle.bs_reach_answer.specs.ReadingLaw.{AnswersReadBack, RightAnswersAreRead, TextsAreAnswers};

/// An answer that has a text is read back from it, and what is read of a text has that text and no other. So a right answer within the
/// limits is read as it was written.
pub fn answers_read_back()
    ensures back { AnswersReadBack }
    ensures exact { TextsAreAnswers }
    ensures right { RightAnswersAreRead }
{}
