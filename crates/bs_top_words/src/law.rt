//! Laws of the definitions.
ghost use Rattle.bs_top_words.specs.Spelling.{SpelledJobsAreRead};

/// The reading of words gives exactly the job that they spell.
pub fn spelled_jobs_are_read()
    ensures { SpelledJobsAreRead }
{}
