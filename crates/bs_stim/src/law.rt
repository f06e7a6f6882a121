//! Laws of the definitions.
ghost use Rattle.bs_stim.specs.Law.{StimuliReadBack, StimulusTextsAreExact, UnendedStimuliReadBack};

/// The text of runs stands for them, also without its last line feed.
pub fn stimuli_read_back()
    ensures whole { StimuliReadBack }
    ensures unended { UnendedStimuliReadBack }
{}

/// A text that stands for runs is the text of those runs, or it without the last line feed.
pub fn stimulus_texts_are_exact()
    ensures { StimulusTextsAreExact }
{}
