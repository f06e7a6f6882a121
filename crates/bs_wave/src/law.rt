//! Laws of the definitions.
ghost use Rattle.bs_wave.specs.Law.{TracesHaveOneWave, WaveTextsAreExact, WavesReadBack, WavesShowTraces, WrongLinesAreNamed};

/// A wave that has a text is read back from it, and what is read of a text has that text and no other.
pub fn waves_read_back()
    ensures back { WavesReadBack }
    ensures exact { WaveTextsAreExact }
{}

/// A line that is refused is the first with which the whole lines begin no wave's text, or the one behind them.
pub fn wrong_lines_are_named()
    ensures { WrongLinesAreNamed }
{}

/// A trace has one wave, which shows that trace.
pub fn waves_show_traces()
    ensures one { TracesHaveOneWave }
    ensures shown { WavesShowTraces }
{}
