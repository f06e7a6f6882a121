//! What holds of the text of runs for all runs.
ghost use Rattle.bs_inspect_values.specs.Law.{RunsReadBack};

/// The text of the runs of some files is read back as a stimulus of those runs, where there are not too many, each has few enough
/// lines, and each line the width.
pub fn runs_read_back()
    ensures { RunsReadBack }
{}
