//! What a mark beside a name means.
ghost use Rattle.bs_inspect_html.specs.Law.{MarksAreReads};

/// The name of a signal is marked just where an item of the signature reads one of its flip-flops.
pub fn marks_are_reads()
    ensures { MarksAreReads }
{}
