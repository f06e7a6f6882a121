//! A law of traces from a dump that is known in part.
ghost use Rattle.bs_loop.specs.HitInput.{TracesEndAsRecorded};

/// Where the first step lists the recorded input for the state hit, the trace ends in the state that the run had next.
pub fn traces_end_as_recorded()
    ensures { TracesEndAsRecorded }
{}
