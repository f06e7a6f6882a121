//! Laws of the definitions.
ghost use Rattle.bs_scan.specs.Chain.{FullShiftsUnload};
ghost use Rattle.bs_scan.specs.Law.{DumpsReadBack, DumpTextsAreExact, FirstIsLeast};

/// The first moment is the least one at which a listed state is reached, and there is none where none is reached.
pub fn first_moment_is_the_least()
    ensures { FirstIsLeast }
{}

/// The text of a dump stands for it.
pub fn dumps_read_back()
    ensures { DumpsReadBack }
{}

/// A text that stands for a dump is the text of that dump, or it without the last line feed.
pub fn dump_texts_are_exact()
    ensures { DumpTextsAreExact }
{}

/// As many shifts as bits give the captured state in scan order, and leave what went in.
pub fn full_shifts_unload()
    ensures { FullShiftsUnload }
{}
