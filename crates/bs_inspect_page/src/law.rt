//! What the cells of the page have to do with the text of a trace.
ghost use Rattle.bs_inspect_page.specs.Law.{CellsAreTraced};

/// The bits that a signal has at a moment of the page are those that `trace` tells at that state or input.
pub fn cells_are_traced()
    ensures { CellsAreTraced }
{}
