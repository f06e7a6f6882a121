//! What holds of all cells and of all texts that HTML shows.
ghost use Rattle.bs_inspect_html.specs.Escapes.{EscapedIsQuiet};
ghost use Rattle.bs_inspect_html.specs.CellLaw.{CellsAreExact};

/// At each moment of a cell the signal has the cell's bits, and is marked as the cell is.
pub fn cells_are_exact()
    ensures { CellsAreExact }
{}

/// A text as HTML shows it has none of `<`, `>` and the quotes, and the text is read back from it: an `&` begins an entity.
pub fn escaped_is_quiet()
    ensures { EscapedIsQuiet }
{}
