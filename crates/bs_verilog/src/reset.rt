//! The value at reset of each kind of flip-flop.
ghost use Rattle.std.specs.Prelude.{◌≡◌};
ghost use Rattle.bs_verilog.specs.Cells as spec;

use bs_lex::Cell;

/// Whether a cell's flip-flop is 1 at reset.
pub fn starts_as_one(cell: Cell) -> bool
    ensures { result ≡ spec.starts_as_one cell }
{
    match cell {
        Cell::Dffs => true,
        Cell::Dff | Cell::Dffe | Cell::Dffr => false,
    }
}
