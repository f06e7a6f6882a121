//! The cells: which pins each has.
ghost use Rattle.std.specs.Prelude.{◌≡◌};
ghost use Rattle.bs_verilog.specs.Cells as spec;

use bs_lex::Cell;

/// A pin of a cell.
#[derive(Clone, Copy)]
pub enum Pin {
    Clock,
    Output,
    Input,
    Enable,
    Clear,
}

/// The name of a pin.
pub fn pin_name(pin: Pin) -> &'static str
    ensures { result.now ≡ spec.pin_name pin }
{
    match pin {
        Pin::Clock => "CK",
        Pin::Output => "Q",
        Pin::Input => "D",
        Pin::Enable => "E",
        Pin::Clear => "R",
    }
}

/// The pins of a cell in the order of their places.
pub fn pin_list(cell: Cell) -> &'static [Pin]
    ensures { result.now ≡ spec.pin_list cell }
{
    match cell {
        Cell::Dff | Cell::Dffs => &[Pin::Clock, Pin::Output, Pin::Input],
        Cell::Dffe => &[Pin::Clock, Pin::Output, Pin::Input, Pin::Enable],
        Cell::Dffr => &[Pin::Clock, Pin::Output, Pin::Input, Pin::Clear],
    }
}
