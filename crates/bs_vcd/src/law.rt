//! What holds of identifier codes.
ghost use Rattle.bs_vcd.specs.Found.{CodesAreSomewhere};

/// No identifier code has the number of no variable: so nothing is known of it, whatever changes.
pub fn codes_are_somewhere()
    ensures { CodesAreSomewhere }
{}
