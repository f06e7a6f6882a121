//! A law of the definitions.
ghost use Rattle.bs_verilog.specs.Law.{NetsAreNamed};

/// Each net of a netlist that is read has a name of one or more bytes 33 to 126.
pub fn nets_are_named()
    ensures { NetsAreNamed }
{}
