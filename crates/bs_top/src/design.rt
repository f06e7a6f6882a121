//! The design that a netlist of several modules means.
ghost use Rattle.bs_top.specs.Finishes.{MeansItsDesign};

use bs_net::Netlist;

/// Where a text has several modules, and is read as this netlist, the netlist is the flat netlist of their design, and means it.
pub fn means_design(net: &Netlist)
    ensures { MeansItsDesign net.now.raw }
{
    let _raw = net.raw();
}
