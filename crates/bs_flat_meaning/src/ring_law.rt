//! The law of rings, as a function with an empty body.
ghost use Rattle.bs_flat_meaning.specs.Ring.{RingsHaveNoOrder};

/// Modules that instance each other in a ring have no order in which each stands after those that it instances.
pub fn rings_have_no_order()
    ensures { RingsHaveNoOrder }
{}
