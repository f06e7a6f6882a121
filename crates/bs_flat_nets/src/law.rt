//! The law of orders, as a function with an empty body.
ghost use Rattle.bs_flat_nets.specs.Order.{NumberedIsChildrenFirst};

/// An order by the numbers of the modules of blocks' instances, as `module_levels` tells it, is an order of the modules in
/// which each stands after those that it instances.
pub fn numbered_orders_are_children_first()
    ensures { NumberedIsChildrenFirst }
{}
