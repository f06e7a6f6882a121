//! Reset and clock edges at each width of a plane: one, two or four words.
ghost use Rattle.std.specs.Prelude.{◌≡◌, ◌*◌, length, IsTrue};
ghost use Rattle.bs_lanes.specs.Lanes.{is_wide};
ghost use Rattle.bs_lanes.specs.Layout.{HasLayout, SettlesAll};
ghost use Rattle.bs_lanes.specs.Settling.{LoadsAll, ResetsAll};

use crate::layout::Layout;
use crate::nets;
use bs_net::Flop;

/// Brings all lanes to reset, with the input of zeros settled.
pub(crate) fn reset(
    wide: usize,
    nets: &mut [u64],
    flops: &mut [u64],
    layout: &Layout,
    states: &[Flop],
    zeros: &[u64],
)
    requires wide { IsTrue (is_wide wide) }
    requires placed { HasLayout wide nets.old layout.now }
    requires outputs { length flops.old ≡ length layout.now.outputs * wide }
    requires states { length flops.old ≡ length states.now * wide }
    requires zeros { length zeros.now ≡ length layout.now.inputs * wide }
    ensures settled { SettlesAll wide layout.now flops.new zeros.now nets.old nets.new }
    ensures reset { ResetsAll wide states.now flops.old flops.new }
{
    match wide {
        1 => nets::reset::<1>(nets, flops, layout, states, zeros),
        2 => nets::reset::<2>(nets, flops, layout, states, zeros),
        _ => nets::reset::<4>(nets, flops, layout, states, zeros),
    }
}

/// Settles, and loads the next states: one clock edge in all lanes.
pub(crate) fn step(
    wide: usize,
    nets: &mut [u64],
    flops: &mut [u64],
    layout: &Layout,
    inputs: &[u64],
)
    requires wide { IsTrue (is_wide wide) }
    requires placed { HasLayout wide nets.old layout.now }
    requires outputs { length flops.old ≡ length layout.now.outputs * wide }
    requires loads { length flops.old ≡ length layout.now.flops * wide }
    requires inputs { length inputs.now ≡ length layout.now.inputs * wide }
    ensures settled { SettlesAll wide layout.now flops.old inputs.now nets.old nets.new }
    ensures loaded { LoadsAll wide nets.new layout.now.flops flops.old flops.new }
{
    match wide {
        1 => nets::step::<1>(nets, flops, layout, inputs),
        2 => nets::step::<2>(nets, flops, layout, inputs),
        _ => nets::step::<4>(nets, flops, layout, inputs),
    }
}
