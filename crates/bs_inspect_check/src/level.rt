//! What a VCD has of a flip-flop at the end of a cycle.
ghost use Rattle.std.specs.Prelude.{◌≡◌, not};
ghost use Rattle.std.specs.Bool.{beq};
ghost use Rattle.bs_vcd.specs.Levels.{known_in};
ghost use Rattle.bs_inspect_check.specs.Flops.{is_other, is_unknown};
ghost use Rattle.bs_inspect_check.specs.Samples.{flop_level, known_level};

use bs_vcd::level;
use bs_vcd_header::BitSource;
use std::collections::HashMap;

/// What a VCD has of a flip-flop: no such variable, a bit that is `x`, `z` or not yet given, or a bit.
#[derive(Clone, Copy)]
pub enum FlopLevel {
    Missing,
    Unknown,
    Known(bool),
}

/// What is known of a variable's bit.
fn known_level(bit: Option<bool>) -> FlopLevel
    ensures { result ≡ known_level bit }
{
    match bit {
        Some(bit) => FlopLevel::Known(bit),
        None => FlopLevel::Unknown,
    }
}

/// What is known of a flip-flop.
pub(crate) fn flop_level(known: &HashMap<u64, &[u8]>, source: Option<BitSource>) -> FlopLevel
    ensures { result ≡ flop_level (known_in known.now) source }
{
    match source {
        Some(source) => known_level(level(known, source)),
        None => FlopLevel::Missing,
    }
}

/// Whether the VCD has another bit than the netlist.
pub(crate) fn is_other(bit: bool, level: FlopLevel) -> bool
    ensures { result ≡ is_other bit level }
{
    match level {
        FlopLevel::Missing => false,
        FlopLevel::Unknown => false,
        FlopLevel::Known(other) => bit != other,
    }
}

/// Whether a bit is `x`, `z` or not yet given.
pub(crate) fn is_unknown(level: FlopLevel) -> bool
    ensures { result ≡ is_unknown level }
{
    match level {
        FlopLevel::Missing => false,
        FlopLevel::Unknown => true,
        FlopLevel::Known(_) => false,
    }
}
