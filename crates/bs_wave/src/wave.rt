//! A wave: the value of each net at each moment of a trace.

use crate::value::Value;
use bs_bits::{Bits, List};

/// The keys of the nets, and for each moment a value for each key, in order.
#[derive(Drop)]
pub struct Wave {
    pub keys: List<List<u8>>,
    pub moments: List<List<Value>>,
}

/// States, and the inputs that lead from each of them to the next.
#[derive(Drop)]
pub struct Trace {
    pub states: List<Bits>,
    pub inputs: List<Bits>,
}
