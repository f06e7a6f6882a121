//! A block: bits that stand from one cycle to another, and the facts that force them.

use crate::fact::Fact;
use bs_bits::List;

/// Bits that stand from one cycle to another, and the facts that force them. The cycles of `bits` are not read.
#[derive(Drop)]
pub struct Block {
    /// The nets and their bits.
    pub bits: List<Fact>,
    /// The first cycle.
    pub since: u32,
    /// The last cycle.
    pub at: u32,
    /// The facts that force the bits, by ascending cycles.
    pub given: List<Fact>,
    /// Whether the bits at `since` force themselves: where they have stood since the first moment.
    pub begun: bool,
}

/// What a pass of marks goes over: numbers of gates, each behind those that drive its inputs, and of the flip-flops whose loaded
/// bits go on to the next cycle. What is left out is unknown.
#[derive(Drop)]
pub struct Cone {
    pub gates: List<u32>,
    pub flops: List<u32>,
}
