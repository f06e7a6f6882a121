//! Bits that stand, and the facts that are told of them.

use bs_net_facts::Fact;

/// Bits that stand from one cycle to another, and the facts that are told of them: what set them, what has kept them, and what did not
/// matter.
#[derive(Clone, Copy)]
pub struct Episode<'a> {
    pub bits: &'a [Fact],
    pub since: u32,
    pub at: u32,
    /// Whether the bits have stood since the first moment.
    pub begun: bool,
    pub causes: &'a [Fact],
    pub holds: &'a [Fact],
    pub idle: &'a [Fact],
}
