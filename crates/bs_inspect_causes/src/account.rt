//! An account: a block with its facts by kind.

use bs_bits::List;
use bs_net_facts::{Block, Fact};

/// A block with its facts by kind.
#[derive(Drop)]
pub struct Account {
    pub block: Block,
    /// The given facts that set the bits.
    pub causes: List<Fact>,
    /// The given facts that keep them.
    pub holds: List<Fact>,
    /// Facts to tell beside it, which do not matter.
    pub idle: List<Fact>,
    /// 0 for what was asked, 1 for what is given in those accounts, and so on.
    pub layer: u32,
}
