//! A list of candidates.

use bs_bits::List;
use bs_report::{Cand, ListEnd};

/// The candidates of a step in ascending order of their states, and how their list ended.
#[derive(Drop)]
pub struct Listing {
    pub cands: List<Cand>,
    pub end: ListEnd,
}
