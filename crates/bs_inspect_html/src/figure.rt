//! What is drawn of signals: moments, the bits that are open in each, and those that a signature reads.
use bs_bits::{Bits, List};

/// The states or inputs that are drawn, the bits that are open in each (those at which other candidates of its list differ), and for each
/// place whether an item of the signature reads it; none is read where there is no signature.
#[derive(Clone, Copy)]
pub struct Figure<'a> {
    pub moments: &'a List<Bits>,
    pub opens: &'a List<Bits>,
    pub signed: &'a Bits,
}
