//! Why a variable has a value.
use bs_arena::Ref;

/// The clause that implied a variable, and its level. A decision and an assumption have no clause.
#[derive(Clone, Copy)]
pub struct Cause {
    pub reason: Option<Ref>,
    pub level: u32,
}
