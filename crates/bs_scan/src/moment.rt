//! A moment of recorded runs.

/// A moment: a run from 1, and a cycle from 0.
#[derive(Clone, Copy, Debug, PartialEq, Eq)]
pub struct Moment {
    pub run: u32,
    pub cycle: u32,
}
