//! The value that a net has at a moment.

/// A value of four-state logic without high impedance.
#[derive(Clone, Copy)]
pub enum Value {
    Zero,
    One,
    /// No input has come that decides it.
    Unknown,
}
