//! The places of a wave's text.

/// What the next line of a wave's text may be.
#[derive(Clone, Copy)]
pub enum TextPlace {
    /// `$timescale 1ns $end`
    Timescale,
    /// `$scope module trace $end`
    Scope,
    /// the line of the next net, or `$upscope $end`
    Net,
    /// `$enddefinitions $end`
    Definitions,
    /// `#0`
    Start,
    /// the value of the next net at the first moment
    First,
    /// another value of this net or one behind it, or the next moment, or nothing more
    Change(usize),
}
