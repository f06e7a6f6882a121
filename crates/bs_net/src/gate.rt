//! The kinds of gates. Their values are `specs/Gate`.

/// The kind of a gate. `Buf` and `Not` have one input, the other kinds one or more.
#[derive(Clone, Copy)]
pub enum Kind {
    /// 1 where all inputs are 1.
    And,
    /// The complement of `And`.
    Nand,
    /// 1 where an input is 1.
    Or,
    /// The complement of `Or`.
    Nor,
    /// 1 where the number of inputs that are 1 is odd.
    Xor,
    /// The complement of `Xor`.
    Xnor,
    /// The input.
    Buf,
    /// The complement of the input.
    Not,
}
