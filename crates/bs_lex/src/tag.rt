//! What a packed lexeme is.

/// What a lexeme is, apart from its number.
#[derive(Clone, Copy)]
pub enum Tag {
    Module,
    Endmodule,
    Input,
    Output,
    Inout,
    Wire,
    Supply0,
    Supply1,
    Assign,
    And,
    Nand,
    Or,
    Nor,
    Xor,
    Xnor,
    Buf,
    Not,
    Reg,
    Behaviour,
    Parameter,
    NetType,
    Switch,
    Primitive,
    Strength,
    /// A name that is no cell.
    Name,
    Dff,
    Dffs,
    Dffe,
    Dffr,
    /// A number of one bit.
    Zero,
    One,
    /// A number of digits alone that is at most `MAX_INDEX`.
    Small,
    /// A number of digits alone above `MAX_INDEX`.
    Great,
    /// Any other number.
    Number,
    Symbol,
    AttrOpen,
    AttrClose,
    Text,
    System,
    Directive,
    End,
}
