//! Tokens, and what else stands in a text.

/// The kind of a token.
#[derive(Clone, Copy)]
pub enum TokenKind {
    /// A name, or a keyword.
    Name,
    /// A `\` and a name of any printable bytes.
    Escaped,
    /// A `$` and a name.
    System,
    /// Digits, or a number with a base.
    Number,
    /// A text in quotes.
    Text,
    /// A backquote and a name.
    Directive,
    /// `(*`
    AttrOpen,
    /// `*)`
    AttrClose,
    /// A symbol of one byte.
    Sym,
}

/// A token: its text is the slice of its source from `start` up to `stop`, which are byte offsets from 0.
#[derive(Clone, Copy)]
pub struct Token {
    pub kind: TokenKind,
    pub start: u32,
    pub stop: u32,
}

/// What stands next in a text.
#[derive(Clone, Copy)]
pub enum Next {
    /// A token, after white space and comments.
    Found(Token),
    /// Nothing but white space and comments.
    End,
    /// The first place at which no white space, comment or token begins.
    Refused(u32),
}

/// What begins at a place of a text.
#[derive(Clone, Copy)]
pub enum Piece {
    /// White space, a comment or a directive's line: this many bytes that make no token.
    Passed(usize),
    /// A token of this many bytes.
    Made(TokenKind, usize),
    /// Nothing: the byte that is refused stands this many bytes on.
    Bad(usize),
}
