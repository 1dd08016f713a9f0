// The parts of a text.

/// What a part of a text is.
#[derive(Clone, Copy, Debug, PartialEq, Eq)]
pub enum TokenKind {
    /// White space: bytes 9 to 13 and 32.
    Space,
    /// A comment from `--` to the line's end.
    LineComment,
    /// A comment from `/*` to the first `*/` behind it, or to the end.
    BlockComment,
    /// ASCII letters, digits, `_`, `$` and bytes from 0x80, not beginning with a digit.
    Word,
    /// What begins with a digit, or a point and a digit, and goes on with letters, digits, points, and signs behind an `e`.
    Number,
    /// Text between two `"`, `` ` `` or `'`, in which that quote stands doubled.
    Quoted,
    /// Text between `[` and `]`.
    Bracketed,
    /// A quote or `[` that nothing closes, to the end.
    Unclosed,
    /// Any other byte.
    Sign,
}

/// A part of a text: its bytes from `start` up to `end`, counted from 0.
#[derive(Clone, Copy, Debug, PartialEq, Eq)]
pub struct Token {
    pub kind: TokenKind,
    pub start: usize,
    pub end: usize,
}
