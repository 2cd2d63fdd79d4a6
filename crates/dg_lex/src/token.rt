// What a token is.

/// The kinds of tokens, the last nine being `( ) [ ] { } | * ~`.
#[derive(Clone, Copy, Debug, PartialEq, Eq)]
pub enum TokenKind {
    Word,
    Dict,
    Object,
    Var,
    Anon,
    At,
    Hash,
    RoundOpen,
    RoundClose,
    SquareOpen,
    SquareClose,
    BraceOpen,
    BraceClose,
    Bar,
    Star,
    Tilde,
}

/// A token: a slice of the source, its sign and its escapes included, the line that it stands on, from 1, and whether it begins that line
/// in the first column.
#[derive(Clone, Copy, Debug)]
pub struct Token<'a> {
    pub kind: TokenKind,
    pub text: &'a [u8],
    pub line: u32,
    pub first: bool,
}

/// A token's kind, and its length in bytes.
#[derive(Clone, Copy, Debug, PartialEq, Eq)]
pub struct Shape {
    pub kind: TokenKind,
    pub length: usize,
}
