// What a script's text is made of.

/// Where something stands in a text: the bytes from `start` up to and without `end`, counted from 0.
#[derive(Clone, Copy, PartialEq, Eq, Debug)]
pub struct Span {
    /// Where its first byte is, counted from 0.
    pub start: usize,
    /// The place behind its last byte.
    pub end: usize,
}

/// A reserved word or a symbol. The first of them, to `Empty`, are reserved words, spelled as they are named here but in small letters.
#[derive(Clone, Copy, PartialEq, Eq, Debug)]
pub enum Mark {
    Fn,
    Let,
    Set,
    If,
    Else,
    For,
    In,
    Print,
    Return,
    Int,
    Ref,
    Remote,
    Put,
    Get,
    Len,
    Push,
    Empty,
    OpenParenthesis,
    CloseParenthesis,
    /// `{`
    OpenBrace,
    /// `}`
    CloseBrace,
    /// `[`
    OpenBracket,
    /// `]`
    CloseBracket,
    Comma,
    Semicolon,
    Colon,
    /// `->`
    Arrow,
    /// `..`
    Range,
    /// `=`
    Assign,
    /// `==`
    Equal,
    NotEqual,
    Less,
    LessEqual,
    Plus,
    Minus,
    Times,
    /// `/`, the quotient rounded to zero
    Slash,
    /// `%`, the remainder
    Percent,
}

/// A token: a number of at most 9223372036854775807, a name of 1 to 64 bytes that is no reserved word, or a mark.
#[derive(Clone, Copy)]
pub enum Token<'a> {
    Int(u64),
    Name(&'a str),
    Mark(Mark),
}

/// A token, where it stands.
#[derive(Clone, Copy)]
pub struct Placed<'a> {
    pub token: Token<'a>,
    /// The bytes at which it stands in the text.
    pub span: Span,
}
