// How reserved words and symbols are spelled, and found at the front of a text.

ghost use Rattle.std.specs.Prelude.{◌≡◌, MatchOption, None, Some};
ghost use Rattle.script_tokens.specs.Spelling.{mark_text};
ghost use Rattle.script_tokens.specs.Lexing.{word_in, reserved_words, singles, single_in, pairs, pair_in, symbol_at};

use crate::token::Mark;

impl Mark {
    /// How the mark is written.
    pub fn text(self) -> &'static str
        ensures { result.now ≡ mark_text self }
    {
        match self {
            Mark::Fn => "fn",
            Mark::Let => "let",
            Mark::Set => "set",
            Mark::If => "if",
            Mark::Else => "else",
            Mark::For => "for",
            Mark::In => "in",
            Mark::Print => "print",
            Mark::Return => "return",
            Mark::Int => "int",
            Mark::Ref => "ref",
            Mark::Remote => "remote",
            Mark::Put => "put",
            Mark::Get => "get",
            Mark::Len => "len",
            Mark::Push => "push",
            Mark::Empty => "empty",
            Mark::OpenParenthesis => "(",
            Mark::CloseParenthesis => ")",
            Mark::OpenBrace => "{",
            Mark::CloseBrace => "}",
            Mark::OpenBracket => "[",
            Mark::CloseBracket => "]",
            Mark::Comma => ",",
            Mark::Semicolon => ";",
            Mark::Colon => ":",
            Mark::Arrow => "->",
            Mark::Range => "..",
            Mark::Assign => "=",
            Mark::Equal => "==",
            Mark::NotEqual => "!=",
            Mark::Less => "<",
            Mark::LessEqual => "<=",
            Mark::Plus => "+",
            Mark::Minus => "-",
            Mark::Times => "*",
            Mark::Slash => "/",
            Mark::Percent => "%",
        }
    }
}

const RESERVED: [Mark; 17] = [
    Mark::Fn,
    Mark::Let,
    Mark::Set,
    Mark::If,
    Mark::Else,
    Mark::For,
    Mark::In,
    Mark::Print,
    Mark::Return,
    Mark::Int,
    Mark::Ref,
    Mark::Remote,
    Mark::Put,
    Mark::Get,
    Mark::Len,
    Mark::Push,
    Mark::Empty,
];

/// The reserved word that is written so.
pub fn reserved_word(word: &[u8]) -> Option<Mark>
    ensures { result ≡ word_in reserved_words word.now }
{
    let marks = RESERVED;
    let mut rest = marks.as_slice();
    while let [mark, more @ ..] = rest {
        if mark.text().as_bytes() == word {
            return Some(*mark);
        }
        rest = more;
    }
    None
}

fn single(byte: u8) -> Option<Mark>
    ensures { result ≡ single_in singles byte }
{
    match byte {
        b'(' => Some(Mark::OpenParenthesis),
        b')' => Some(Mark::CloseParenthesis),
        b'{' => Some(Mark::OpenBrace),
        b'}' => Some(Mark::CloseBrace),
        b'[' => Some(Mark::OpenBracket),
        b']' => Some(Mark::CloseBracket),
        b',' => Some(Mark::Comma),
        b';' => Some(Mark::Semicolon),
        b':' => Some(Mark::Colon),
        b'=' => Some(Mark::Assign),
        b'<' => Some(Mark::Less),
        b'+' => Some(Mark::Plus),
        b'-' => Some(Mark::Minus),
        b'*' => Some(Mark::Times),
        b'/' => Some(Mark::Slash),
        b'%' => Some(Mark::Percent),
        _ => None,
    }
}

fn pair(first: u8, second: u8) -> Option<Mark>
    ensures { result ≡ pair_in pairs first second }
{
    match (first, second) {
        (b'-', b'>') => Some(Mark::Arrow),
        (b'.', b'.') => Some(Mark::Range),
        (b'=', b'=') => Some(Mark::Equal),
        (b'!', b'=') => Some(Mark::NotEqual),
        (b'<', b'=') => Some(Mark::LessEqual),
        _ => None,
    }
}

/// The longest symbol at the front, and what follows it.
#[tactic(auto, unfolding(crate::specs::Lexing::symbol_at))]
pub fn symbol_at(text: &[u8]) -> Option<(Mark, &[u8])>
    ensures { MatchOption result (symbol_at text.now ≡ None)
        (λ x. symbol_at text.now ≡ Some (x.0, x.1.now)) }
{
    let [first, rest @ ..] = text else {
        return None;
    };
    if let [second, more @ ..] = rest {
        if let Some(mark) = pair(*first, *second) {
            return Some((mark, more));
        }
    }
    let Some(mark) = single(*first) else {
        return None;
    };
    Some((mark, rest))
}
