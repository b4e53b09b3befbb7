// Why a text is refused.

ghost use Rattle.std.specs.Prelude.{◌≡◌};
ghost use Rattle.script_tokens.specs.declared.error.SyntaxError.TheVariants.{NoMemory};
ghost use Rattle.script_tokens.specs.Refusals.{refusal_number, refusal_span};

use crate::token::Span;
use std::alloc::{AllocError, AllocFailed};
use thiserror::Error;

/// Why a text is refused, and where. `From` is written by hand, since the causes that clauses tell apart have to pass through `?`.
#[derive(Clone, Copy, PartialEq, Eq, Debug, Drop, Error)]
pub enum SyntaxError {
    /// 1: a byte above 127.
    #[error("refused 1 at {}..{}: a byte above 127", .0.start, .0.end)]
    NotAscii(Span),
    /// 2: a byte or a word that is no token.
    #[error("refused 2 at {}..{}: a byte or a word that is no token", .0.start, .0.end)]
    BadToken(Span),
    /// 3: a token that the grammar does not allow there, or the end of the text.
    #[error("refused 3 at {}..{}: a token that the grammar does not allow there, or the end of the text", .0.start, .0.end)]
    Expected(Span),
    /// 4: a limit is passed.
    #[error("refused 4 at {}..{}: a limit is passed", .0.start, .0.end)]
    TooLarge(Span),
    /// 39: want of memory.
    #[error("refused 39: want of memory")]
    NoMemory,
}

impl SyntaxError {
    /// The refusal's number: 1 to 4, and 39 for want of memory.
    pub fn number(self) -> u16
        ensures { result ≡ refusal_number self }
    {
        match self {
            SyntaxError::NotAscii(_) => 1,
            SyntaxError::BadToken(_) => 2,
            SyntaxError::Expected(_) => 3,
            SyntaxError::TooLarge(_) => 4,
            SyntaxError::NoMemory => 39,
        }
    }

    /// Where the refusal's cause stands; want of memory stands nowhere.
    pub fn span(self) -> Option<Span>
        ensures { result ≡ refusal_span self }
    {
        match self {
            SyntaxError::NotAscii(span)
            | SyntaxError::BadToken(span)
            | SyntaxError::Expected(span)
            | SyntaxError::TooLarge(span) => Some(span),
            SyntaxError::NoMemory => None,
        }
    }
}

impl From<AllocError> for SyntaxError {
    ghost from_gives = { λ _ e. e ≡ NoMemory };

    fn from(_e: AllocError) -> SyntaxError {
        SyntaxError::NoMemory
    }
}

impl<T: Drop> From<AllocFailed<T>> for SyntaxError {
    ghost from_gives = { λ _ e. e ≡ NoMemory };

    fn from(_e: AllocFailed<T>) -> SyntaxError {
        SyntaxError::NoMemory
    }
}
