// Why a script is refused by the checker: each fault with its number and its place.

ghost use Rattle.std.specs.Prelude.{◌≡◌};
ghost use Rattle.script_check.specs.declared.error.CheckError.TheVariants.{NoMemory};
ghost use Rattle.script_check.specs.Refusals.{number_of, span_of};

use script_syntax::Span;
use std::alloc::{AllocError, AllocFailed};
use thiserror::Error;

/// Why a script is refused, and where. `From` is written by hand, since the causes that clauses tell apart have to pass through `?`.
#[derive(Clone, Copy, PartialEq, Eq, Debug, Drop, Error)]
pub enum CheckError {
    /// 10: a variable or function that is not in scope, or a call of main.
    #[error("refused 10 at {}..{}: a variable or function that is not in scope, or a call of main", .0.start, .0.end)]
    UnknownName(Span),
    /// 11: an expression of a wrong type.
    #[error("refused 11 at {}..{}: an expression of a wrong type", .0.start, .0.end)]
    WrongType(Span),
    /// 12: a call with a wrong number of arguments, at the function's name there.
    #[error("refused 12 at {}..{}: a call with a wrong number of arguments", .0.start, .0.end)]
    WrongCount(Span),
    /// 13: no main, or one with parameters or with another type than int.
    #[error("refused 13 at 0..0: no main, or one with parameters or with another type than int")]
    NoMain,
    /// 14: a print in another function than main.
    #[error("refused 14 at {}..{}: a print in another function than main", .0.start, .0.end)]
    PrintOutsideMain(Span),
    /// 15: a body that may end without return, at the function's name.
    #[error("refused 15 at {}..{}: a body that may end without return", .0.start, .0.end)]
    MissingReturn(Span),
    /// 16: retries above 10, at the number.
    #[error("refused 16 at {}..{}: retries above 10", .0.start, .0.end)]
    BadRetries(Span),
    /// 17: a name that is in scope already.
    #[error("refused 17 at {}..{}: a name that is in scope already", .0.start, .0.end)]
    Duplicate(Span),
    /// 18: a wrong number of results: of a return's values, at `return`; of a `let`'s names, or of a function that is called for one result,
    /// at the function's name in the call.
    #[error("refused 18 at {}..{}: a wrong number of results", .0.start, .0.end)]
    WrongReturns(Span),
    /// 39: want of memory.
    #[error("refused 39: want of memory")]
    NoMemory,
}

impl CheckError {
    /// The refusal's number: 10 to 18, or 39 for want of memory.
    pub fn number(self) -> u16
        ensures { result ≡ number_of self }
    {
        match self {
            CheckError::UnknownName(_) => 10,
            CheckError::WrongType(_) => 11,
            CheckError::WrongCount(_) => 12,
            CheckError::NoMain => 13,
            CheckError::PrintOutsideMain(_) => 14,
            CheckError::MissingReturn(_) => 15,
            CheckError::BadRetries(_) => 16,
            CheckError::Duplicate(_) => 17,
            CheckError::WrongReturns(_) => 18,
            CheckError::NoMemory => 39,
        }
    }

    /// Where the fault stands: bytes of the text, counted from 0. A missing main is at 0..0, and
    /// want of memory has no place.
    pub fn span(self) -> Option<Span>
        ensures { result ≡ span_of self }
    {
        match self {
            CheckError::UnknownName(span)
            | CheckError::WrongType(span)
            | CheckError::WrongCount(span)
            | CheckError::PrintOutsideMain(span)
            | CheckError::MissingReturn(span)
            | CheckError::BadRetries(span)
            | CheckError::Duplicate(span)
            | CheckError::WrongReturns(span) => Some(span),
            CheckError::NoMain => Some(Span { start: 0, end: 0 }),
            CheckError::NoMemory => None,
        }
    }
}

impl From<AllocError> for CheckError {
    ghost from_gives = { λ _ e. e ≡ NoMemory };

    fn from(_e: AllocError) -> CheckError {
        CheckError::NoMemory
    }
}

impl<T: Drop> From<AllocFailed<T>> for CheckError {
    ghost from_gives = { λ _ e. e ≡ NoMemory };

    fn from(_e: AllocFailed<T>) -> CheckError {
        CheckError::NoMemory
    }
}
