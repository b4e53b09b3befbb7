// Why a command gives no report, with the line and the number that are told.

ghost use Rattle.std.specs.Prelude.{◌≡◌};
ghost use Rattle.raysim_streams.specs.declared.refusal.CommandRefusal.TheVariants.{NoMemory, Failed};
ghost use Rattle.raysim_streams.specs.Refusals.{refusal_number};

use crate::failure::Failure;
use script_tokens::Span;
use std::alloc::{AllocError, AllocFailed};
use std::fmt;
use thiserror::Error;

/// Why a command gives no report. Its text is the line that goes to standard error. `Display` is written by hand, with the text as its clause,
/// and so is `From`, since the causes that clauses tell apart have to pass through `?`.
#[derive(Clone, Copy, Debug, PartialEq, Eq, Drop, Error)]
pub enum CommandRefusal {
    /// The script is refused with this number (1 to 4 and 10 to 18), at these bytes: `refused 3 at 28..29`.
    At { code: u16, span: Span },
    /// Want of memory: `refused 39`.
    NoMemory,
    /// A run was stopped before its end, for the reason of this number (20 to 41): `refused 41`.
    Stopped { code: u16 },
    /// The line of that number, counted from 1, of an event file or a plan is none of the format: `refused 40 line 2`.
    BadLine { line: u64 },
    /// The claim in the line of that number, counted from 1, of an event file gave another job than the line says: `refused 42 line 7`.
    WrongJob { line: u64 },
    /// A read or a write failed: `refused 50`.
    Failed(Failure),
}

impl CommandRefusal {
    /// The refusal's number, as its text tells it.
    pub fn number(self) -> u16
        ensures { result ≡ refusal_number self }
    {
        match self {
            CommandRefusal::At { code, span: _ } => code,
            CommandRefusal::NoMemory => 39,
            CommandRefusal::Stopped { code } => code,
            CommandRefusal::BadLine { line: _ } => 40,
            CommandRefusal::WrongJob { line: _ } => 42,
            CommandRefusal::Failed(_) => 50,
        }
    }
}

impl fmt::Display for CommandRefusal {
    ghost use Rattle.std.specs.Prelude.{Some};
    ghost use Rattle.raysim_streams.specs.Refusals.{refusal_text};

    ghost output = { λ r. Some (refusal_text r) };

    fn fmt<W: fmt::Write>(&self, f: &mut fmt::Formatter<W>) -> fmt::Result {
        match self {
            CommandRefusal::At { code, span } => {
                let start = span.start;
                let end = span.end;
                write!(f, "refused {code} at {start}..{end}")
            }
            CommandRefusal::NoMemory => write!(f, "refused 39"),
            CommandRefusal::Stopped { code } => write!(f, "refused {code}"),
            CommandRefusal::BadLine { line } => write!(f, "refused 40 line {line}"),
            CommandRefusal::WrongJob { line } => write!(f, "refused 42 line {line}"),
            CommandRefusal::Failed(_) => write!(f, "refused 50"),
        }
    }
}

impl From<AllocError> for CommandRefusal {
    ghost from_gives = { λ _ e. e ≡ NoMemory };

    fn from(_error: AllocError) -> CommandRefusal {
        CommandRefusal::NoMemory
    }
}

impl<T: Drop> From<AllocFailed<T>> for CommandRefusal {
    ghost from_gives = { λ _ e. e ≡ NoMemory };

    fn from(_error: AllocFailed<T>) -> CommandRefusal {
        CommandRefusal::NoMemory
    }
}

impl From<Failure> for CommandRefusal {
    ghost from_gives = { λ failure e. e ≡ Failed failure };

    fn from(failure: Failure) -> CommandRefusal {
        CommandRefusal::Failed(failure)
    }
}
