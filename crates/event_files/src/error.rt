// Why a file of events is refused.

ghost use Rattle.std.specs.Prelude.{◌≡◌};
ghost use Rattle.event_files.specs.declared.error.EventError.TheVariants.{NoMemory};
ghost use Rattle.event_files.specs.Refusals.{refusal_number};

use std::alloc::{AllocError, AllocFailed};
use thiserror::Error;

/// Why a file of events or a plan is refused. `From` is written by hand, since the causes that clauses tell apart have to pass through `?`.
#[derive(Clone, Copy, PartialEq, Eq, Debug, Drop, Error)]
pub enum EventError {
    /// 40: the line with this number, counted from 1, is none of the format.
    #[error("refused 40: line {0} is none of the format")]
    BadLine(u64),
    /// 39: want of memory.
    #[error("refused 39: want of memory")]
    NoMemory,
}

impl EventError {
    /// The refusal's number: 40, and 39 for want of memory.
    pub fn number(self) -> u16
        ensures { result ≡ refusal_number self }
    {
        match self {
            EventError::BadLine(_) => 40,
            EventError::NoMemory => 39,
        }
    }
}

impl From<AllocError> for EventError {
    ghost from_gives = { λ _ e. e ≡ NoMemory };

    fn from(_e: AllocError) -> EventError {
        EventError::NoMemory
    }
}

impl<T: Drop> From<AllocFailed<T>> for EventError {
    ghost from_gives = { λ _ e. e ≡ NoMemory };

    fn from(_e: AllocFailed<T>) -> EventError {
        EventError::NoMemory
    }
}
