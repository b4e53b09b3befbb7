// Where a script that is refused is at fault, with what is told of it.

use script_syntax::Span;
use std::alloc::{AllocError, AllocFailed};

/// A fault of a script: its number, its place, and what is told of it, in lines that begin with four spaces and have a line feed between them.
#[derive(Drop)]
pub(crate) struct Fault {
    /// The refusal's number.
    pub(crate) code: u16,
    /// The place at fault, as the refusal names it.
    pub(crate) span: Span,
    /// What is told of it: no line, or more.
    pub(crate) told: String,
}

/// Why a walk through a script stops.
#[derive(Drop)]
pub(crate) enum Stop {
    Fault(Fault),
    /// Nothing is told: want of memory, or a script that goes too deep.
    Unsure,
}

impl From<AllocError> for Stop {
    fn from(_error: AllocError) -> Stop {
        Stop::Unsure
    }
}

impl<T: Drop> From<AllocFailed<T>> for Stop {
    fn from(_error: AllocFailed<T>) -> Stop {
        Stop::Unsure
    }
}

/// Stops the walk at that fault.
pub(crate) fn stop_at(code: u16, span: Span, told: String) -> Stop {
    Stop::Fault(Fault { code, span, told })
}
