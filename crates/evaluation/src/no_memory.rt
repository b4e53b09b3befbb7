// The error of what needs memory and has no other error of its own.

use thiserror::Error;

/// Memory isn't there.
#[derive(Clone, Copy, PartialEq, Eq, Debug, Drop, Error)]
#[error("refused 39: want of memory")]
pub struct NoMemory;
