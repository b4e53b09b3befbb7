// Why a check fails.

use std::alloc::{AllocError, AllocFailed};

/// Why a check fails, in words.
#[derive(Clone, Copy, Drop)]
pub struct Failed(pub &'static str);

/// What comes of a check.
pub type Checked = Result<(), Failed>;

impl From<AllocError> for Failed {
    fn from(_: AllocError) -> Failed {
        Failed("no memory")
    }
}

impl<T: Drop> From<AllocFailed<T>> for Failed {
    fn from(_: AllocFailed<T>) -> Failed {
        Failed("no memory")
    }
}

/// Fails with these words where something isn't so.
pub fn wants(is_so: bool, words: &'static str) -> Checked {
    if is_so { Ok(()) } else { Err(Failed(words)) }
}
