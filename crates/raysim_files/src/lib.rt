//! Files that a command reads and writes: whether a write would lose one, why one failed, and writing a file whole or not at all.
#![tactic(auto)]

mod clash;
mod place;
mod whole;
mod with_error;

pub use clash::{Clash, first_clash};
pub use place::{FilePlace, place_of};
pub use whole::{try_output, write_whole};
pub use with_error::WithError;
