//! What makes an object: a put value, or a task.
#![tactic(auto)]

mod birth;
mod same;

pub use birth::{Argument, Birth, dereferenced};
pub use same::are_same_births;
pub use values::ids;
