//! In which place of the script a trap comes about that ended main, or an object's attempt.
#![tactic(auto)]

mod text;

pub use text::{TrapAsked, trap_text};
