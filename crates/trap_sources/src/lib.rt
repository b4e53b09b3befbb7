//! Where the trap of an object comes from: the attempt whose own code trapped, and with what it ran.
#![tactic(auto)]

mod chain;
mod source;

pub use chain::{trap_got, trap_origin, trapped_of};
pub use source::{TrapSource, trap_source};
