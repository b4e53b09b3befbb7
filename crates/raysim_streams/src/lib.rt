//! Bounded reading and tracked writing, and what a command refuses.
#![tactic(auto)]

mod failure;
mod refusal;
mod sink;
mod source;
mod tracked;

pub use failure::Failure;
pub use refusal::CommandRefusal;
pub use sink::{Sink, put_all};
pub use source::{Source, read_at_most};
pub use tracked::Tracked;
