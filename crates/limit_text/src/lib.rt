//! Which limit a run met, in which event, and what to do.
#![tactic(auto)]

mod text;

pub use text::limit_text;
