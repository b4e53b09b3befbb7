//! Which event comes next where nothing else is asked for. It takes no memory and changes nothing.
#![tactic(auto, unfolding(meaning::specs::Births::same_id, ids::specs::Attempts::same_attempt))]

mod claims;
mod commits;
mod messages;
mod turns;

pub use turns::{next, next_from};
