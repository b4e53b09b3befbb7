//! How a worker's own attempt goes on: its job is claimed, and what was done on the job is committed, which bears, prints, and ends the attempt or
//! lets it wait. Each function is equal to its pure step in `protocol`. An error is want of memory, and then nothing is left of the worker and its node.
#![tactic(auto, unfolding(meaning::specs::Births::same_id, ids::specs::Attempts::same_attempt))]

mod birth_ids;
mod births;
mod commits;
mod logged;

pub use births::bear_all;
pub use commits::{claim_step, commit_step};
pub use owner_steps;
