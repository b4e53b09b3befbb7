//! What a worker does when it is told of a death, of a worker or of a node. Each function is equal to its pure step in `protocol`. An error is want of
//! memory, and then nothing is left of the worker and its node.
#![tactic(auto, unfolding(meaning::specs::Births::same_id, ids::specs::Attempts::same_attempt))]

mod deaths;
mod node_deaths;
mod runs_on;
mod worker_deaths;

pub use deaths::{notice_node_step, notice_step};
pub use worker_deaths::is_unheard;
