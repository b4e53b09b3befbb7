//! The events of the whole run, each taken, or refused where it would pass a limit.
#![tactic(auto, unfolding(meaning::specs::Births::same_id, ids::specs::Attempts::same_attempt))]

mod acting;
mod births;
mod counting;
mod deaths;
mod deliveries;
mod happening;
mod jobs;
mod node_events;
mod stores;
mod within_limits;

pub use cluster_steps::{log_nothing, or_nothing_left};
pub use happening::happen;
pub use jobs::next_job;
