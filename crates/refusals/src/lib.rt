//! Why an event is refused before it is tried: the first of its reasons, in their order.
#![tactic(auto, unfolding(meaning::specs::Births::same_id, ids::specs::Attempts::same_attempt))]

mod jobs;
mod living;
mod reasons;

pub use jobs::job_out;
pub use living::{is_live_node, is_live_worker, is_ready, is_ready_run};
pub use reasons::refusal;
