//! What is answered to an event of the whole run.
#![tactic(auto, unfolding(meaning::specs::Births::same_id, ids::specs::Attempts::same_attempt))]

mod answering;
mod given;
mod verdict;

pub use answering::answer;
pub use given::GivenJob;
pub use verdict::Verdict;
