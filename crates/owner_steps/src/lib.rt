//! What a worker does as the owner of its objects: asks, beginnings and broken attempts, ends that are accepted, answers to whoever waits, lost
//! objects that are made again, and needs. Each function is equal to its pure step in `protocol`. An error is want of memory, and then nothing is
//! left of the worker and its node.
#![tactic(auto, unfolding(meaning::specs::Births::same_id, ids::specs::Attempts::same_attempt))]

mod again;
mod answers;
mod askers;
mod ends;
mod faulted;
mod needs;
mod recovery;
mod results;

pub use again::{ask_next, break_attempt, elsewhere_reached, given_reached};
pub use answers::answer_settled;
pub use askers::{missing_reached, where_reached};
pub use ends::{failed_reached, finished_reached};
pub use needs::need_own;
pub use recovery::recover;
pub use results::{hold_all, id_behind};
