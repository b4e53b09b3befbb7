//! What a worker's tables say, what the worker logs and sends, and what of a content goes into the tables. An error is want of memory; where
//! the worker and its node are changed, nothing is left of them then.
#![tactic(auto, unfolding(meaning::specs::Births::same_id, ids::specs::Attempts::same_attempt))]

mod basics;
mod contents;
mod holders;
mod locations;
mod results;
mod stops;
mod unneeded;

pub use basics::{
    ask_for_slot, give_slot_back, has_stopped, is_own, knows_dead, log, main_attempt, say,
    say_to_node,
};
pub use contents::{convert, ids_in_content, if_small};
pub use contexts::or_nothing;
pub use holders::holders_of;
pub use locations::{
    chosen_location, is_pending, is_pending_task, is_pending_with, is_present, is_waiting_for,
    live_location, may_gain_location,
};
pub use results::{end_of, results_of};
pub use stops::tell_stop;
pub use unneeded::{is_bearer_over, is_unneeded_at};
