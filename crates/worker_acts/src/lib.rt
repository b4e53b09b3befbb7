//! A worker's part in an event of the whole run: its step, and then what can be released. Its steps are a message that reaches it, a tick,
//! what it does when it is told of a death (`death_steps`), and its claims and commits (`commit_steps`).
#![tactic(auto, unfolding(meaning::specs::Births::same_id, ids::specs::Attempts::same_attempt))]

mod messages;
mod part;
mod ticks;

pub use death_steps::{notice_node_step, notice_step};
pub use messages::reached;
pub use part::{Act, take_part};
pub use ticks::tick_step;
