//! What a run came to: function by function, the messages by their kinds, and the events by theirs.
#![tactic(auto)]

mod columns;
mod counted;
mod events;
mod functions;
mod messages;
mod opened;
mod text;

pub use text::summary_text;
