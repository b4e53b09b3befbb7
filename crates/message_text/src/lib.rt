//! Messages in words, and a log in words with the messages that each event sent.
#![tactic(auto)]

mod endpoints;
mod envelopes;
mod kinds;
mod lists;
mod sent;
mod text;

pub use kinds::message_kind;
pub use sent::{envelopes_between, sent_behind};
pub use text::log_with_messages;
