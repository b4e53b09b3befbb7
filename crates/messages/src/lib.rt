//! The messages of a run: what workers and nodes send one another. A message's number is its place in the network, counted from 1.
#![tactic(auto)]

pub use protocol_data::{AskKey, Endpoint, Envelope, Message};
