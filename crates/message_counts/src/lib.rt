//! How many messages of each kind a run sent, and how many of them were delivered.
#![tactic(auto)]

mod counts;

pub use counts::{deliveries, sent_count};
