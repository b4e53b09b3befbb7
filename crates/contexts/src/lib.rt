//! Workers and nodes as they begin, a context with nothing in it, in which they come into events, and what is left where an event finds no memory.
#![tactic(auto)]

mod emptied;
mod fresh;

pub use emptied::{clear_cluster, clear_context, or_nothing, or_nothing_left, or_nothing_there};
pub use fresh::{blank_context, new_node, new_worker, no_out};
pub use protocol_data;
