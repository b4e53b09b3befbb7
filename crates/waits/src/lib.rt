//! For what a run's attempts wait, from one to the next, down to the event that would let the first go on.
#![tactic(auto)]

mod asks;
mod chain;
mod ends;
mod link;
mod lookups;
mod objects;
mod sent;
mod slots;
mod stops;
mod topics;

pub use chain::{links, worker_links};
pub use link::Link;
pub use lookups::{envelope_at, holders_at, node_at, worker_at};
