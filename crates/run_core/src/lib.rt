//! The run of a script, one event at a time, with the cluster that it runs on, its events, and what is answered to them.
#![tactic(auto)]

pub use log_entries::{Entry, Event, Refusal};
pub use protocol_core::{Cluster, Core, Reply};
