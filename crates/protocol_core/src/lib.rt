//! The run of a script on a cluster of 1 to 64 nodes: one event at a time.
#![tactic(auto)]

mod cluster;
mod cores;
mod cursor;
mod handed;
mod opening;
mod reply;
mod same_job;
mod state;
mod steps;

pub use cluster::Cluster;
pub use cores::Core;
pub use reply::Reply;
