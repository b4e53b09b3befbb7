//! Why a worker or a node is as it is, in sentences.
#![tactic(auto)]

mod copies;
mod deaths;
mod lists;
mod nodes;
mod present;
mod sites;
mod text;
mod workers;

pub use main_text;
pub use text::{node_text, worker_text};
