//! What is alive in a run: its nodes, workers and objects, a line for each thing that is to be said of them.
#![tactic(auto)]

mod copies;
mod nodes;
mod objects;
mod standing;
mod tasks;
mod text;
mod workers;

pub use text::{event_count, state_text};
