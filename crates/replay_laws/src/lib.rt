//! A run that came of events, each job handed in once, replays by its recorded history to exactly this run.
#![tactic(auto)]

pub mod law;

pub use migration::{Ended, Gate, RunName, Shared, run_on_threads};
