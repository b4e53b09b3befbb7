//! A file of format 1, written as one of format 2, replays to the same run.
#![tactic(auto)]

pub mod law;

pub use seats::{Ended, Gate, RunName, Shared, run_on_threads};
