//! Frames of attempts that wait for an answer, kept where jobs are run.
#![tactic(auto)]

mod keeping;
mod known;
mod waiting;

pub use keeping::Frames;
