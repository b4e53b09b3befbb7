//! How many nodes, workers and objects the log of a run has, and which events are refused for a limit.
#![tactic(auto)]

pub mod law;
