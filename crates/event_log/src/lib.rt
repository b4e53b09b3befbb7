//! What the events of a run put into its log, and which logs are legal.
#![tactic(auto)]

pub mod law;
