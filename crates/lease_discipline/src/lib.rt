//! A worker runs one attempt at a time: how workers are leased to attempts, whatever events come.
#![tactic(auto)]

pub mod examples;
pub mod law;
