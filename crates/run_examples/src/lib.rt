//! Logs that no run on threads ends with: what the contracts of such runs rule out.
#![tactic(auto)]

pub mod examples;
