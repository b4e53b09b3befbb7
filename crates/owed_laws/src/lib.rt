//! What an accepted event owes, and pays: one law over log and network before and after it.
#![tactic(auto)]

pub mod examples;
pub mod law;
