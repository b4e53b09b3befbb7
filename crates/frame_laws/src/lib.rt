//! The code of a script on a register machine, and the laws that the machine does on it what the script means.
#![tactic(auto)]

pub mod examples;
pub mod law;
