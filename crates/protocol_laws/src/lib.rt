//! The laws of the whole protocol: its log stays legal, whatever events come, and nothing that is held is released.
#![tactic(auto)]

pub mod law;
