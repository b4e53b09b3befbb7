//! What a legal log means: the laws that follow of every log in which each entry has what it needs.
#![tactic(auto)]

pub mod law;
