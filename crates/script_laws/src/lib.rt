//! The laws of what a script means: what is replayed, which ids stand where, kinds, and that main stays apart.
#![tactic(auto)]

pub mod law;
