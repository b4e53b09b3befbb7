//! Tests of checked scripts that no worked run shows: their trees, copies of them, and trees that no text has; and tokens that no program has.
//! They stand in a crate of their own, so that the gate proves the crates below but once.
#![tactic(auto)]

pub mod chains;
#[cfg(test)]
mod checked_scripts;
