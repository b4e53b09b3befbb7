//! What the report of a legal log says of main, beside what `raysim serial` says of the script.
#![tactic(auto)]

pub mod law;
