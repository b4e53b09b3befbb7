//! Jobs that are out: each stands as it was given out until a commit of it comes.
#![tactic(auto)]

pub mod law;
