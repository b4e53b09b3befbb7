//! Where an instruction of a script's code stands, and what it works on: for the sentence that tells where a script trapped.
#![tactic(auto)]

mod spot;

pub use spot::{Shown, Spot};
