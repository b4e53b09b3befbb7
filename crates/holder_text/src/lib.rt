//! Who holds an object and who waits for it, a line for each of them.
#![tactic(auto)]

mod holders;

pub use holders::{write_askers, write_frame, write_holders};
