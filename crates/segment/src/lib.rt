//! Jobs: a task's attempt, run up to the next answer that it needs.
#![tactic(auto)]

mod done;
pub mod growth;
mod job;
mod runs;
mod script_name;

pub use done::{Done, DoneParts};
pub use evaluation::{Compiled, Frame, NoMemory};
pub use job::Job;
pub use script_name::ScriptName;
