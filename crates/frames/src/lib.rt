//! A register machine for scripts, whose state is a frame that can be kept.
#![tactic(auto)]

mod asking;
mod attempt;
mod compiled;
mod course;
mod ending;
mod frame;
mod halt;
mod jumping;
mod mismatch;
mod numbers;
mod operators;
mod quick;
mod registers;
mod serially;
mod spotting;
mod start;
mod step;
mod trapping;
mod value;
mod working;

pub use attempt::{Attempt, run_task};
pub use compiled::Compiled;
pub use frame::Frame;
pub use halt::{Halt, Made, MarkedArgument};
pub use operators::list;
pub use serially::{SerialEnd, run_main};
pub use trapping::find_trap;
pub use value::{Items, Outcome, Value};
