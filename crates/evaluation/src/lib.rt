//! Tasks run in pieces, and main run serially, on the register machine: between the values of tasks and those of a run.
#![tactic(auto)]

mod convert;
mod no_memory;
mod piece;
mod serial;
mod serial_run;
mod trapping;

pub use frames::{Compiled, Frame};
pub use no_memory::NoMemory;
pub use piece::{Piece, PieceError, go_on, run_piece};
pub use serial::{SerialError, SerialRun, run_serially};
pub use serial_run::run_serial;
pub use trapping::find_trap;
