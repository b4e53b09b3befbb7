//! A script from its text, and the program's commands over a script alone, over any readers and writers.
#![tactic(auto)]

mod checking;
mod export_command;
mod script;
mod serial_command;
mod status;

pub use checking::check;
pub use engine_text::Engine;
pub use export_command::export;
pub use raysim_streams::{CommandRefusal, Failure, Sink, Source, Tracked, put_all, read_at_most};
pub use script::{
    MOST_BYTES, PlacedScript, compiled_script, placed_script, read_compiled, read_script,
};
pub use serial_command::serial;
pub use status::exit_status;
