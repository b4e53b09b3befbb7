//! The program's commands, over any readers and writers.
#![tactic(auto)]

mod migrate_command;
mod open_gate;
mod thread_inputs;
mod thread_outputs;
mod thread_run;
mod threads_command;

pub use migrate_command::migrate;
pub use open_gate::OpenGate;
pub use replay_laws::{Gate, RunName, Shared};
pub use run_commands::{
    Board, Cluster, Contents, Core, EndKind, FaultChoice, FaultKind, Form, Reply, RunEnd,
    RunMemory, SoFar, TrapAsked, TrialWatcher, Tried, TriedFaults, Unwatched, Watcher, faults,
    first_of, list_file, page, report, run, run_so_far, run_trap, sim, sim_so_far, sim_trap, state,
    trap_asked,
};
pub use script_commands::{
    CommandRefusal, Engine, Failure, MOST_BYTES, Sink, Source, Tracked, check, compiled_script,
    exit_status, export, put_all, read_at_most, read_script, serial,
};
pub use threads_command::run_threaded;
