//! The program's commands over a run of a script that is driven or replayed, over any readers and writers.
#![tactic(auto)]

mod event_lines;
mod faults_command;
mod form;
mod page_command;
mod replay_inputs;
mod replays;
mod run_command;
mod run_memory;
mod run_stops;
mod sim_command;
mod so_far_command;
mod state_command;
mod telling;
mod trap_command;

pub use fault_lists::{EndKind, FaultChoice, RunEnd, Tried, choice_named, first_of, list_file};
pub use fault_runs::{Board, Cluster, Core, Replay, ReplayStop, Reply, TrialWatcher};
pub use faults_command::{TriedFaults, faults};
pub use form::{Form, report};
pub use log_words::Contents;
pub use page_command::page;
pub use run_command::run;
pub use run_memory::RunMemory;
pub use run_watch::{Unwatched, Watcher};
pub use sim_command::sim;
pub use so_far_command::{run_so_far, sim_so_far};
pub use state_command::state;
pub use telling::SoFar;
pub use trap_command::{run_trap, sim_trap, trap_asked};
pub use trap_text::TrapAsked;
pub use values::FaultKind;
