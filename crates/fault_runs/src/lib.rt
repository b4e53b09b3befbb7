//! A script's run with each of many faults: each list of events is replayed on the same cluster, and what came of it is noted.
#![tactic(auto)]

mod replayed;
mod trying;

pub use protocol_board::{
    Board, Cluster, Core, Replay, ReplayStop, Reply, drive, is_no_memory, no_numbers,
};
pub use replayed::{Replayed, replay_lines};
pub use trying::{TrialWatcher, try_lists};
