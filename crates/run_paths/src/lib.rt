//! Runs that came of events, one after the other, each with what its caller handed in.
#![tactic(auto)]

pub mod law;

pub use protocol_board::{Board, Replay, ReplayStop, Reply, drive};
