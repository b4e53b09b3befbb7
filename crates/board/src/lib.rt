//! A run whose type keeps what its log means, how it is replayed and driven, and such a run that threads share.
#![tactic(auto)]

pub use seats::{
    Board, Ended, Gate, JobOut, Replay, ReplayStop, RunName, Shared, Turn, Turning, drive,
    run_on_threads, work,
};
