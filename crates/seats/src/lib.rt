//! A run that threads share, under one lock, and seats whose books add up to the totals of its log: whose turn it is beside a plan, and what each
//! turn adds.
#![tactic(auto)]

mod choice;
mod end;
mod gate;
mod outs;
mod run_name;
mod seen_job;
mod seen_log;
mod seen_turning;
mod shared;
mod tally;
mod threads;
mod turn;
mod turning;
mod working;

pub use end::Ended;
pub use gate::Gate;
pub use outs::JobOut;
pub use run_name::RunName;
// (passed on to those above)
pub use run_paths::{Board, Replay, ReplayStop, drive};
pub use seen_job::{SeenDone, SeenFrames, SeenJob};
pub use shared::Shared;
pub use threads::run_on_threads;
pub use turn::Turn;
pub use turning::Turning;
pub use working::work;
