//! Looking on at a run that goes on: who does, and what is told of it.
#![tactic(auto)]

mod counts;
pub mod law;
mod line;
mod prints;
mod watcher;

pub use counts::{RunCounts, counts_of};
pub use line::progress_line;
pub use prints::prints_text;
pub use watcher::{Unwatched, Watcher};
