//! What a log sums up to, seat by seat, and the lines that say it.
#![tactic(auto)]

pub mod law;
mod lines;

pub use lines::book_lines;
