//! A log that threads share, and beginnings of it that they have seen.
#![tactic(auto)]

mod law;
mod name;
mod prefix;

pub use name::LogName;
pub use prefix::{LogPrefix, OpenedLog, SharedLog};
