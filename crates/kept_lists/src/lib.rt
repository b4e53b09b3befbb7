//! Event files and plans, read from any reader, as texts of the same lines: what a replay is handed.
#![tactic(auto)]

mod lists;
mod texts;

pub use lists::{read_event_list, read_first_format, read_plan_list};
