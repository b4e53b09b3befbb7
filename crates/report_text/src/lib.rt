//! The report of a log: the lines of what was printed, how main and the other attempts went on, what became of objects,
//! and which events were refused.
#![tactic(auto)]

mod text;

pub use report_lines::{AttemptStates, kind_name, last_event, main_end, status_of};
pub use text::report_text;
