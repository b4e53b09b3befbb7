//! The report of a log as JSON: one compact object on one line.
#![tactic(auto)]

mod attempts;
mod entries;
mod main_end;
mod refusals;
mod text;
mod value;

pub use text::report_json;
