//! A run as a timeline, for viewers of Chrome's trace events.
#![tactic(auto)]

mod arrivals;
mod arrows;
mod endings;
mod endpoints;
mod entries;
mod marks;
mod nodes;
mod places;
mod rows;
mod spans;
mod text;

pub use text::timeline_json;
