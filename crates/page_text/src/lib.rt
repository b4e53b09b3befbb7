//! A run as a page for a browser: a head, one line of JSON with all that happened, and a tail.
#![tactic(auto)]

mod data;
mod escaped;
mod frame;
mod text;

pub use frame::{HEAD, TAIL};
pub use text::page_text;
