//! Why main ended as it did, or for what it waits, in sentences.
#![tactic(auto)]

mod attempts;
mod endpoints;
mod happenings;
mod links;
mod text;
mod traps;

pub use endpoints::{write_node, write_worker, write_workers};
pub use links::write_links;
pub use text::main_text;
pub use traps::write_own;
