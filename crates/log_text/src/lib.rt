//! A log in words, a line for each entry; and of these lines those that concern one object.
#![tactic(auto)]

mod about;
mod attempts;
mod entries;
mod events;
mod mentions;
mod refusals;
mod runners;
mod story;
mod text;

pub use attempts::write_named;
pub use entries::write_line;
pub use mentions::{is_among, is_in_birth, is_in_content};
pub use report::or_no_text;
pub use runners::{node_of, opened};
pub use story::story_text;
pub use text::log_text;
