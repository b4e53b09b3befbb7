//! What a recorded history says of its run: comment lines behind its first line.
#![tactic(auto)]

mod head;
pub mod law;
mod reading;

pub use head::{cluster_words, head_text, headed, script_words, with_head};
pub use reading::{CLUSTER_WORD, SCRIPT_WORD, said_of};
