//! Who holds an object: those that were added and not removed, in whatever order and however often that was told. Of those that were removed
//! since their owner is dead, the first is kept.
#![tactic(auto, unfolding(meaning::specs::Births::same_id))]

mod by_name;
mod holders;

pub use by_name::Holders;
pub use holders::{add, is_held, remove, remove_dead};
