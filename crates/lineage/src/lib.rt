//! Lineage: which objects are made again with a lost one, in which order, or why that can't be done.
#![tactic(auto, unfolding(meaning::specs::Births::same_id))]

mod arguments;
mod planning;
mod recovery;
mod serials;
mod tables;

pub use planning::plan;
pub use recovery::{Plan, Stop};
pub use tables::{first_by, has_content, is_lost, is_lost_here, is_wanted, may_try_again, task_by};
