//! The objects that a birth makes.
#![tactic(auto)]

mod made;

pub use made::{add_objects, is_made_by};
