//! What a run computes with: values, contents, traps and faults.
#![tactic(auto)]

mod cells;
mod content;
mod fault;
mod same;
mod value;

pub use content::{Content, Trap, copy_contents, ids_in};
pub use fault::{Fault, FaultKind};
pub use ids;
pub use same::{are_same_contents, are_same_values};
pub use value::{RunValue, add_ids};
