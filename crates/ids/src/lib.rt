//! The numbers of workers and nodes, the ids of objects and attempts, and their texts. Contracts see each as the number or the id that it is.
#![tactic(auto, unfolding(meaning::specs::Births::same_id, crate::specs::Attempts::same_attempt))]

mod attempt;
mod node;
mod number;
mod object;
mod worker;

pub use attempt::AttemptId;
pub use node::NodeId;
pub use number::read_number;
pub use object::ObjectId;
pub use worker::WorkerId;
