//! A worker's table of the objects that it owns, in birth order, by the names of what may happen to them. Each method is the step of that name:
//! `worker_steps`, `owner_steps` and `worker_acts` have them.
#![tactic(auto)]

mod owner_table;

pub use crate::owner_table::OwnerTable;
pub use lineage::plan;
pub use protocol_data::{Object, Objects, WorkerContext};
