//! One worker's steps. A worker sees its own state and its own node's store and scheduler, and no other's; it hands out messages and entries of the log.
#![tactic(auto)]

mod proc;

pub use crate::proc::Proc;
pub use protocol_data::{Endpoint, Envelope, Message, Outbox, Outcomes, WorkerContext};
pub use worker_acts::Act;
