//! A run on any number of nodes whose type keeps what its log means; the replay of event files on it; and such a run that is driven, event by
//! event, as the settle rule names them, until it names none.
#![tactic(auto)]

mod board;
mod driving;
mod given;
mod numbers;
mod replay;
mod stopped;

pub use crate::board::Board;
pub use driving::drive;
pub use given::is_no_memory;
pub use numbers::no_numbers;
pub use protocol_core::{Cluster, Core, Reply};
pub use replay::Replay;
pub use stopped::ReplayStop;
