//! The events of a run, why one is refused, and the entries of its log.
#![tactic(auto)]

mod entry;
mod event;
mod refusal;

pub use entry::Entry;
pub use event::Event;
pub use held::values::Fault;
pub use held::{
    Answers, Births, Outcomes, Printed, Prints, SharedBirth, SharedContent, SmallList, Stopped,
};
pub use refusal::Refusal;
