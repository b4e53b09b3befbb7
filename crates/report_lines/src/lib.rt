//! The lines of a report: what was printed, how main and the other attempts went on, what became of objects, and which
//! events were refused.
#![tactic(auto)]

mod attempt_set;
mod attempts;
mod faults;
pub mod main_end;
mod noted;
mod numbers;
mod objects;
mod outcomes;
mod prints;
mod refusals;

pub use attempts::AttemptStates;
pub use faults::kind_name;
pub use log_entries;
pub use main_end::{status_of, write_main};
pub use noted::{Noted, write_prints_and_note};
pub use outcomes::write_outcomes;
pub use refusals::{last_event, write_refusals};
