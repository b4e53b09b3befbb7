//! A run's history with one fault more: the lists of events that there are, how main ended with each, and the table of them.
#![tactic(auto)]

mod all_lists;
mod choice;
mod ending;
mod first_lists;
mod kinds;
pub mod law;
mod lines;
mod log_events;
mod seen;
mod table;
mod told;
mod tried;

pub use all_lists::fault_lists;
pub use choice::FaultChoice;
pub use ending::{RunEnd, attempts_in, end_of};
pub use faulted_history::{FaultList, event_list};
pub use first_lists::FirstLists;
pub use kinds::choice_named;
pub use lines::event_lines;
pub use log_events::events_in;
pub use table::table_text;
pub use told::{list_file, list_text};
pub use tried::{EndKind, Tried, first_of, status_of_all};
