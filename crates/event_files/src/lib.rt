//! Event files and plans: the events that a run is handed, as text; and the recorded history of a run.
#![tactic(auto)]

mod error;
mod event;
mod event_file;
mod events;
pub mod laws;
mod line;
mod log_history;
mod numbering;
mod numbers;
mod parts;
mod passing;
mod plan;
mod recorded;

pub use error::EventError;
pub use event_file::{EventFile, parse_event_file};
pub use events::{MOST_EVENTS, parse_events, print_events};
pub use line::{Line, read_line};
pub use log_history::history;
pub use numbering::line_numbers;
pub use parts::behind;
pub use plan::{PlanLine, RunPlan, parse_plan, read_plan_line};
pub use recorded::{RecordedEvent, print_recorded, read_recorded};
