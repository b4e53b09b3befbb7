//! Event files and plans, read from any reader: no line is kept further than it may be one, and no more lines than a replay may apply.
#![tactic(auto)]

mod ahead;
mod events;
mod history;
mod kept;
mod lines;
mod next_line;
mod plan;
mod row;

pub use events::{KeptEvents, read_event_file};
pub use kept::{Kept, MOST_SETTLED};
pub use lines::read_lines;
pub use next_line::LONGEST;
pub use plan::{MOST_PLANNED, read_plan_file};
