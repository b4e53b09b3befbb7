//! The report's lines, as text.
#![tactic(auto)]

mod cleared;
mod main_lines;
mod value;

pub use cleared::or_no_text;
pub use main_lines::{trap_name, write_main_lines};
pub use value::write_value;
