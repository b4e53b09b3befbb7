//! The words in which a log is told: what each object was born as, the task of which it is a result, calls, contents and faults.
#![tactic(auto)]

mod births;
mod calls;
mod contents;
mod faults;
mod objects;
mod tasks;
mod told;

pub use births::BirthIndex;
pub use calls::{write_birth, write_call};
pub use contents::{Contents, write_content, write_contents, write_value};
pub use faults::{kind_words, write_fault};
pub use made_objects::add_objects;
pub use objects::ids_of;
pub use tasks::{objects_at, task_of, write_objects};
pub use told::{Told, is_refusal_at, worker_of_job};
