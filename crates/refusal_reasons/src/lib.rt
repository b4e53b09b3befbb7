//! What is told below a refusal: what was expected at its place and what was found, why a line is none of its file's format, and what the names of faults
//! and traps mean.
#![tactic(auto)]

mod ending;
mod events;
mod expressions;
mod grammar;
mod kind;
mod letters;
mod line;
mod line_words;
mod named;
mod near;
mod numbers;
mod scope;
mod script;
mod statements;
mod stop;
mod text_reason;
mod wanted;

pub use ending::Ending;
pub use events::Lines;
pub use letters::Letters;
pub use line::{ListKind, Refused, refused_line};
pub use line_words::{Field, LineReason};
pub use named::{NearNames, refusal_named};
pub use near::{Nearness, how_near};
pub use numbers::Counted;
pub use script::script_reason;
