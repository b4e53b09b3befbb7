//! Where in a script's text what each instruction of its code was made of stands.
#![tactic(auto)]

mod expressions;
mod functions;
mod statements;

pub use functions::places;
pub use script_syntax::{Program, Span};
