//! The tokens of a script's text, read and written.
#![tactic(auto)]

mod bytes;
mod error;
mod laws;
mod marks;
mod numbers;
mod reader;
mod token;
mod writer;

pub use error::SyntaxError;
pub use laws::{line_of_spaced, one_reading, read_are_tokens, spaced_in_parts, spelled_is_read};
pub use reader::tokens_in;
pub use token::{Mark, Placed, Span, Token};
pub use writer::{write_line, write_token};
