//! The syntax of scripts: the tree of a text, and the text of a tree.
#![tactic(auto)]

mod cursor;
mod expressions;
mod functions;
mod laws;
mod parser;
mod printer;
mod refusal;
mod statements;
mod tree;
mod types;
mod writer;

pub use laws::{
    lines_are_printed, one_program, one_tree, printed_are_tokens, printed_is_program,
    printed_text_is_read, read_is_within_limits,
};
pub use parser::parse;
pub use printer::print_program;
pub use script_tokens::{Mark, Placed, Span, SyntaxError, Token};
pub use tree::{
    BinaryOperator, Block, Expr, ExprKind, Function, Name, Parameter, Prefix, Program, Retries,
    Statement, ValueType,
};
