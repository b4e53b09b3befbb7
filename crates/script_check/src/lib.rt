//! The checking of scripts: scopes, types and marks.
#![tactic(auto)]

mod checked;
mod copy;
mod error;
mod expressions;
mod functions;
mod laws;
mod results;
mod scope;
mod statements;
mod tree;
mod types;
mod typing;

pub use checked::{Checked, check};
pub use error::CheckError;
pub use laws::{checked_scripts_are_well_typed, one_checked_script};
pub use script_syntax::{Program, Span, ValueType};
pub use tree::{
    CheckedBlock, CheckedExpr, CheckedFunction, CheckedParameter, CheckedStatement, Operator,
    UnaryOperator,
};
