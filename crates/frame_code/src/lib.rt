//! From a checked script to the code of the register machine.
#![tactic(auto)]

mod expressions;
mod forms;
mod functions;
mod instruction;
mod names;
mod operands;
mod statements;
mod weights;

pub use functions::compile;
pub use instruction::{Code, Instruction, Operand, Spawn};
pub use names::number_of;
