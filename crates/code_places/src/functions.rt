// The places of the instructions of functions and scripts.

ghost use Rattle.std.specs.Prelude.{◌≡◌, ◌++◌, IfOk, OnOk};
ghost use Rattle.code_places.specs.Places.{marked_places, function_places, program_places};

use crate::statements::add_statements;
use script_syntax::{Function, Parameter, Program, Span};
use std::alloc::{AllocError, Global};

/// Where marks are looked at and arguments dereferenced, before the body.
fn add_marked(places: &mut Vec<Span>, parameters: &[Parameter]) -> Result<(), AllocError>
    ensures { OnOk result (places.new.items ≡ places.old.items ++ marked_places parameters.now) }
{
    for parameter in parameters {
        places.push(parameter.name.span)?;
        places.push(parameter.name.span)?;
    }
    Ok(())
}

/// A function, at whose end stands what a body comes to that does not return.
fn add_function(places: &mut Vec<Span>, function: &Function) -> Result<(), AllocError>
    ensures { OnOk result (places.new.items ≡ places.old.items ++ function_places function.now) }
{
    add_marked(places, &function.parameters)?;
    add_statements(places, &function.body.statements)?;
    places.push(function.name.span)?;
    Ok(())
}

/// Where in a script's text what each instruction of its code was made of stands, in the order of the code, where the script is one that is
/// allowed:
///
/// - what works out an expression: the expression, a call's with its arguments, a list's with its items;
/// - what takes a condition, and the jump past what stands after `else`: the condition;
/// - a loop's beginning and its turn: from the first bound to the second;
/// - a call whose results get names: its function's name;
/// - a print and a return: from that word to the end of its value, of a return's last one;
/// - a task's arguments, dereferenced before its body: the parameter's name;
/// - the end of a body, to which none comes: the function's name.
///
/// Numbers and variables as operands have no instruction. The only error is want of memory.
pub fn places(alloc: Global, program: &Program) -> Result<Vec<Span>, AllocError>
    ensures { IfOk result (λ spans. spans.items ≡ program_places program.now.functions.items) }
{
    let mut places = Vec::new(alloc);
    for function in program.functions.as_slice() {
        add_function(&mut places, function)?;
    }
    Ok(places)
}
