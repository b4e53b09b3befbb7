// How functions are checked: their names, parameters, bodies and returns, and that main is there.

ghost use Rattle.std.specs.Prelude.{◌≡◌, ◌++◌, IfOk, IfErr, IsTrue, None, Some, true, false, [], map};
ghost use Rattle.script_syntax.specs.Views.{program_of, type_of, parameter_of as parsed_parameter, function_of as parsed_function};
ghost use Rattle.script_check.specs.Refusals.{is_refusal};
ghost use Rattle.script_check.specs.Trees.{parameter_of, function_of, script_of};
ghost use Rattle.script_check.specs.Scopes.{context_of};
ghost use Rattle.script_check.specs.Rules.{function_in};
ghost use Rattle.meaning.specs.Values.{main_name};
ghost use Rattle.script_check.specs.Inference.{declared, is_single, function_from, functions_from, are_apart, is_main_good};

use crate::error::CheckError;
use crate::scope::{Variable, check_fresh, declare, find};
use crate::statements::{block_returns, check_block};
use crate::tree::{CheckedFunction, CheckedParameter};
use crate::types::{copy_type, copy_types};
use script_syntax::{Function, Parameter, ValueType};
use std::alloc::Global;

/// A function's parameters, which go into scope.
fn check_parameters(
    alloc: Global,
    scope: &mut Vec<Variable>,
    parameters: &[Parameter],
) -> Result<Vec<CheckedParameter>, CheckError>
    ensures value { IfOk result (λ ps. declared (map parsed_parameter parameters.now) (context_of scope.old.items)
        ≡ Some (record { parameters = map parameter_of ps.items; context = context_of scope.new.items })) }
    ensures refused { IfErr result (λ e. IsTrue (is_refusal e) → declared (map parsed_parameter parameters.now) (context_of scope.old.items) ≡ None) }
{
    let mut checked = Vec::new(alloc);
    for parameter in parameters {
        check_fresh(scope, &parameter.name)?;
        let kind = copy_type(alloc, &parameter.kind)?;
        declare(scope, &parameter.name, kind)?;
        let name = parameter.name.text.clone()?;
        let kind = copy_type(alloc, &parameter.kind)?;
        checked.push(CheckedParameter { name, kind })?;
    }
    Ok(checked)
}

/// No result is there beside the first.
fn is_single(others: &[ValueType]) -> bool
    ensures { result ≡ is_single (map type_of others.now) }
{
    let [_first, _others @ ..] = others else {
        return true;
    };
    false
}

/// Checks a function: its parameters, its statements in order, and that it returns on each way through it.
fn check_function(
    alloc: Global,
    functions: &[Function],
    function: &Function,
) -> Result<CheckedFunction, CheckError>
    ensures value { IfOk result (λ f. function_from (program_of functions.now) (parsed_function function.now) ≡ Some (function_of f)) }
    ensures refused { IfErr result (λ e. IsTrue (is_refusal e) → function_from (program_of functions.now) (parsed_function function.now) ≡ None) }
{
    let mut scope = Vec::new(alloc);
    let parameters = check_parameters(alloc, &mut scope, &function.parameters)?;
    let statements = &function.body.statements;
    let body = check_block(alloc, functions, function, &mut scope, statements)?;
    if !block_returns(statements) {
        return Err(CheckError::MissingReturn(function.name.span));
    }
    let name = function.name.text.clone()?;
    let result = copy_type(alloc, &function.result)?;
    let others = copy_types(alloc, &function.others)?;
    Ok(CheckedFunction {
        name,
        parameters,
        result,
        others,
        body,
    })
}

/// All functions, in order.
pub(crate) fn check_functions(
    alloc: Global,
    functions: &[Function],
) -> Result<Vec<CheckedFunction>, CheckError>
    ensures value { IfOk result (λ fs. functions_from (program_of functions.now) (program_of functions.now) ≡ Some (script_of fs.items)) }
    ensures refused { IfErr result (λ e. IsTrue (is_refusal e) → functions_from (program_of functions.now) (program_of functions.now) ≡ None) }
{
    let mut checked = Vec::new(alloc);
    for function in functions {
        let function = check_function(alloc, functions, function)?;
        checked.push(function)?;
    }
    Ok(checked)
}

/// That no function has the name of one before it.
pub(crate) fn check_names(functions: &[Function]) -> Result<(), CheckError>
    ensures value { IfOk result (λ _. are_apart [] (program_of functions.now) ≡ true) }
    ensures refused { IfErr result (λ e. are_apart [] (program_of functions.now) ≡ false) }
{
    for (i, function) in functions.iter().enumerate() {
        if find(&functions[..i], function.name.text.as_str()).is_some() {
            return Err(CheckError::Duplicate(function.name.span));
        }
    }
    Ok(())
}

/// That main is there, has no parameters and is of type int, with no other result.
pub(crate) fn check_main(functions: &[Function]) -> Result<(), CheckError>
    ensures value { IfOk result (λ _. is_main_good (function_in (program_of functions.now) main_name) ≡ true) }
    ensures refused { IfErr result (λ e. is_main_good (function_in (program_of functions.now) main_name) ≡ false) }
{
    let Some(main) = find(functions, "main") else {
        return Err(CheckError::NoMain);
    };
    let ValueType::Int = main.result else {
        return Err(CheckError::NoMain);
    };
    if main.parameters.len() != 0 {
        return Err(CheckError::NoMain);
    }
    if !is_single(&main.others) {
        return Err(CheckError::NoMain);
    }
    Ok(())
}
