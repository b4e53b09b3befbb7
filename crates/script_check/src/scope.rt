// The variables in scope, and the functions.

ghost use Rattle.std.specs.Prelude.{◌≡◌, IfOk, IfErr, MatchOption, None, Some, ◌++◌, OnOk, string_bytes, vec_len};
ghost use Rattle.meaning.specs.Kinds.{kind_in};
ghost use Rattle.script_syntax.specs.Views.{program_of, function_of as parsed_function, type_of, retries_of as parsed_retries};
ghost use Rattle.script_check.specs.Refusals.{is_refusal};
ghost use Rattle.script_check.specs.Trees.{kind_of};
ghost use Rattle.script_check.specs.Scopes.{context_of};
ghost use Rattle.script_check.specs.Rules.{variable, function_in};
ghost use Rattle.script_check.specs.Inference.{fresh, callee, retries_within};

use crate::error::CheckError;
use script_syntax::{Function, Name, Retries, ValueType};

/// A variable, with its type.
#[derive(Drop)]
pub(crate) struct Variable {
    pub name: String,
    pub kind: ValueType,
}

/// The type of the variable of that name; none where it isn't in scope.
pub(crate) fn look_up<'a>(scope: &'a [Variable], name: &str) -> Option<&'a ValueType>
    ensures { MatchOption result (kind_in (context_of scope.now) name.now ≡ None) (λ t. kind_in (context_of scope.now) name.now ≡ Some (kind_of t.now)) }
{
    for variable in scope {
        if variable.name.as_str() == name {
            return Some(&variable.kind);
        }
    }
    None
}

/// That a name may be declared: it is not in scope.
pub(crate) fn check_fresh(scope: &[Variable], name: &Name) -> Result<(), CheckError>
    ensures value { IfOk result (λ _. fresh (context_of scope.now) (string_bytes name.now.text) ≡ Some tt) }
    ensures refused { IfErr result (λ e. fresh (context_of scope.now) (string_bytes name.now.text) ≡ None) }
{
    match look_up(scope, name.text.as_str()) {
        Some(_) => Err(CheckError::Duplicate(name.span)),
        None => Ok(()),
    }
}

/// Puts a variable into scope.
pub(crate) fn declare(
    scope: &mut Vec<Variable>,
    name: &Name,
    kind: ValueType,
) -> Result<(), CheckError>
    ensures value { OnOk result (context_of scope.new.items ≡ context_of scope.old.items ++ variable (string_bytes name.now.text) (kind_of kind)) }
    ensures refused { IfErr result (λ e. e ≡ CheckError.NoMemory) }
{
    let name = name.text.clone()?;
    scope.push(Variable { name, kind })?;
    Ok(())
}

/// The first function of that name, if there is one.
pub(crate) fn find<'a>(functions: &'a [Function], name: &str) -> Option<&'a Function>
    ensures { MatchOption result (function_in (program_of functions.now) name.now ≡ None) (λ f. function_in (program_of functions.now) name.now
        ≡ Some (parsed_function f.now)) }
{
    for function in functions {
        if function.name.text.as_str() == name {
            return Some(function);
        }
    }
    None
}

/// The function that a call names, if it may be called for that many results beside the first, and with that many arguments.
pub(crate) fn callee<'a>(
    functions: &'a [Function],
    name: &Name,
    others: usize,
    arguments: usize,
) -> Result<&'a Function, CheckError>
    ensures value { IfOk result (λ f. callee (program_of functions.now) (string_bytes name.now.text) others arguments ≡ Some (parsed_function f.now)) }
    ensures results { IfOk result (λ f. vec_len f.now.others ≡ others) }
    ensures count { IfOk result (λ f. vec_len f.now.parameters ≡ arguments) }
    ensures refused { IfErr result (λ e. callee (program_of functions.now) (string_bytes name.now.text) others arguments ≡ None) }
{
    if name.text.as_str() == "main" {
        return Err(CheckError::UnknownName(name.span));
    }
    let Some(function) = find(functions, name.text.as_str()) else {
        return Err(CheckError::UnknownName(name.span));
    };
    if function.others.len() != others {
        return Err(CheckError::WrongReturns(name.span));
    }
    if function.parameters.len() != arguments {
        return Err(CheckError::WrongCount(name.span));
    }
    Ok(function)
}

/// How many new runs a remote call allows: 3 where no number is written, and 10 at most.
pub(crate) fn retries(written: Option<Retries>) -> Result<u8, CheckError>
    ensures value { IfOk result (λ k. retries_within (parsed_retries written) ≡ Some k) }
    ensures refused { IfErr result (λ e. retries_within (parsed_retries written) ≡ None) }
{
    let Some(retries) = written else {
        return Ok(3);
    };
    if retries.number > 10 {
        return Err(CheckError::BadRetries(retries.span));
    }
    Ok(retries.number as u8)
}
