// The checking of statements on several results.

ghost use Rattle.std.specs.Prelude.{◌≡◌, [], ◌∷◌, IfOk, IfErr, IsTrue, None, Some, OnOk, length, map, string_bytes};
ghost use Rattle.script_syntax.specs.Trees.{RefType};
ghost use Rattle.script_syntax.specs.Views.{program_of, tree_of, trees_of, type_of, name_of, retries_of as parsed_retries};
ghost use Rattle.script_check.specs.Refusals.{is_refusal};
ghost use Rattle.script_check.specs.Trees.{exprs_of, statement_of};
ghost use Rattle.script_check.specs.Scopes.{context_of};
ghost use Rattle.script_check.specs.Typings.{onto};
ghost use Rattle.script_check.specs.Inference.{infer_results, is_among, new_name, new_names, bound, let_call_step, let_remote_step, return_step};

use crate::error::CheckError;
use crate::expressions::{check_arguments, check_expr, check_marked};
use crate::scope::{Variable, callee, check_fresh, declare, retries};
use crate::tree::{CheckedExpr, CheckedStatement};
use crate::types::{copy_type, reference_to};
use script_syntax::{Expr, Function, Name, Retries, Span, ValueType};
use std::alloc::{AllocError, Global};

/// Values of further results, each of its type, put at the end of those checked before.
fn check_values(
    alloc: Global,
    functions: &[Function],
    scope: &[Variable],
    kinds: &[ValueType],
    values: &[Expr],
    mut checked: Vec<CheckedExpr>,
) -> Result<Vec<CheckedExpr>, CheckError>
    requires { length kinds.now ≡ length values.now }
    ensures value { IfOk result (λ cs.
        onto checked.items (infer_results (program_of functions.now) (context_of scope.now) (trees_of values.now) (map type_of kinds.now))
        ≡ Some (exprs_of cs.items)) }
    ensures refused { IfErr result (λ e. IsTrue (is_refusal e) →
        infer_results (program_of functions.now) (context_of scope.now) (trees_of values.now) (map type_of kinds.now) ≡ None) }
{
    for (i, value) in values.iter().enumerate() {
        let typing = check_expr(alloc, functions, scope, value)?;
        let expr = typing.of_kind(&kinds[i], value.span)?;
        checked.push(expr)?;
    }
    Ok(checked)
}

/// A return of as many values as the function has results, each of its type.
pub(crate) fn check_return(
    alloc: Global,
    functions: &[Function],
    function: &Function,
    scope: &[Variable],
    span: Span,
    expr: &Expr,
    others: &[Expr],
) -> Result<CheckedStatement, CheckError>
    ensures value { IfOk result (λ s.
        return_step (program_of functions.now) (type_of function.now.result) (map type_of function.now.others.items) (context_of scope.now)
        (tree_of expr.now) (trees_of others.now) ≡ Some (record { stmt = statement_of s; after = context_of scope.now })) }
    ensures refused { IfErr result (λ e. IsTrue (is_refusal e) →
        return_step (program_of functions.now) (type_of function.now.result) (map type_of function.now.others.items) (context_of scope.now)
        (tree_of expr.now) (trees_of others.now) ≡ None) }
{
    if others.len() != function.others.len() {
        return Err(CheckError::WrongReturns(span));
    }
    let typing = check_expr(alloc, functions, scope, expr)?;
    let value = typing.of_kind(&function.result, expr.span)?;
    let mut values = Vec::new(alloc);
    values.push(value)?;
    let values = check_values(alloc, functions, scope, &function.others, others, values)?;
    Ok(CheckedStatement::Return(values))
}

/// Whether one of these has the name's text, wherever it stands.
fn is_among(names: &[Name], name: &Name) -> bool
    ensures { result ≡ is_among (map name_of names.now) (name_of name.now) }
{
    for other in names {
        if other.text.as_str() == name.text.as_str() {
            return true;
        }
    }
    false
}

/// That a name may be declared behind others: it is not in scope, nor one of them.
fn check_new(
    scope: &[Variable],
    first: &Name,
    others: &[Name],
    name: &Name,
) -> Result<(), CheckError>
    ensures value { IfOk result (λ _. new_name (context_of scope.now) (name_of first.now ∷ map name_of others.now) (name_of name.now) ≡ Some tt) }
    ensures refused { IfErr result (λ e. new_name (context_of scope.now) (name_of first.now ∷ map name_of others.now) (name_of name.now) ≡ None) }
{
    check_fresh(scope, name)?;
    if first.text.as_str() == name.text.as_str() {
        return Err(CheckError::Duplicate(name.span));
    }
    if is_among(others, name) {
        return Err(CheckError::Duplicate(name.span));
    }
    Ok(())
}

/// That several names may be declared, each behind those before it.
fn check_names(scope: &[Variable], first: &Name, others: &[Name]) -> Result<(), CheckError>
    ensures value { IfOk result (λ _. new_names (context_of scope.now) [] (name_of first.now ∷ map name_of others.now) ≡ Some tt) }
    ensures refused { IfErr result (λ e. new_names (context_of scope.now) [] (name_of first.now ∷ map name_of others.now) ≡ None) }
{
    check_fresh(scope, first)?;
    for (i, name) in others.iter().enumerate() {
        check_new(scope, first, &others[..i], name)?;
    }
    Ok(())
}

/// Puts variables into scope, each with its type.
fn declare_all(
    alloc: Global,
    scope: &mut Vec<Variable>,
    names: &[Name],
    kinds: &[ValueType],
) -> Result<(), CheckError>
    requires { length kinds.now ≡ length names.now }
    ensures value { OnOk result (context_of scope.new.items ≡ bound (context_of scope.old.items) (map name_of names.now) (map type_of kinds.now)) }
    ensures refused { IfErr result (λ e. e ≡ CheckError.NoMemory) }
{
    for (i, name) in names.iter().enumerate() {
        declare(scope, name, copy_type(alloc, &kinds[i])?)?;
    }
    Ok(())
}

/// Puts variables into scope, each a reference to a value of its type.
fn declare_references(
    alloc: Global,
    scope: &mut Vec<Variable>,
    names: &[Name],
    kinds: &[ValueType],
) -> Result<(), CheckError>
    requires { length kinds.now ≡ length names.now }
    ensures value { OnOk result (context_of scope.new.items ≡ bound (context_of scope.old.items) (map name_of names.now)
        (map RefType (map type_of kinds.now))) }
    ensures refused { IfErr result (λ e. e ≡ CheckError.NoMemory) }
{
    for (i, name) in names.iter().enumerate() {
        declare(scope, name, reference_to(alloc, &kinds[i])?)?;
    }
    Ok(())
}

/// The names without their places, in order.
fn texts_of(alloc: Global, names: &[Name]) -> Result<Vec<String>, AllocError>
    ensures { IfOk result (λ xs. map string_bytes xs.items ≡ map name_of names.now) }
{
    let mut texts = Vec::new(alloc);
    for name in names {
        texts.push(name.text.clone()?)?;
    }
    Ok(texts)
}

/// A variable for each result of a plain call; all go into scope behind it.
pub(crate) fn check_let_call(
    alloc: Global,
    functions: &[Function],
    scope: &mut Vec<Variable>,
    name: &Name,
    others: &[Name],
    called: &Name,
    arguments: &[Expr],
) -> Result<CheckedStatement, CheckError>
    ensures value { IfOk result (λ s.
        let_call_step (program_of functions.now) (context_of scope.old.items) (name_of name.now) (map name_of others.now) (name_of called.now)
        (trees_of arguments.now) ≡ Some (record { stmt = statement_of s; after = context_of scope.new.items })) }
    ensures refused { IfErr result (λ e. IsTrue (is_refusal e) →
        let_call_step (program_of functions.now) (context_of scope.old.items) (name_of name.now) (map name_of others.now) (name_of called.now)
        (trees_of arguments.now) ≡ None) }
{
    check_names(scope, name, others)?;
    let function = callee(functions, called, others.len(), arguments.len())?;
    let checked = check_arguments(alloc, functions, scope, &function.parameters, arguments)?;
    declare(scope, name, copy_type(alloc, &function.result)?)?;
    declare_all(alloc, scope, others, &function.others)?;
    let others = texts_of(alloc, others)?;
    let called = called.text.clone()?;
    Ok(CheckedStatement::LetCall(name.text.clone()?, others, called, checked))
}

/// A reference for each result of a call as a task; all go into scope behind it.
pub(crate) fn check_let_remote(
    alloc: Global,
    functions: &[Function],
    scope: &mut Vec<Variable>,
    name: &Name,
    others: &[Name],
    written: Option<Retries>,
    called: &Name,
    arguments: &[Expr],
) -> Result<CheckedStatement, CheckError>
    ensures value { IfOk result (λ s.
        let_remote_step (program_of functions.now) (context_of scope.old.items) (name_of name.now) (map name_of others.now) (parsed_retries written)
        (name_of called.now) (trees_of arguments.now) ≡ Some (record { stmt = statement_of s; after = context_of scope.new.items })) }
    ensures refused { IfErr result (λ e. IsTrue (is_refusal e) →
        let_remote_step (program_of functions.now) (context_of scope.old.items) (name_of name.now) (map name_of others.now) (parsed_retries written)
        (name_of called.now) (trees_of arguments.now) ≡ None) }
{
    check_names(scope, name, others)?;
    let retries = retries(written)?;
    let function = callee(functions, called, others.len(), arguments.len())?;
    let marked = check_marked(alloc, functions, scope, &function.parameters, arguments)?;
    declare(scope, name, reference_to(alloc, &function.result)?)?;
    declare_references(alloc, scope, others, &function.others)?;
    let others = texts_of(alloc, others)?;
    let called = called.text.clone()?;
    let name = name.text.clone()?;
    Ok(CheckedStatement::LetRemote(name, others, retries, called, marked.marks, marked.exprs))
}
