// How expressions are checked: their names, their types, and the arguments of calls.

ghost use Rattle.std.specs.Prelude.{◌≡◌, IfOk, IfErr, IsTrue, None, Some, length, map, string_bytes};
ghost use Rattle.meaning.specs.Syntax.{Number as ANumber};
ghost use Rattle.script_syntax.specs.Trees.{ListOf, Call, Remote, Push};
ghost use Rattle.script_syntax.specs.Views.{program_of, tree_of, trees_of, parameter_of as parsed_parameter, retries_of as written_retries};
ghost use Rattle.script_check.specs.Refusals.{is_refusal};
ghost use Rattle.script_check.specs.Trees.{kind_of, expr_of, exprs_of};
ghost use Rattle.script_check.specs.Scopes.{context_of};
ghost use Rattle.script_check.specs.Typings.{typing_of, marked_of, onto};
ghost use Rattle.script_check.specs.Inference.{infer, infer_as, infer_each, infer_arguments, infer_marked};

use crate::error::CheckError;
use crate::scope::{Variable, callee, retries};
use crate::tree::{CheckedExpr, Operator};
use crate::types::{copy_type, mark_for};
use crate::typing::{
    Typing, binary, check_int, check_variable, empty, items_of, length, operator, prefixed,
};
use script_syntax::{Expr, ExprKind, Function, Name, Parameter, Retries, Span, ValueType};
use std::alloc::Global;

/// The arguments of a remote call, with their marks.
#[derive(Drop)]
pub(crate) struct MarkedArguments {
    /// Of each argument whether it is a reference that is dereferenced before the body.
    pub(crate) marks: Vec<bool>,
    pub(crate) exprs: Vec<CheckedExpr>,
}

/// An expression, and its type.
#[cycle(expressions)]
pub(crate) fn check_expr(
    alloc: Global,
    functions: &[Function],
    scope: &[Variable],
    expr: &Expr,
) -> Result<Typing, CheckError>
    ensures value { IfOk result (λ x. infer (program_of functions.now) (context_of scope.now) (tree_of expr.now) ≡ Some (typing_of x)) }
    ensures refused { IfErr result (λ e. IsTrue (is_refusal e) → infer (program_of functions.now) (context_of scope.now) (tree_of expr.now) ≡ None) }
{
    match &expr.kind {
        ExprKind::Int(n) => check_int(*n, expr.span),
        ExprKind::Variable(name) => check_variable(alloc, scope, name),
        ExprKind::Prefixed(prefix, operand) => {
            let typing = check_expr(alloc, functions, scope, operand)?;
            prefixed(alloc, *prefix, typing, operand.span)
        }
        ExprKind::Binary(written, left, right) => {
            let left = check_number(alloc, functions, scope, left)?;
            let right = check_number(alloc, functions, scope, right)?;
            let expr = binary(alloc, operator(*written), left, right)?;
            let kind = ValueType::Int;
            Ok(Typing { expr, kind })
        }
        ExprKind::Index(list, index) => {
            let typing = check_expr(alloc, functions, scope, list)?;
            let kind = items_of(typing.kind, list.span)?;
            let index = check_number(alloc, functions, scope, index)?;
            let expr = binary(alloc, Operator::Item, typing.expr, index)?;
            Ok(Typing { expr, kind })
        }
        ExprKind::List(items) => check_list(alloc, functions, scope, items, expr.span),
        ExprKind::Empty(items) => empty(alloc, items),
        ExprKind::Call(name, arguments) => check_call(alloc, functions, scope, name, arguments),
        ExprKind::Remote(written, name, arguments) => {
            check_remote(alloc, functions, scope, *written, name, arguments)
        }
        ExprKind::Len(list) => {
            let typing = check_expr(alloc, functions, scope, list)?;
            length(alloc, typing, list.span)
        }
        ExprKind::Push(list, item) => check_push(alloc, functions, scope, list, item),
    }
}

/// An expression that has to be a number.
#[cycle(expressions)]
pub(crate) fn check_number(
    alloc: Global,
    functions: &[Function],
    scope: &[Variable],
    expr: &Expr,
) -> Result<CheckedExpr, CheckError>
    ensures value { IfOk result (λ c. infer_as (program_of functions.now) (context_of scope.now) ANumber (tree_of expr.now) ≡ Some (expr_of c)) }
    ensures refused { IfErr result (λ e. IsTrue (is_refusal e) →
        infer_as (program_of functions.now) (context_of scope.now) ANumber (tree_of expr.now) ≡ None) }
{
    let typing = check_expr(alloc, functions, scope, expr)?;
    typing.number(expr.span)
}

/// A list, and an item at its end.
#[cycle(expressions)]
fn check_push(
    alloc: Global,
    functions: &[Function],
    scope: &[Variable],
    list: &Expr,
    item: &Expr,
) -> Result<Typing, CheckError>
    ensures value { IfOk result (λ x. infer (program_of functions.now) (context_of scope.now) (Push (tree_of list.now) (tree_of item.now))
        ≡ Some (typing_of x)) }
    ensures refused { IfErr result (λ e. IsTrue (is_refusal e) →
        infer (program_of functions.now) (context_of scope.now) (Push (tree_of list.now) (tree_of item.now)) ≡ None) }
{
    let typing = check_expr(alloc, functions, scope, list)?;
    let kind = items_of(typing.kind, list.span)?;
    let item = check_expr(alloc, functions, scope, item)?.of_kind(&kind, item.span)?;
    let expr = binary(alloc, Operator::Push, typing.expr, item)?;
    let kind = ValueType::List(Box::new(alloc, kind)?);
    Ok(Typing { expr, kind })
}

/// A list of one item or more, each of the first one's type.
#[cycle(expressions)]
fn check_list(
    alloc: Global,
    functions: &[Function],
    scope: &[Variable],
    items: &[Expr],
    span: Span,
) -> Result<Typing, CheckError>
    ensures value { IfOk result (λ x. infer (program_of functions.now) (context_of scope.now) (ListOf (trees_of items.now)) ≡ Some (typing_of x)) }
    ensures refused { IfErr result (λ e. IsTrue (is_refusal e) →
        infer (program_of functions.now) (context_of scope.now) (ListOf (trees_of items.now)) ≡ None) }
{
    let [first, rest @ ..] = items else {
        return Err(CheckError::WrongType(span));
    };
    let Typing { expr, kind } = check_expr(alloc, functions, scope, first)?;
    let mut checked = Vec::new(alloc);
    checked.push(expr)?;
    let checked = check_each(alloc, functions, scope, &kind, rest, checked)?;
    let expr = CheckedExpr::List(checked);
    let kind = ValueType::List(Box::new(alloc, kind)?);
    Ok(Typing { expr, kind })
}

/// Further items of a list, each of that type, put at the end of those checked before.
#[cycle(expressions)]
fn check_each(
    alloc: Global,
    functions: &[Function],
    scope: &[Variable],
    kind: &ValueType,
    items: &[Expr],
    mut checked: Vec<CheckedExpr>,
) -> Result<Vec<CheckedExpr>, CheckError>
    ensures value { IfOk result (λ cs.
        onto checked.items (infer_each (program_of functions.now) (context_of scope.now) (kind_of kind.now) (trees_of items.now))
        ≡ Some (exprs_of cs.items)) }
    ensures refused { IfErr result (λ e. IsTrue (is_refusal e) →
        infer_each (program_of functions.now) (context_of scope.now) (kind_of kind.now) (trees_of items.now) ≡ None) }
{
    for item in items {
        let typing = check_expr(alloc, functions, scope, item)?;
        let expr = typing.of_kind(kind, item.span)?;
        checked.push(expr)?;
    }
    Ok(checked)
}

/// A plain call for one result.
#[cycle(expressions)]
fn check_call(
    alloc: Global,
    functions: &[Function],
    scope: &[Variable],
    name: &Name,
    arguments: &[Expr],
) -> Result<Typing, CheckError>
    ensures value { IfOk result (λ x. infer (program_of functions.now) (context_of scope.now) (Call (string_bytes name.now.text) (trees_of arguments.now))
        ≡ Some (typing_of x)) }
    ensures refused { IfErr result (λ e. IsTrue (is_refusal e) →
        infer (program_of functions.now) (context_of scope.now) (Call (string_bytes name.now.text) (trees_of arguments.now)) ≡ None) }
{
    let function = callee(functions, name, 0, arguments.len())?;
    let checked = check_arguments(alloc, functions, scope, &function.parameters, arguments)?;
    let expr = CheckedExpr::Call(name.text.clone()?, checked);
    let kind = copy_type(alloc, &function.result)?;
    Ok(Typing { expr, kind })
}

/// Arguments, each of its parameter's type.
#[cycle(expressions)]
pub(crate) fn check_arguments(
    alloc: Global,
    functions: &[Function],
    scope: &[Variable],
    parameters: &[Parameter],
    arguments: &[Expr],
) -> Result<Vec<CheckedExpr>, CheckError>
    requires { length parameters.now ≡ length arguments.now }
    ensures value { IfOk result (λ cs.
        infer_arguments (program_of functions.now) (context_of scope.now) (trees_of arguments.now) (map parsed_parameter parameters.now)
        ≡ Some (exprs_of cs.items)) }
    ensures refused { IfErr result (λ e. IsTrue (is_refusal e) →
        infer_arguments (program_of functions.now) (context_of scope.now) (trees_of arguments.now) (map parsed_parameter parameters.now) ≡ None) }
{
    let mut checked = Vec::new(alloc);
    for (i, argument) in arguments.iter().enumerate() {
        let typing = check_expr(alloc, functions, scope, argument)?;
        let expr = typing.of_kind(&parameters[i].kind, argument.span)?;
        checked.push(expr)?;
    }
    Ok(checked)
}

/// A call for one result, as a task.
#[cycle(expressions)]
fn check_remote(
    alloc: Global,
    functions: &[Function],
    scope: &[Variable],
    written: Option<Retries>,
    name: &Name,
    arguments: &[Expr],
) -> Result<Typing, CheckError>
    ensures value { IfOk result (λ x.
        infer (program_of functions.now) (context_of scope.now) (Remote (written_retries written) (string_bytes name.now.text) (trees_of arguments.now))
        ≡ Some (typing_of x)) }
    ensures refused { IfErr result (λ e. IsTrue (is_refusal e) →
        infer (program_of functions.now) (context_of scope.now) (Remote (written_retries written) (string_bytes name.now.text) (trees_of arguments.now))
        ≡ None) }
{
    let retries = retries(written)?;
    let function = callee(functions, name, 0, arguments.len())?;
    let marked = check_marked(alloc, functions, scope, &function.parameters, arguments)?;
    let name = name.text.clone()?;
    let expr = CheckedExpr::Remote(retries, name, marked.marks, marked.exprs);
    let kind = ValueType::Ref(Box::new(alloc, copy_type(alloc, &function.result)?)?);
    Ok(Typing { expr, kind })
}

/// Arguments of a remote call, each of its parameter's type or a reference to that.
#[cycle(expressions)]
pub(crate) fn check_marked(
    alloc: Global,
    functions: &[Function],
    scope: &[Variable],
    parameters: &[Parameter],
    arguments: &[Expr],
) -> Result<MarkedArguments, CheckError>
    requires { length parameters.now ≡ length arguments.now }
    ensures value { IfOk result (λ m.
        infer_marked (program_of functions.now) (context_of scope.now) (trees_of arguments.now) (map parsed_parameter parameters.now)
        ≡ Some (marked_of m)) }
    ensures refused { IfErr result (λ e. IsTrue (is_refusal e) →
        infer_marked (program_of functions.now) (context_of scope.now) (trees_of arguments.now) (map parsed_parameter parameters.now) ≡ None) }
{
    let mut marks = Vec::new(alloc);
    let mut exprs = Vec::new(alloc);
    for (i, argument) in arguments.iter().enumerate() {
        let typing = check_expr(alloc, functions, scope, argument)?;
        let Some(mark) = mark_for(&typing.kind, &parameters[i].kind) else {
            return Err(CheckError::WrongType(argument.span));
        };
        marks.push(mark)?;
        exprs.push(typing.expr)?;
    }
    Ok(MarkedArguments { marks, exprs })
}
