// The checking of statements and blocks.

ghost use Rattle.std.specs.Prelude.{◌≡◌, ◌++◌, IfOk, IfErr, IsTrue, None, Some, OnOk, string_bytes};
ghost use Rattle.meaning.specs.Syntax.{Number as ANumber};
ghost use Rattle.script_syntax.specs.Views.{
  program_of,
  tree_of,
  statement_of as parsed_statement,
  statements_of as parsed_statements,
  function_of as parsed_function,
};
ghost use Rattle.script_check.specs.Refusals.{is_refusal};
ghost use Rattle.script_check.specs.Trees.{statement_of, statements_of, block_of};
ghost use Rattle.script_check.specs.Scopes.{context_of};
ghost use Rattle.script_check.specs.Rules.{variable};
ghost use Rattle.script_check.specs.Inference.{
  let_step,
  set_step,
  print_step,
  step_of,
  steps_of,
  block_from,
  else_from,
  returns,
  block_returns,
  else_returns,
};
ghost use Rattle.script_check.specs.Branches.{other_of};

use crate::error::CheckError;
use crate::expressions::{check_expr, check_number};
use crate::results::{check_let_call, check_let_remote, check_return};
use crate::scope::{Variable, check_fresh, declare, look_up};
use crate::tree::{CheckedBlock, CheckedStatement};
use crate::types::has_reference;
use script_syntax::{Block, Expr, Function, Name, Span, Statement, ValueType};
use std::alloc::Global;

/// A variable's declaration, which puts it into scope.
fn check_let(
    alloc: Global,
    functions: &[Function],
    scope: &mut Vec<Variable>,
    name: &Name,
    expr: &Expr,
) -> Result<CheckedStatement, CheckError>
    ensures value { IfOk result (λ s. let_step (program_of functions.now) (context_of scope.old.items) (string_bytes name.now.text) (tree_of expr.now)
        ≡ Some (record { stmt = statement_of s; after = context_of scope.new.items })) }
    ensures refused { IfErr result (λ e. IsTrue (is_refusal e) →
        let_step (program_of functions.now) (context_of scope.old.items) (string_bytes name.now.text) (tree_of expr.now) ≡ None) }
{
    check_fresh(scope, name)?;
    let typing = check_expr(alloc, functions, scope, expr)?;
    declare(scope, name, typing.kind)?;
    Ok(CheckedStatement::Let(name.text.clone()?, typing.expr))
}

/// A variable's new value.
fn check_set(
    alloc: Global,
    functions: &[Function],
    scope: &[Variable],
    name: &Name,
    expr: &Expr,
) -> Result<CheckedStatement, CheckError>
    ensures value { IfOk result (λ s. set_step (program_of functions.now) (context_of scope.now) (string_bytes name.now.text) (tree_of expr.now)
        ≡ Some (record { stmt = statement_of s; after = context_of scope.now })) }
    ensures refused { IfErr result (λ e. IsTrue (is_refusal e) →
        set_step (program_of functions.now) (context_of scope.now) (string_bytes name.now.text) (tree_of expr.now) ≡ None) }
{
    let Some(kind) = look_up(scope, name.text.as_str()) else {
        return Err(CheckError::UnknownName(name.span));
    };
    let typing = check_expr(alloc, functions, scope, expr)?;
    let value = typing.of_kind(kind, expr.span)?;
    Ok(CheckedStatement::Set(name.text.clone()?, value))
}

/// A print, which stands in main only and prints no reference.
fn check_print(
    alloc: Global,
    functions: &[Function],
    function: &Function,
    scope: &[Variable],
    span: Span,
    expr: &Expr,
) -> Result<CheckedStatement, CheckError>
    ensures value { IfOk result (λ s. print_step (program_of functions.now) (string_bytes function.now.name.text) (context_of scope.now) (tree_of expr.now)
        ≡ Some (record { stmt = statement_of s; after = context_of scope.now })) }
    ensures refused { IfErr result (λ e. IsTrue (is_refusal e) →
        print_step (program_of functions.now) (string_bytes function.now.name.text) (context_of scope.now) (tree_of expr.now) ≡ None) }
{
    if function.name.text.as_str() != "main" {
        return Err(CheckError::PrintOutsideMain(span));
    }
    let typing = check_expr(alloc, functions, scope, expr)?;
    if has_reference(&typing.kind) {
        return Err(CheckError::WrongType(expr.span));
    }
    Ok(CheckedStatement::Print(typing.expr))
}

/// A statement, and the scope after it.
#[cycle(statements)]
fn check_statement(
    alloc: Global,
    functions: &[Function],
    function: &Function,
    scope: &mut Vec<Variable>,
    statement: &Statement,
) -> Result<CheckedStatement, CheckError>
    ensures value { IfOk result (λ s.
        step_of (program_of functions.now) (parsed_function function.now) (parsed_statement statement.now) (context_of scope.old.items)
        ≡ Some (record { stmt = statement_of s; after = context_of scope.new.items })) }
    ensures refused { IfErr result (λ e. IsTrue (is_refusal e) →
        step_of (program_of functions.now) (parsed_function function.now) (parsed_statement statement.now) (context_of scope.old.items) ≡ None) }
{
    match statement {
        Statement::Let(name, expr) => check_let(alloc, functions, scope, name, expr),
        Statement::LetCall(name, others, called, arguments) => {
            check_let_call(alloc, functions, scope, name, others, called, arguments)
        }
        Statement::LetRemote(name, others, retries, called, arguments) => {
            check_let_remote(
                alloc, functions, scope, name, others, *retries, called, arguments,
            )
        }
        Statement::Set(name, expr) => check_set(alloc, functions, scope, name, expr),
        Statement::If(condition, first, second) => {
            let condition = check_number(alloc, functions, scope, condition)?;
            let first = check_block(alloc, functions, function, scope, &first.statements)?;
            let second = check_else(alloc, functions, function, scope, second)?;
            Ok(CheckedStatement::If(condition, first, second))
        }
        Statement::For(name, from, to, body) => {
            check_fresh(scope, name)?;
            let from = check_number(alloc, functions, scope, from)?;
            let to = check_number(alloc, functions, scope, to)?;
            let body = check_turn(alloc, functions, function, scope, name, &body.statements)?;
            Ok(CheckedStatement::For(name.text.clone()?, from, to, body))
        }
        Statement::Print(span, expr) => {
            check_print(alloc, functions, function, scope, *span, expr)
        }
        Statement::Return(span, expr, others) => {
            check_return(alloc, functions, function, scope, *span, expr, others)
        }
    }
}

/// A block, whose variables go out of scope at its end.
#[cycle(statements)]
pub(crate) fn check_block(
    alloc: Global,
    functions: &[Function],
    function: &Function,
    scope: &mut Vec<Variable>,
    statements: &[Statement],
) -> Result<CheckedBlock, CheckError>
    ensures value { IfOk result (λ b.
        block_from (program_of functions.now) (parsed_function function.now) (parsed_statements statements.now) (context_of scope.old.items)
        ≡ Some (block_of b)) }
    ensures same { OnOk result (context_of scope.new.items ≡ context_of scope.old.items) }
    ensures refused { IfErr result (λ e. IsTrue (is_refusal e) →
        block_from (program_of functions.now) (parsed_function function.now) (parsed_statements statements.now) (context_of scope.old.items) ≡ None) }
{
    let outer = scope.len();
    let block = check_statements(alloc, functions, function, scope, statements)?;
    scope.truncate(outer);
    Ok(block)
}

/// What stands after `else`; an empty block where nothing does.
#[cycle(statements)]
fn check_else(
    alloc: Global,
    functions: &[Function],
    function: &Function,
    scope: &mut Vec<Variable>,
    second: &Option<Block>,
) -> Result<CheckedBlock, CheckError>
    ensures value { IfOk result (λ b. else_from (program_of functions.now) (parsed_function function.now) (other_of second.now) (context_of scope.old.items)
        ≡ Some (block_of b)) }
    ensures same { OnOk result (context_of scope.new.items ≡ context_of scope.old.items) }
    ensures refused { IfErr result (λ e. IsTrue (is_refusal e) →
        else_from (program_of functions.now) (parsed_function function.now) (other_of second.now) (context_of scope.old.items) ≡ None) }
{
    match second {
        None => {
            let statements = Vec::new(alloc);
            Ok(CheckedBlock { statements })
        }
        Some(block) => check_block(alloc, functions, function, scope, &block.statements),
    }
}

/// A loop's body, with the loop's name in scope.
#[cycle(statements)]
fn check_turn(
    alloc: Global,
    functions: &[Function],
    function: &Function,
    scope: &mut Vec<Variable>,
    name: &Name,
    statements: &[Statement],
) -> Result<CheckedBlock, CheckError>
    ensures value { IfOk result (λ b.
        block_from (program_of functions.now) (parsed_function function.now) (parsed_statements statements.now) (context_of scope.old.items
        ++ variable (string_bytes name.now.text) ANumber) ≡ Some (block_of b)) }
    ensures same { OnOk result (context_of scope.new.items ≡ context_of scope.old.items) }
    ensures refused { IfErr result (λ e. IsTrue (is_refusal e) →
        block_from (program_of functions.now) (parsed_function function.now) (parsed_statements statements.now) (context_of scope.old.items
        ++ variable (string_bytes name.now.text) ANumber) ≡ None) }
{
    let outer = scope.len();
    declare(scope, name, ValueType::Int)?;
    let block = check_statements(alloc, functions, function, scope, statements)?;
    scope.truncate(outer);
    Ok(block)
}

/// Statements in order, and the scope after the last.
#[cycle(statements)]
fn check_statements(
    alloc: Global,
    functions: &[Function],
    function: &Function,
    scope: &mut Vec<Variable>,
    statements: &[Statement],
) -> Result<CheckedBlock, CheckError>
    ensures value { IfOk result (λ b.
        steps_of (program_of functions.now) (parsed_function function.now) (parsed_statements statements.now) (context_of scope.old.items)
        ≡ Some (record { block = block_of b; after = context_of scope.new.items })) }
    ensures refused { IfErr result (λ e. IsTrue (is_refusal e) →
        steps_of (program_of functions.now) (parsed_function function.now) (parsed_statements statements.now) (context_of scope.old.items) ≡ None) }
{
    let mut checked = Vec::new(alloc);
    for statement in statements {
        let statement = check_statement(alloc, functions, function, scope, statement)?;
        checked.push(statement)?;
    }
    let statements = checked;
    Ok(CheckedBlock { statements })
}

/// Whether no way through a statement passes by without a return.
#[cycle(returns)]
fn returns(statement: &Statement) -> bool
    ensures { result ≡ returns (parsed_statement statement.now) }
{
    match statement {
        Statement::Return(_, _, _) => true,
        Statement::If(_, first, second) => {
            if !block_returns(&first.statements) {
                return false;
            }
            else_returns(second)
        }
        _ => false,
    }
}

/// Whether there is an `else`, and its block returns on each way through it.
#[cycle(returns)]
fn else_returns(second: &Option<Block>) -> bool
    ensures { result ≡ else_returns (other_of second.now) }
{
    match second {
        None => false,
        Some(block) => block_returns(&block.statements),
    }
}

/// Whether one of a block's statements returns.
#[cycle(returns)]
pub(crate) fn block_returns(statements: &[Statement]) -> bool
    ensures { result ≡ block_returns (parsed_statements statements.now) }
{
    for statement in statements {
        if returns(statement) {
            return true;
        }
    }
    false
}
