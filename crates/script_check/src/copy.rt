// Equal copies of the parts of a checked script.

ghost use Rattle.std.specs.Prelude.{◌≡◌, IfOk, map, string_bytes};
ghost use Rattle.meaning.specs.Syntax.{LetRemote};
ghost use Rattle.script_check.specs.Trees.{expr_of, exprs_of, statement_of, statements_of, block_of, parameter_of, function_of, script_of};

use crate::tree::{CheckedBlock, CheckedExpr, CheckedFunction, CheckedParameter, CheckedStatement};
use crate::types::{copy_type, copy_types};
use std::alloc::{AllocError, Global};

/// An equal expression.
#[cycle(copies)]
fn copy_expr(alloc: Global, expr: &CheckedExpr) -> Result<CheckedExpr, AllocError>
    ensures { IfOk result (λ c. expr_of c ≡ expr_of expr.now) }
{
    match expr {
        CheckedExpr::Int(n) => Ok(CheckedExpr::Int(*n)),
        CheckedExpr::Variable(name) => Ok(CheckedExpr::Variable(name.clone()?)),
        CheckedExpr::Unary(operator, operand) => {
            let operand = copy_expr(alloc, operand)?;
            Ok(CheckedExpr::Unary(*operator, Box::new(alloc, operand)?))
        }
        CheckedExpr::Binary(operator, left, right) => {
            let left = Box::new(alloc, copy_expr(alloc, left)?)?;
            let right = Box::new(alloc, copy_expr(alloc, right)?)?;
            Ok(CheckedExpr::Binary(*operator, left, right))
        }
        CheckedExpr::List(items) => Ok(CheckedExpr::List(copy_exprs(alloc, items)?)),
        CheckedExpr::Empty(kind) => Ok(CheckedExpr::Empty(copy_type(alloc, kind)?)),
        CheckedExpr::Call(function, arguments) => {
            let arguments = copy_exprs(alloc, arguments)?;
            Ok(CheckedExpr::Call(function.clone()?, arguments))
        }
        CheckedExpr::Remote(retries, function, marks, arguments) => {
            let arguments = copy_exprs(alloc, arguments)?;
            let marks = Vec::from_slice(alloc, marks)?;
            Ok(CheckedExpr::Remote(*retries, function.clone()?, marks, arguments))
        }
        CheckedExpr::Put(value) => {
            let value = copy_expr(alloc, value)?;
            Ok(CheckedExpr::Put(Box::new(alloc, value)?))
        }
        CheckedExpr::Get(kind, reference) => {
            let kind = copy_type(alloc, kind)?;
            let reference = copy_expr(alloc, reference)?;
            Ok(CheckedExpr::Get(kind, Box::new(alloc, reference)?))
        }
    }
}

/// Equal expressions.
#[cycle(copies)]
fn copy_exprs(alloc: Global, exprs: &[CheckedExpr]) -> Result<Vec<CheckedExpr>, AllocError>
    ensures { IfOk result (λ cs. exprs_of cs.items ≡ exprs_of exprs.now) }
{
    let mut copies = Vec::new(alloc);
    for expr in exprs {
        copies.push(copy_expr(alloc, expr)?)?;
    }
    Ok(copies)
}

/// Equal names.
fn copy_names(alloc: Global, names: &[String]) -> Result<Vec<String>, AllocError>
    ensures { IfOk result (λ xs. map string_bytes xs.items ≡ map string_bytes names.now) }
{
    let mut copies = Vec::new(alloc);
    for name in names {
        copies.push(name.clone()?)?;
    }
    Ok(copies)
}

/// An equal `let` of several names over a remote call.
fn copy_let_remote(
    alloc: Global,
    name: &String,
    others: &[String],
    retries: u8,
    function: &String,
    marks: &[bool],
    arguments: &[CheckedExpr],
) -> Result<CheckedStatement, AllocError>
    ensures { IfOk result (λ c. statement_of c ≡ LetRemote (string_bytes name.now) (map string_bytes others.now) retries (string_bytes function.now) marks.now
        (exprs_of arguments.now)) }
{
    let name = name.clone()?;
    let others = copy_names(alloc, others)?;
    let function = function.clone()?;
    let marks = Vec::from_slice(alloc, marks)?;
    let arguments = copy_exprs(alloc, arguments)?;
    Ok(CheckedStatement::LetRemote(name, others, retries, function, marks, arguments))
}

/// An equal statement.
#[cycle(block_copies)]
fn copy_statement(
    alloc: Global,
    statement: &CheckedStatement,
) -> Result<CheckedStatement, AllocError>
    ensures { IfOk result (λ c. statement_of c ≡ statement_of statement.now) }
{
    match statement {
        CheckedStatement::Let(name, expr) => {
            let expr = copy_expr(alloc, expr)?;
            Ok(CheckedStatement::Let(name.clone()?, expr))
        }
        CheckedStatement::LetCall(name, others, function, arguments) => {
            let others = copy_names(alloc, others)?;
            let arguments = copy_exprs(alloc, arguments)?;
            let function = function.clone()?;
            Ok(CheckedStatement::LetCall(name.clone()?, others, function, arguments))
        }
        CheckedStatement::LetRemote(name, others, retries, function, marks, arguments) => {
            copy_let_remote(alloc, name, others, *retries, function, marks, arguments)
        }
        CheckedStatement::Set(name, expr) => {
            let expr = copy_expr(alloc, expr)?;
            Ok(CheckedStatement::Set(name.clone()?, expr))
        }
        CheckedStatement::Print(expr) => Ok(CheckedStatement::Print(copy_expr(alloc, expr)?)),
        CheckedStatement::Return(exprs) => Ok(CheckedStatement::Return(copy_exprs(alloc, exprs)?)),
        CheckedStatement::If(condition, first, second) => {
            let condition = copy_expr(alloc, condition)?;
            let first = copy_block(alloc, &first.statements)?;
            let second = copy_block(alloc, &second.statements)?;
            Ok(CheckedStatement::If(condition, first, second))
        }
        CheckedStatement::For(name, from, to, body) => {
            let from = copy_expr(alloc, from)?;
            let to = copy_expr(alloc, to)?;
            let body = copy_block(alloc, &body.statements)?;
            Ok(CheckedStatement::For(name.clone()?, from, to, body))
        }
    }
}

/// An equal block.
#[cycle(block_copies)]
fn copy_block(alloc: Global, statements: &[CheckedStatement]) -> Result<CheckedBlock, AllocError>
    ensures { IfOk result (λ b. block_of b ≡ statements_of statements.now) }
{
    let mut copies = Vec::new(alloc);
    for statement in statements {
        copies.push(copy_statement(alloc, statement)?)?;
    }
    let statements = copies;
    Ok(CheckedBlock { statements })
}

/// Equal parameters.
fn copy_parameters(
    alloc: Global,
    parameters: &[CheckedParameter],
) -> Result<Vec<CheckedParameter>, AllocError>
    ensures { IfOk result (λ ps. map parameter_of ps.items ≡ map parameter_of parameters.now) }
{
    let mut copies = Vec::new(alloc);
    for parameter in parameters {
        let name = parameter.name.clone()?;
        let kind = copy_type(alloc, &parameter.kind)?;
        copies.push(CheckedParameter { name, kind })?;
    }
    Ok(copies)
}

/// An equal function.
fn copy_function(alloc: Global, function: &CheckedFunction) -> Result<CheckedFunction, AllocError>
    ensures { IfOk result (λ f. function_of f ≡ function_of function.now) }
{
    let name = function.name.clone()?;
    let parameters = copy_parameters(alloc, &function.parameters)?;
    let result = copy_type(alloc, &function.result)?;
    let others = copy_types(alloc, &function.others)?;
    let body = copy_block(alloc, &function.body.statements)?;
    Ok(CheckedFunction {
        name,
        parameters,
        result,
        others,
        body,
    })
}

/// The same functions, in memory of their own. The one error is want of memory.
pub(crate) fn copy_functions(
    alloc: Global,
    functions: &[CheckedFunction],
) -> Result<Vec<CheckedFunction>, AllocError>
    ensures { IfOk result (λ fs. script_of fs.items ≡ script_of functions.now) }
{
    let mut copies = Vec::new(alloc);
    for function in functions {
        copies.push(copy_function(alloc, function)?)?;
    }
    Ok(copies)
}
