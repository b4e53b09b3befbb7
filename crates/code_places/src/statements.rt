// The places of the instructions of statements.

ghost use Rattle.std.specs.Prelude.{◌≡◌, ◌++◌, OnOk};
ghost use Rattle.code_places.specs.Places.{
  call_places,
  enclosed_places,
  last_places,
  last_span,
  operands_places,
  over,
  return_places,
  statement_places,
  statements_places,
};

use crate::expressions::{add_expr, add_exprs, add_operand};
use script_syntax::{Expr, Span, Statement};
use std::alloc::AllocError;

/// From where the first begins to where the second ends.
fn over(first: Span, second: Span) -> Span
    ensures { result ≡ over first second }
{
    Span {
        start: first.start,
        end: second.end,
    }
}

/// Adds the place of each instruction that a statement is made to, in their order.
#[cycle(statements)]
fn add_statement(places: &mut Vec<Span>, statement: &Statement) -> Result<(), AllocError>
    ensures { OnOk result (places.new.items ≡ places.old.items ++ statement_places statement.now) }
{
    match statement {
        Statement::Let(_, expr) => add_expr(places, expr),
        Statement::LetCall(_, _, function, arguments) => {
            add_call(places, function.span, arguments)
        }
        Statement::LetRemote(_, _, _, function, arguments) => {
            add_call(places, function.span, arguments)
        }
        Statement::Set(_, expr) => add_expr(places, expr),
        Statement::If(condition, first, second) => {
            add_operand(places, condition)?;
            add_enclosed(places, condition.span, &first.statements)?;
            let Some(second) = second else {
                return Ok(());
            };
            add_statements(places, &second.statements)
        }
        Statement::For(_, from, to, body) => {
            add_expr(places, from)?;
            add_expr(places, to)?;
            add_enclosed(places, over(from.span, to.span), &body.statements)
        }
        Statement::Print(word, expr) => add_last(places, *word, expr),
        Statement::Return(word, expr, others) => add_return(places, *word, expr, others),
    }
}

/// What is done with a value, behind the word that says so.
fn add_last(places: &mut Vec<Span>, word: Span, expr: &Expr) -> Result<(), AllocError>
    ensures { OnOk result (places.new.items ≡ places.old.items ++ last_places word expr.now) }
{
    add_operand(places, expr)?;
    places.push(over(word, expr.span))?;
    Ok(())
}

/// A call whose results get names.
fn add_call(places: &mut Vec<Span>, name: Span, arguments: &[Expr]) -> Result<(), AllocError>
    ensures { OnOk result (places.new.items ≡ places.old.items ++ call_places name arguments.now) }
{
    add_exprs(places, arguments)?;
    places.push(name)?;
    Ok(())
}

/// Where the last of the others stands, or what stands before them.
fn last_span(first: Span, others: &[Expr]) -> Span
    ensures { result ≡ last_span first others.now }
{
    let mut last = first;
    for expr in others {
        last = expr.span;
    }
    last
}

/// Operands, one after another.
fn add_operands(places: &mut Vec<Span>, exprs: &[Expr]) -> Result<(), AllocError>
    ensures { OnOk result (places.new.items ≡ places.old.items ++ operands_places exprs.now) }
{
    for expr in exprs {
        add_operand(places, expr)?;
    }
    Ok(())
}

/// A return's values, and then the return.
fn add_return(
    places: &mut Vec<Span>,
    word: Span,
    expr: &Expr,
    others: &[Expr],
) -> Result<(), AllocError>
    ensures { OnOk result (places.new.items ≡ places.old.items ++ return_places word expr.now others.now) }
{
    add_operand(places, expr)?;
    add_operands(places, others)?;
    places.push(over(word, last_span(expr.span, others)))?;
    Ok(())
}

/// A block between two instructions that stand at one place.
#[cycle(statements)]
fn add_enclosed(places: &mut Vec<Span>, span: Span, body: &[Statement]) -> Result<(), AllocError>
    ensures { OnOk result (places.new.items ≡ places.old.items ++ enclosed_places span (statements_places body.now)) }
{
    places.push(span)?;
    add_statements(places, body)?;
    places.push(span)?;
    Ok(())
}

/// Adds the places of the instructions of statements, in order.
#[cycle(statements)]
pub(crate) fn add_statements(
    places: &mut Vec<Span>,
    statements: &[Statement],
) -> Result<(), AllocError>
    ensures { OnOk result (places.new.items ≡ places.old.items ++ statements_places statements.now) }
{
    for statement in statements {
        add_statement(places, statement)?;
    }
    Ok(())
}
