// The places of an expression's instructions: its own is the last, behind those that work out its parts.

ghost use Rattle.std.specs.Prelude.{◌≡◌, ◌++◌, OnOk};
ghost use Rattle.code_places.specs.Places.{is_worked_out, parts_places, expr_places, exprs_places, operand_places};

use script_syntax::{Expr, ExprKind, Span};
use std::alloc::AllocError;

/// Whether as an operand it is worked out before, as anything but a number or a variable.
fn is_worked_out(kind: &ExprKind) -> bool
    ensures { result ≡ is_worked_out kind.now }
{
    match kind {
        ExprKind::Int(_) => false,
        ExprKind::Variable(_) => false,
        ExprKind::Prefixed(_, _) => true,
        ExprKind::Binary(_, _, _) => true,
        ExprKind::Index(_, _) => true,
        ExprKind::List(_) => true,
        ExprKind::Empty(_) => true,
        ExprKind::Call(_, _) => true,
        ExprKind::Remote(_, _, _) => true,
        ExprKind::Len(_) => true,
        ExprKind::Push(_, _) => true,
    }
}

/// What works out the parts of an expression.
#[cycle(expressions)]
fn add_parts(places: &mut Vec<Span>, expr: &Expr) -> Result<(), AllocError>
    ensures { OnOk result (places.new.items ≡ places.old.items ++ parts_places expr.now.kind) }
{
    match &expr.kind {
        ExprKind::Int(_) => Ok(()),
        ExprKind::Variable(_) => Ok(()),
        ExprKind::Prefixed(_, operand) => add_operand(places, operand),
        ExprKind::Binary(_, left, right) => {
            add_operand(places, left)?;
            add_operand(places, right)
        }
        ExprKind::Index(list, index) => {
            add_operand(places, list)?;
            add_operand(places, index)
        }
        ExprKind::List(items) => add_exprs(places, items),
        ExprKind::Empty(_) => Ok(()),
        ExprKind::Call(_, arguments) => add_exprs(places, arguments),
        ExprKind::Remote(_, _, arguments) => add_exprs(places, arguments),
        ExprKind::Len(list) => add_operand(places, list),
        ExprKind::Push(list, item) => {
            add_operand(places, list)?;
            add_operand(places, item)
        }
    }
}

/// What works out an expression.
#[cycle(expressions)]
pub(crate) fn add_expr(places: &mut Vec<Span>, expr: &Expr) -> Result<(), AllocError>
    ensures { OnOk result (places.new.items ≡ places.old.items ++ expr_places expr.now) }
{
    add_parts(places, expr)?;
    places.push(expr.span)?;
    Ok(())
}

/// What works out an operand: nothing where it is a number or a variable.
#[cycle(expressions)]
pub(crate) fn add_operand(places: &mut Vec<Span>, expr: &Expr) -> Result<(), AllocError>
    ensures { OnOk result (places.new.items ≡ places.old.items ++ operand_places expr.now) }
{
    if !is_worked_out(&expr.kind) {
        return Ok(());
    }
    add_expr(places, expr)
}

/// What works out expressions, one after another.
#[cycle(expressions)]
pub(crate) fn add_exprs(places: &mut Vec<Span>, exprs: &[Expr]) -> Result<(), AllocError>
    ensures { OnOk result (places.new.items ≡ places.old.items ++ exprs_places exprs.now) }
{
    for expr in exprs {
        add_expr(places, expr)?;
    }
    Ok(())
}
