// How a script's expressions are written in Python, for any engine.

ghost use Rattle.std.specs.Prelude.{◌≡◌, ◌++◌, false, OnOk, string_bytes};
ghost use Rattle.script_check.specs.Trees.{expr_of, exprs_of};
ghost use Rattle.engine_text.specs.Expressions.{after_comma, argument_text, arguments_text, expression_text, in_parentheses, items_text, list_text, marked_text};

use crate::calls::{
    is_first_marked, later_marks, operation, prefix_operation, separate, write_call_head,
    write_remote_head, write_variable_name,
};
use itoa::Buffer;
use script_check::CheckedExpr;
use std::alloc::AllocError;

/// Writes an expression in Python, its operators as calls of functions that stand in front of the script's own.
#[cycle(expressions)]
pub(crate) fn write_expression(text: &mut String, expr: &CheckedExpr) -> Result<(), AllocError>
    ensures { OnOk result (string_bytes text.new ≡ string_bytes text.old ++ expression_text (expr_of expr.now)) }
{
    match expr {
        CheckedExpr::Int(number) => text.push_str(Buffer::new().format(*number)),
        CheckedExpr::Variable(name) => write_variable_name(text, name.as_str()),
        CheckedExpr::Unary(operator, value) => {
            text.push_str(prefix_operation(*operator))?;
            write_operand(text, value)
        }
        CheckedExpr::Binary(operator, left, right) => {
            text.push_str(operation(*operator))?;
            text.push_str("(")?;
            write_expression(text, left)?;
            text.push_str(", ")?;
            write_expression(text, right)?;
            text.push_str(")")
        }
        CheckedExpr::List(items) => write_list(text, items),
        CheckedExpr::Empty(_) => text.push_str("[]"),
        CheckedExpr::Call(function, arguments) => {
            write_call_head(text, function.as_str())?;
            write_arguments(text, arguments)
        }
        CheckedExpr::Remote(retries, function, marks, arguments) => {
            write_remote_head(text, *retries, function.as_str())?;
            write_marked(text, marks, arguments)
        }
        CheckedExpr::Put(value) => {
            text.push_str("put")?;
            write_operand(text, value)
        }
        CheckedExpr::Get(_, reference) => {
            text.push_str("get")?;
            write_operand(text, reference)
        }
    }
}

/// An operand in parentheses.
#[cycle(expressions)]
fn write_operand(text: &mut String, expr: &CheckedExpr) -> Result<(), AllocError>
    ensures { OnOk result (string_bytes text.new ≡ string_bytes text.old ++ in_parentheses (expression_text (expr_of expr.now))) }
{
    text.push_str("(")?;
    write_expression(text, expr)?;
    text.push_str(")")
}

#[cycle(expressions)]
fn write_list(text: &mut String, items: &[CheckedExpr]) -> Result<(), AllocError>
    ensures { OnOk result (string_bytes text.new ≡ string_bytes text.old ++ list_text (exprs_of items.now)) }
{
    text.push_str("[")?;
    write_items(text, items)
}

/// The items of a list, with a comma between two, and the list's end.
#[cycle(expressions)]
fn write_items(text: &mut String, items: &[CheckedExpr]) -> Result<(), AllocError>
    ensures { OnOk result (string_bytes text.new ≡ string_bytes text.old ++ items_text false (exprs_of items.now)) }
{
    let mut later = false;
    for item in items {
        separate(text, later)?;
        write_expression(text, item)?;
        later = true;
    }
    text.push_str("]")
}

/// An expression after a comma.
#[cycle(expressions)]
fn write_further(text: &mut String, expr: &CheckedExpr) -> Result<(), AllocError>
    ensures { OnOk result (string_bytes text.new ≡ string_bytes text.old ++ after_comma (expression_text (expr_of expr.now))) }
{
    text.push_str(", ")?;
    write_expression(text, expr)
}

/// The arguments of a plain call, each after a comma, and the end of the call.
#[cycle(expressions)]
pub(crate) fn write_arguments(
    text: &mut String,
    arguments: &[CheckedExpr],
) -> Result<(), AllocError>
    ensures { OnOk result (string_bytes text.new ≡ string_bytes text.old ++ arguments_text (exprs_of arguments.now)) }
{
    for argument in arguments {
        write_further(text, argument)?;
    }
    text.push_str(")")
}

/// An argument of a remote call, which may be marked, after a comma.
#[cycle(expressions)]
fn write_argument(text: &mut String, marked: bool, argument: &CheckedExpr) -> Result<(), AllocError>
    ensures { OnOk result (string_bytes text.new ≡ string_bytes text.old ++ argument_text marked (expression_text (expr_of argument.now))) }
{
    if !marked {
        return write_further(text, argument);
    }
    text.push_str(", marked")?;
    write_operand(text, argument)
}

/// The arguments of a remote call, each after a comma, and the end of the call.
#[cycle(expressions)]
pub(crate) fn write_marked(
    text: &mut String,
    marks: &[bool],
    arguments: &[CheckedExpr],
) -> Result<(), AllocError>
    ensures { OnOk result (string_bytes text.new ≡ string_bytes text.old ++ marked_text marks.now (exprs_of arguments.now)) }
{
    let mut left = marks;
    for argument in arguments {
        write_argument(text, is_first_marked(left), argument)?;
        left = later_marks(left);
    }
    text.push_str(")")
}
