// Names, and what stands around operands.

ghost use Rattle.std.specs.Prelude.{◌≡◌, ◌++◌, List, Bool, OnOk, drop, string_bytes};
ghost use Rattle.std.specs.Fmt.{decimal};
ghost use Rattle.script_check.specs.Trees.{operator_of, unary_of};
ghost use Rattle.engine_text.specs.Expressions.{call_head, function_name, is_first_marked, operation, prefix_operation, remote_all_head, remote_all_of, remote_head, separator, task_head, variable_name};

use itoa::Buffer;
use script_check::{Operator, UnaryOperator};
use std::alloc::AllocError;

/// The name of a function. No name of Python or of a variable begins so.
pub(crate) fn write_function_name(text: &mut String, name: &str) -> Result<(), AllocError>
    ensures { OnOk result (string_bytes text.new ≡ string_bytes text.old ++ function_name name.now) }
{
    text.push_str("fn_")?;
    text.push_str(name)
}

/// The name of a variable. No name of Python or of a function begins so.
pub(crate) fn write_variable_name(text: &mut String, name: &str) -> Result<(), AllocError>
    ensures { OnOk result (string_bytes text.new ≡ string_bytes text.old ++ variable_name name.now) }
{
    text.push_str("v_")?;
    text.push_str(name)
}

/// The Python function for an operator that stands before its operand.
pub(crate) fn prefix_operation(operator: UnaryOperator) -> &'static str
    ensures { result.now ≡ prefix_operation (unary_of operator) }
{
    match operator {
        UnaryOperator::Negate => "neg",
        UnaryOperator::Len => "len",
    }
}

/// The Python function for an operator of two operands.
pub(crate) fn operation(operator: Operator) -> &'static str
    ensures { result.now ≡ operation (operator_of operator) }
{
    match operator {
        Operator::Add => "add",
        Operator::Sub => "sub",
        Operator::Mul => "mul",
        Operator::Div => "div",
        Operator::Rem => "rem",
        Operator::Equal => "equal",
        Operator::NotEqual => "differ",
        Operator::Less => "less",
        Operator::LessEqual => "at_most",
        Operator::Item => "item",
        Operator::Push => "push",
    }
}

/// Writes what stands before an item of a list.
pub(crate) fn separate(text: &mut String, later: bool) -> Result<(), AllocError>
    ensures { OnOk result (string_bytes text.new ≡ string_bytes text.old ++ separator later) }
{
    if !later {
        return Ok(());
    }
    text.push_str(", ")
}

/// How a plain call begins.
pub(crate) fn write_call_head(text: &mut String, function: &str) -> Result<(), AllocError>
    ensures { OnOk result (string_bytes text.new ≡ string_bytes text.old ++ call_head function.now) }
{
    text.push_str("call(")?;
    write_function_name(text, function)?;
    text.push_str(", depth")
}

/// What a remote call's own part begins with: how many new runs it allows, and its function.
fn write_task_head(text: &mut String, retries: u8, function: &str) -> Result<(), AllocError>
    ensures { OnOk result (string_bytes text.new ≡ string_bytes text.old ++ task_head retries function.now) }
{
    text.push_str(Buffer::new().format(retries))?;
    text.push_str(", ")?;
    write_function_name(text, function)?;
    text.push_str(", depth")
}

/// How a remote call begins.
pub(crate) fn write_remote_head(
    text: &mut String,
    retries: u8,
    function: &str,
) -> Result<(), AllocError>
    ensures { OnOk result (string_bytes text.new ≡ string_bytes text.old ++ remote_head retries function.now) }
{
    text.push_str("remote(")?;
    write_task_head(text, retries, function)
}

fn write_number(text: &mut String, number: usize) -> Result<(), AllocError>
    ensures { OnOk result (string_bytes text.new ≡ string_bytes text.old ++ decimal number) }
{
    text.push_str(Buffer::new().format(number))
}

/// Writes that so many results beside the first are asked for.
#[tactic(auto, unfolding(crate::specs::Expressions::remote_all_of))]
fn write_remote_all_of(text: &mut String, others: usize) -> Result<(), AllocError>
    ensures { OnOk result (string_bytes text.new ≡ string_bytes text.old ++ remote_all_of others) }
{
    text.push_str("remote_all(")?;
    write_number(text, others)?;
    text.push_str(", ")
}

/// How a remote call begins of so many results beside the first.
pub(crate) fn write_remote_all_head(
    text: &mut String,
    others: usize,
    retries: u8,
    function: &str,
) -> Result<(), AllocError>
    ensures { OnOk result (string_bytes text.new ≡ string_bytes text.old ++ remote_all_head others retries function.now) }
{
    write_remote_all_of(text, others)?;
    write_task_head(text, retries, function)
}

/// Whether the first argument of those that are left is marked.
pub(crate) fn is_first_marked(marks: &[bool]) -> bool
    ensures { result ≡ is_first_marked marks.now }
{
    match marks {
        [first, ..] => *first,
        [] => false,
    }
}

/// The marks behind the first.
pub(crate) fn later_marks(marks: &[bool]) -> &[bool]
    ensures { result.now ≡ drop 1 marks.now }
{
    match marks {
        [_, later @ ..] => later,
        [] => marks,
    }
}
