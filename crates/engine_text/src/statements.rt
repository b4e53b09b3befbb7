// Statements, each on lines of its own behind a margin.

ghost use Rattle.std.specs.Prelude.{◌≡◌, ◌++◌, false, map, IfOk, OnOk, string_bytes};
ghost use Rattle.std.specs.List.{flat_map};
ghost use Rattle.script_check.specs.Trees.{expr_of, exprs_of, statement_of, statements_of};
ghost use Rattle.engine_text.specs.Expressions.{variable_name};
ghost use Rattle.engine_text.specs.Statements.{assignment_text, block_text, bounds_text, deeper, else_text, lines_text, loop_head, loop_name, statement_text, word_text};
ghost use Rattle.engine_text.specs.Statements.{other_name, references_text, results_text, return_text, values_text};

use crate::calls::{separate, write_call_head, write_remote_all_head, write_variable_name};
use crate::expressions::{write_arguments, write_expression, write_marked};
use script_check::{CheckedExpr, CheckedStatement};
use std::alloc::{AllocError, Global};

/// The margin of a block that stands in a statement with this one.
fn deeper(alloc: Global, margin: &str) -> Result<String, AllocError>
    ensures { IfOk result (λ m. string_bytes m ≡ deeper margin.now) }
{
    let mut deep = String::new(alloc);
    deep.push_str(margin)?;
    deep.push_str("    ")?;
    Ok(deep)
}

fn write_assignment(
    text: &mut String,
    margin: &str,
    name: &str,
    expr: &CheckedExpr,
) -> Result<(), AllocError>
    ensures { OnOk result (string_bytes text.new ≡ string_bytes text.old ++ assignment_text margin.now name.now (expr_of expr.now)) }
{
    text.push_str(margin)?;
    write_variable_name(text, name)?;
    text.push_str(" = ")?;
    write_expression(text, expr)?;
    text.push_str("\n")
}

/// Names, with a comma between two.
fn write_names(text: &mut String, first: &str, others: &[String]) -> Result<(), AllocError>
    ensures { OnOk result (string_bytes text.new ≡
        string_bytes text.old ++ (variable_name first.now ++ flat_map other_name (map string_bytes others.now))) }
{
    write_variable_name(text, first)?;
    for other in others {
        text.push_str(", ")?;
        write_variable_name(text, other.as_str())?;
    }
    Ok(())
}

/// A line that gives names the results of a call.
fn write_results(
    text: &mut String,
    margin: &str,
    first: &str,
    others: &[String],
    function: &str,
    arguments: &[CheckedExpr],
) -> Result<(), AllocError>
    ensures { OnOk result (string_bytes text.new ≡
        string_bytes text.old ++ results_text margin.now first.now (map string_bytes others.now) function.now (exprs_of arguments.now)) }
{
    text.push_str(margin)?;
    write_names(text, first, others)?;
    text.push_str(" = ")?;
    write_call_head(text, function)?;
    write_arguments(text, arguments)?;
    text.push_str("\n")
}

/// A line that gives names the references of a remote call.
fn write_references(
    text: &mut String,
    margin: &str,
    first: &str,
    others: &[String],
    retries: u8,
    function: &str,
    marks: &[bool],
    arguments: &[CheckedExpr],
) -> Result<(), AllocError>
    ensures { OnOk result (string_bytes text.new ≡ string_bytes text.old
        ++ references_text margin.now first.now (map string_bytes others.now) retries function.now marks.now (exprs_of arguments.now)) }
{
    text.push_str(margin)?;
    write_names(text, first, others)?;
    text.push_str(" = ")?;
    write_remote_all_head(text, others.len(), retries, function)?;
    write_marked(text, marks, arguments)?;
    text.push_str("\n")
}

/// Values, with a comma between two, and the line's end.
fn write_values(text: &mut String, values: &[CheckedExpr]) -> Result<(), AllocError>
    ensures { OnOk result (string_bytes text.new ≡ string_bytes text.old ++ values_text false (exprs_of values.now)) }
{
    let mut later = false;
    for value in values {
        separate(text, later)?;
        write_expression(text, value)?;
        later = true;
    }
    text.push_str("\n")
}

fn write_return(text: &mut String, margin: &str, values: &[CheckedExpr]) -> Result<(), AllocError>
    ensures { OnOk result (string_bytes text.new ≡ string_bytes text.old ++ return_text margin.now (exprs_of values.now)) }
{
    text.push_str(margin)?;
    text.push_str("return ")?;
    write_values(text, values)
}

/// A line of a word, an expression and an end.
fn write_word(
    text: &mut String,
    margin: &str,
    word: &str,
    expr: &CheckedExpr,
    end: &str,
) -> Result<(), AllocError>
    ensures { OnOk result (string_bytes text.new ≡ string_bytes text.old ++ word_text margin.now word.now (expr_of expr.now) end.now) }
{
    text.push_str(margin)?;
    text.push_str(word)?;
    write_expression(text, expr)?;
    text.push_str(end)
}

fn write_loop_name(text: &mut String, name: &str) -> Result<(), AllocError>
    ensures { OnOk result (string_bytes text.new ≡ string_bytes text.old ++ loop_name name.now) }
{
    text.push_str("for ")?;
    write_variable_name(text, name)?;
    text.push_str(" in turns(")
}

fn write_bounds(text: &mut String, from: &CheckedExpr, to: &CheckedExpr) -> Result<(), AllocError>
    ensures { OnOk result (string_bytes text.new ≡ string_bytes text.old ++ bounds_text (expr_of from.now) (expr_of to.now)) }
{
    write_expression(text, from)?;
    text.push_str(", ")?;
    write_expression(text, to)?;
    text.push_str("):\n")
}

fn write_loop_head(
    text: &mut String,
    margin: &str,
    name: &str,
    from: &CheckedExpr,
    to: &CheckedExpr,
) -> Result<(), AllocError>
    ensures { OnOk result
        (string_bytes text.new ≡ string_bytes text.old ++ loop_head margin.now name.now (expr_of from.now) (expr_of to.now)) }
{
    text.push_str(margin)?;
    write_loop_name(text, name)?;
    write_bounds(text, from, to)
}

/// Writes a statement's lines in Python, each behind that margin.
#[cycle(statements)]
fn write_statement(
    alloc: Global,
    text: &mut String,
    margin: &str,
    statement: &CheckedStatement,
) -> Result<(), AllocError>
    ensures { OnOk result (string_bytes text.new ≡ string_bytes text.old ++ statement_text margin.now (statement_of statement.now)) }
{
    match statement {
        CheckedStatement::Let(name, expr) => write_assignment(text, margin, name.as_str(), expr),
        CheckedStatement::LetCall(name, others, function, arguments) => {
            write_results(
                text,
                margin,
                name.as_str(),
                others,
                function.as_str(),
                arguments,
            )
        }
        CheckedStatement::LetRemote(name, others, retries, function, marks, arguments) => {
            write_references(
                text,
                margin,
                name.as_str(),
                others,
                *retries,
                function.as_str(),
                marks,
                arguments,
            )
        }
        CheckedStatement::Set(name, expr) => write_assignment(text, margin, name.as_str(), expr),
        CheckedStatement::Print(expr) => write_word(text, margin, "show(", expr, ")\n"),
        CheckedStatement::Return(values) => write_return(text, margin, values),
        CheckedStatement::If(condition, first, second) => {
            write_word(text, margin, "if ", condition, ":\n")?;
            write_block(alloc, text, margin, &first.statements)?;
            write_else(alloc, text, margin, &second.statements)
        }
        CheckedStatement::For(name, from, to, body) => {
            write_loop_head(text, margin, name.as_str(), from, to)?;
            write_block(alloc, text, margin, &body.statements)
        }
    }
}

/// Statements one after another.
#[cycle(statements)]
fn write_lines(
    alloc: Global,
    text: &mut String,
    margin: &str,
    statements: &[CheckedStatement],
) -> Result<(), AllocError>
    ensures { OnOk result (string_bytes text.new ≡ string_bytes text.old ++ lines_text margin.now (statements_of statements.now)) }
{
    for statement in statements {
        write_statement(alloc, text, margin, statement)?;
    }
    Ok(())
}

/// Writes the block that stands in a statement with this margin. Python wants a line where there is no statement.
#[cycle(statements)]
pub(crate) fn write_block(
    alloc: Global,
    text: &mut String,
    margin: &str,
    statements: &[CheckedStatement],
) -> Result<(), AllocError>
    ensures { OnOk result (string_bytes text.new ≡ string_bytes text.old ++ block_text margin.now (statements_of statements.now)) }
{
    let margin = deeper(alloc, margin)?;
    if statements.is_empty() {
        text.push_str(margin.as_str())?;
        return text.push_str("pass\n");
    }
    write_lines(alloc, text, margin.as_str(), statements)
}

/// What is done where a condition is 0, if anything is.
#[cycle(statements)]
fn write_else(
    alloc: Global,
    text: &mut String,
    margin: &str,
    statements: &[CheckedStatement],
) -> Result<(), AllocError>
    ensures { OnOk result (string_bytes text.new ≡ string_bytes text.old ++ else_text margin.now (statements_of statements.now)) }
{
    if statements.is_empty() {
        return Ok(());
    }
    text.push_str(margin)?;
    text.push_str("else:\n")?;
    write_block(alloc, text, margin, statements)
}
