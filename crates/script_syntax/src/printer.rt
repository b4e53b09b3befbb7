// How a program's tree is written as a text that is read as the same tree.

ghost use Rattle.std.specs.Prelude.{◌≡◌, ◌++◌, ◌∷◌, [], OnOk, IfOk, map};
ghost use Rattle.std.specs.String.{string_bytes};
ghost use Rattle.script_tokens.specs.Tokens.{name, mark};
ghost use Rattle.script_tokens.specs.declared.token.Mark.TheVariants as marks;
ghost use Rattle.script_tokens.specs.Spelling.{line_text, text_of_lines};
ghost use Rattle.script_syntax.specs.Expressions.{expression_before};
ghost use Rattle.script_syntax.specs.Grammar.{
  more_names_before,
  statement_before,
  statements_before,
  block_before,
  parameter_before,
  parameters_before,
  more_kinds_before,
  results_before,
  function_before,
};
ghost use Rattle.script_syntax.specs.Views.{name_of, type_of, tree_of, statement_of, statements_of, parameter_of, function_of, program_of};
ghost use Rattle.script_syntax.specs.Printing.{expression_of, written_statement, written_statements, written_function, printed_program};
ghost use Rattle.script_syntax.specs.Writing.{Writes};

use crate::tree::{Block, Expr, Function, Name, Parameter, Program, Statement, ValueType};
use crate::writer::{
    add_call, add_expression, add_mark, add_name, add_others, add_retries, add_type,
};
use script_tokens::{Mark, Token, write_line};
use std::alloc::{AllocError, Global};

/// `=`, an expression and a semicolon, after a mark and a name.
fn add_assignment<'p>(
    tokens: &mut Vec<Token<'p>>,
    sign: Mark,
    target: &'p Name,
    value: &'p Expr,
) -> Result<(), AllocError>
    ensures { OnOk result (Writes tokens.old.items tokens.new.items (λ rest. mark sign ∷ name (string_bytes target.entry.now.text) ∷ mark marks.Assign
        ∷ expression_before (expression_of (tree_of value.entry.now)) (mark marks.Semicolon ∷ rest))) }
{
    add_mark(tokens, sign)?;
    add_name(tokens, target)?;
    add_mark(tokens, Mark::Assign)?;
    add_expression(tokens, value)?;
    add_mark(tokens, Mark::Semicolon)?;
    Ok(())
}

/// Further names, each after a comma.
fn add_more_names<'p>(tokens: &mut Vec<Token<'p>>, others: &'p [Name]) -> Result<(), AllocError>
    ensures { OnOk result (Writes tokens.old.items tokens.new.items (λ rest. more_names_before (map name_of others.entry.now) rest)) }
{
    for other in others {
        add_mark(tokens, Mark::Comma)?;
        add_name(tokens, other)?;
    }
    Ok(())
}

/// `let`, names with commas between, and `=`.
fn add_names<'p>(
    tokens: &mut Vec<Token<'p>>,
    first: &'p Name,
    others: &'p [Name],
) -> Result<(), AllocError>
    ensures { OnOk result (Writes tokens.old.items tokens.new.items (λ rest. mark marks.Let ∷ name (string_bytes first.entry.now.text)
        ∷ more_names_before (map name_of others.entry.now) (mark marks.Assign ∷ rest))) }
{
    add_mark(tokens, Mark::Let)?;
    add_name(tokens, first)?;
    add_more_names(tokens, others)?;
    add_mark(tokens, Mark::Assign)?;
    Ok(())
}

#[cycle(writing)]
fn add_statement<'p>(
    tokens: &mut Vec<Token<'p>>,
    statement: &'p Statement,
) -> Result<(), AllocError>
    ensures { OnOk result (Writes tokens.old.items tokens.new.items (λ rest. statement_before (written_statement (statement_of statement.entry.now)) rest)) }
{
    match statement {
        Statement::Let(name, value) => {
            add_assignment(tokens, Mark::Let, name, value)?;
            Ok(())
        }
        Statement::LetCall(first, others, function, arguments) => {
            add_names(tokens, first, others)?;
            add_call(tokens, function, arguments)?;
            add_mark(tokens, Mark::Semicolon)?;
            Ok(())
        }
        Statement::LetRemote(first, others, retries, function, arguments) => {
            add_names(tokens, first, others)?;
            add_mark(tokens, Mark::Remote)?;
            add_retries(tokens, retries)?;
            add_call(tokens, function, arguments)?;
            add_mark(tokens, Mark::Semicolon)?;
            Ok(())
        }
        Statement::Set(name, value) => {
            add_assignment(tokens, Mark::Set, name, value)?;
            Ok(())
        }
        Statement::If(condition, taken, other) => {
            add_mark(tokens, Mark::If)?;
            add_expression(tokens, condition)?;
            add_block(tokens, taken)?;
            let Some(other) = other else {
                return Ok(());
            };
            add_mark(tokens, Mark::Else)?;
            add_block(tokens, other)?;
            Ok(())
        }
        Statement::For(name, first, last, body) => {
            add_mark(tokens, Mark::For)?;
            add_name(tokens, name)?;
            add_mark(tokens, Mark::In)?;
            add_expression(tokens, first)?;
            add_mark(tokens, Mark::Range)?;
            add_expression(tokens, last)?;
            add_block(tokens, body)?;
            Ok(())
        }
        Statement::Print(_, value) => {
            add_mark(tokens, Mark::Print)?;
            add_expression(tokens, value)?;
            add_mark(tokens, Mark::Semicolon)?;
            Ok(())
        }
        Statement::Return(_, first, others) => {
            add_mark(tokens, Mark::Return)?;
            add_expression(tokens, first)?;
            add_others(tokens, others)?;
            add_mark(tokens, Mark::Semicolon)?;
            Ok(())
        }
    }
}

#[cycle(writing)]
fn add_block<'p>(tokens: &mut Vec<Token<'p>>, block: &'p Block) -> Result<(), AllocError>
    ensures { OnOk result (Writes tokens.old.items tokens.new.items (λ rest.
        block_before (written_statements (statements_of block.entry.now.statements.items)) rest)) }
{
    add_mark(tokens, Mark::OpenBrace)?;
    add_statements(tokens, &block.statements)?;
    add_mark(tokens, Mark::CloseBrace)?;
    Ok(())
}

#[cycle(writing)]
fn add_statements<'p>(
    tokens: &mut Vec<Token<'p>>,
    statements: &'p [Statement],
) -> Result<(), AllocError>
    ensures { OnOk result (Writes tokens.old.items tokens.new.items (λ rest.
        statements_before (written_statements (statements_of statements.entry.now)) rest)) }
{
    for statement in statements {
        add_statement(tokens, statement)?;
    }
    Ok(())
}

fn add_parameter<'p>(
    tokens: &mut Vec<Token<'p>>,
    parameter: &'p Parameter,
) -> Result<(), AllocError>
    ensures { OnOk result (Writes tokens.old.items tokens.new.items (λ rest. parameter_before (parameter_of parameter.entry.now) rest)) }
{
    add_name(tokens, &parameter.name)?;
    add_mark(tokens, Mark::Colon)?;
    add_type(tokens, &parameter.kind)?;
    Ok(())
}

/// Parameters with commas between.
fn add_parameters<'p>(
    tokens: &mut Vec<Token<'p>>,
    parameters: &'p [Parameter],
) -> Result<(), AllocError>
    ensures { OnOk result (Writes tokens.old.items tokens.new.items (λ rest. parameters_before (map parameter_of parameters.entry.now) rest)) }
{
    let [first, others @ ..] = parameters else {
        return Ok(());
    };
    add_parameter(tokens, first)?;
    for parameter in others {
        add_mark(tokens, Mark::Comma)?;
        add_parameter(tokens, parameter)?;
    }
    Ok(())
}

/// Further types, each after a comma.
fn add_more_types<'p>(
    tokens: &mut Vec<Token<'p>>,
    others: &'p [ValueType],
) -> Result<(), AllocError>
    ensures { OnOk result (Writes tokens.old.items tokens.new.items (λ rest. more_kinds_before (map type_of others.entry.now) rest)) }
{
    for other in others {
        add_mark(tokens, Mark::Comma)?;
        add_type(tokens, other)?;
    }
    Ok(())
}

/// The types of a function's results: in parentheses where there are several.
fn add_results<'p>(
    tokens: &mut Vec<Token<'p>>,
    first: &'p ValueType,
    others: &'p [ValueType],
) -> Result<(), AllocError>
    ensures { OnOk result (Writes tokens.old.items tokens.new.items (λ rest. results_before (type_of first.entry.now) (map type_of others.entry.now) rest)) }
{
    let [_second, _others @ ..] = others else {
        add_type(tokens, first)?;
        return Ok(());
    };
    add_mark(tokens, Mark::OpenParenthesis)?;
    add_type(tokens, first)?;
    add_more_types(tokens, others)?;
    add_mark(tokens, Mark::CloseParenthesis)?;
    Ok(())
}

fn add_function<'p>(tokens: &mut Vec<Token<'p>>, function: &'p Function) -> Result<(), AllocError>
    ensures { OnOk result (Writes tokens.old.items tokens.new.items (λ rest. function_before (written_function (function_of function.entry.now)) rest)) }
{
    add_mark(tokens, Mark::Fn)?;
    add_name(tokens, &function.name)?;
    add_mark(tokens, Mark::OpenParenthesis)?;
    add_parameters(tokens, &function.parameters)?;
    add_mark(tokens, Mark::CloseParenthesis)?;
    add_mark(tokens, Mark::Arrow)?;
    add_results(tokens, &function.result, &function.others)?;
    add_block(tokens, &function.body)?;
    Ok(())
}

/// A function at the text's end, on one line.
fn print_function(alloc: Global, text: &mut String, function: &Function) -> Result<(), AllocError>
    ensures { OnOk result (string_bytes text.new ≡ string_bytes text.old ++ line_text (function_before (written_function (function_of function.now)) [])) }
{
    let mut tokens = Vec::new(alloc);
    add_function(&mut tokens, function)?;
    write_line(text, tokens.as_slice())?;
    Ok(())
}

/// The text of a program: each function on a line of its own that a line feed ends, its tokens with one space between,
/// and parentheses only where another tree, or none, would be read without them. A list of no items, which no text
/// gives, is written as an empty list of ints.
///
/// The only error is want of memory.
pub fn print_program(alloc: Global, program: &Program) -> Result<String, AllocError>
    ensures { IfOk result (λ text. string_bytes text ≡ text_of_lines (printed_program (program_of program.now.functions.items))) }
{
    let mut text = String::new(alloc);
    for function in program.functions.as_slice() {
        print_function(alloc, &mut text, function)?;
    }
    Ok(text)
}
