// How statements become instructions, and which variables are in registers behind each.

ghost use Rattle.std.specs.Prelude.{◌≡◌, ◌+◌, ◌++◌, ◌∷◌, [], IfOk, OnOk, length, map, slice_set, string_bytes};
ghost use Rattle.frame_laws.specs.Compile.{
  exprs_code,
  operands_code,
  operands_of,
  number_of,
  stmt_code,
  block_code,
  if_code,
  loop_code,
  loop_names,
  names_after,
};
ghost use Rattle.frame_laws.specs.Compile as compile;
ghost use Rattle.frame_laws.specs.Instructions as pure;
ghost use Rattle.script_check.specs.Trees.{exprs_of, statement_of, statements_of, script_of};
ghost use Rattle.frame_code.specs.Views.{given_of, instruction_of, codes, names_of};

use crate::expressions::{emit_expr, emit_exprs, emit_operand, put_spawn};
use crate::instruction::{Instruction, Operand};
use crate::names::{Register, following, further, number_of, place_or, slot};
use crate::operands::{past, put};
use script_check::{CheckedExpr, CheckedFunction, CheckedStatement};
use std::alloc::AllocError;

/// Writes an instruction over the one at a place.
fn patch(code: &mut Vec<Instruction>, place: usize, instruction: Instruction)
    ensures { codes code.new.items ≡ slice_set (codes code.old.items) place (instruction_of instruction) }
{
    if place < code.len() {
        code[place] = instruction;
    }
}

/// The names in a loop's body, before its statements.
fn push_loop_names<'a>(names: &mut Vec<Register<'a>>, name: &'a str) -> Result<(), AllocError>
    ensures { OnOk result (names_of names.new.items ≡ loop_names (names_of names.old.items) name.now) }
{
    names.push(Register::Nameless)?;
    names.push(Register::Nameless)?;
    names.push(Register::Variable(name))?;
    Ok(())
}

/// Further names.
fn push_names<'a>(names: &mut Vec<Register<'a>>, others: &'a [String]) -> Result<(), AllocError>
    ensures { OnOk result (names_of names.new.items ≡ names_of names.old.items ++ compile.names_of (map string_bytes others.now)) }
{
    for name in others {
        names.push(Register::Variable(name.as_str()))?;
    }
    Ok(())
}

/// A plain call, whose first result and so many others go into registers from the first free one on.
fn emit_results(
    code: &mut Vec<Instruction>,
    script: &[CheckedFunction],
    names: &[Register<'_>],
    function: &str,
    arguments: &[CheckedExpr],
    free: u32,
    others: usize,
) -> Result<(), AllocError>
    ensures { OnOk result (codes code.new.items
        ≡ codes code.old.items ++ (exprs_code (script_of script.now) (names_of names.now) (exprs_of arguments.now) free
        ++ pure.Enter (number_of (script_of script.now) function.now (length arguments.now)) free free (others + 1) ∷ [])) }
{
    emit_exprs(code, script, names, arguments, free)?;
    let number = number_of(script, function, arguments.len());
    let others = slot(*code.allocator(), others)?;
    let results = following(*code.allocator(), others)?;
    put(code, Instruction::Enter(number, free, free, results))
}

/// A remote call: references for its first result and so many others go into registers from the first free one on.
fn emit_references(
    code: &mut Vec<Instruction>,
    script: &[CheckedFunction],
    names: &[Register<'_>],
    retries: u8,
    function: &String,
    marks: &[bool],
    arguments: &[CheckedExpr],
    free: u32,
    others: usize,
) -> Result<(), AllocError>
    ensures { OnOk result (codes code.new.items
        ≡ codes code.old.items ++ (exprs_code (script_of script.now) (names_of names.now) (exprs_of arguments.now) free
        ++ pure.Spawn retries (string_bytes function.now) marks.now free (length arguments.now) free others ∷ [])) }
{
    emit_exprs(code, script, names, arguments, free)?;
    let others = further(*code.allocator(), others)?;
    put_spawn(
        code,
        retries,
        function,
        marks,
        free,
        arguments.len(),
        free,
        others,
    )
}

/// Operands, one after another.
fn emit_operands(
    code: &mut Vec<Instruction>,
    script: &[CheckedFunction],
    names: &[Register<'_>],
    exprs: &[CheckedExpr],
    free: u32,
) -> Result<Vec<Operand>, AllocError>
    ensures code { OnOk result (codes code.new.items
        ≡ codes code.old.items ++ operands_code (script_of script.now) (names_of names.now) (exprs_of exprs.now) free) }
    ensures operands { IfOk result (λ os. map given_of os.items ≡ operands_of (script_of script.now) (names_of names.now) (exprs_of exprs.now) free) }
{
    let alloc = *code.allocator();
    let mut operands = Vec::new(alloc);
    let mut next = free;
    for expr in exprs {
        let operand = emit_operand(code, script, names, expr, next)?;
        operands.push(operand)?;
        next = past(alloc, expr, next)?;
    }
    Ok(operands)
}

/// The return of these results, in a form of its own where it is one.
fn back(results: Vec<Operand>) -> Instruction
    ensures { instruction_of result ≡ pure.Back (map given_of results.items) }
{
    if results.len() == 1 {
        return Instruction::Return(results[0]);
    }
    Instruction::ReturnAll(results)
}

/// A return of the values of expressions.
fn emit_return(
    code: &mut Vec<Instruction>,
    script: &[CheckedFunction],
    names: &[Register<'_>],
    values: &[CheckedExpr],
    free: u32,
) -> Result<(), AllocError>
    ensures { OnOk result (codes code.new.items
        ≡ codes code.old.items ++ (operands_code (script_of script.now) (names_of names.now) (exprs_of values.now) free
        ++ pure.Back (operands_of (script_of script.now) (names_of names.now) (exprs_of values.now) free) ∷ [])) }
{
    let results = emit_operands(code, script, names, values, free)?;
    put(code, back(results))
}

/// A statement, and the names after it.
#[cycle(statements)]
fn emit_statement<'a>(
    code: &mut Vec<Instruction>,
    script: &[CheckedFunction],
    names: &mut Vec<Register<'a>>,
    statement: &'a CheckedStatement,
) -> Result<(), AllocError>
    ensures code { OnOk result (codes code.new.items
        ≡ codes code.old.items ++ stmt_code (script_of script.now) (names_of names.old.items) (statement_of statement.now)) }
    ensures names { OnOk result (names_of names.new.items ≡ names_after (names_of names.old.items) (statement_of statement.now)) }
{
    let free = slot(*code.allocator(), names.len())?;
    match statement {
        CheckedStatement::Let(name, expr) => {
            emit_expr(code, script, names, expr, free, free)?;
            names.push(Register::Variable(name.as_str()))?;
            Ok(())
        }
        CheckedStatement::LetCall(name, others, function, arguments) => {
            emit_results(
                code,
                script,
                names,
                function.as_str(),
                arguments,
                free,
                others.len(),
            )?;
            names.push(Register::Variable(name.as_str()))?;
            push_names(names, others)
        }
        CheckedStatement::LetRemote(name, others, retries, function, marks, arguments) => {
            emit_references(
                code,
                script,
                names,
                *retries,
                function,
                marks,
                arguments,
                free,
                others.len(),
            )?;
            names.push(Register::Variable(name.as_str()))?;
            push_names(names, others)
        }
        CheckedStatement::Set(name, expr) => {
            let to = place_or(*code.allocator(), names, name.as_str(), free)?;
            emit_expr(code, script, names, expr, to, free)
        }
        CheckedStatement::Print(expr) => {
            let value = emit_operand(code, script, names, expr, free)?;
            put(code, Instruction::Print(value))
        }
        CheckedStatement::Return(values) => emit_return(code, script, names, values, free),
        CheckedStatement::If(condition, first, second) => {
            let condition = emit_operand(code, script, names, condition, free)?;
            emit_choice(
                code,
                script,
                names,
                condition,
                &first.statements,
                &second.statements,
            )
        }
        CheckedStatement::For(name, from, to, body) => {
            emit_expr(code, script, names, from, free, free)?;
            let second = following(*code.allocator(), free)?;
            emit_expr(code, script, names, to, second, second)?;
            emit_loop(code, script, names, name.as_str(), free, &body.statements)
        }
    }
}

/// A choice between two blocks.
#[cycle(statements)]
fn emit_choice<'a>(
    code: &mut Vec<Instruction>,
    script: &[CheckedFunction],
    names: &mut Vec<Register<'a>>,
    condition: Operand,
    first: &'a [CheckedStatement],
    second: &'a [CheckedStatement],
) -> Result<(), AllocError>
    ensures code { OnOk result (codes code.new.items ≡ codes code.old.items ++ if_code (given_of condition)
        (block_code (script_of script.now) (names_of names.old.items) (statements_of first.now))
        (block_code (script_of script.now) (names_of names.old.items) (statements_of second.now))) }
    ensures names { OnOk result (names_of names.new.items ≡ names_of names.old.items) }
{
    let test = code.len();
    put(code, Instruction::Wrong)?;
    emit_block(code, script, names, first)?;
    let skip = code.len();
    put(code, Instruction::Wrong)?;
    emit_block(code, script, names, second)?;
    let end = code.len();
    patch(code, test, Instruction::SkipZero(condition, skip - test));
    patch(code, skip, Instruction::Skip(end - skip - 1));
    Ok(())
}

/// A loop whose bounds stand in two registers.
#[cycle(statements)]
fn emit_loop<'a>(
    code: &mut Vec<Instruction>,
    script: &[CheckedFunction],
    names: &mut Vec<Register<'a>>,
    name: &'a str,
    bounds: u32,
    body: &'a [CheckedStatement],
) -> Result<(), AllocError>
    ensures code { OnOk result (codes code.new.items ≡ codes code.old.items ++ loop_code bounds
        (block_code (script_of script.now) (loop_names (names_of names.old.items) name.now) (statements_of body.now))) }
    ensures names { OnOk result (names_of names.new.items ≡ names_of names.old.items) }
{
    let outer = names.len();
    push_loop_names(names, name)?;
    let begin = code.len();
    put(code, Instruction::Wrong)?;
    emit_block(code, script, names, body)?;
    names.truncate(outer);
    let turn = code.len() - begin - 1;
    put(code, Instruction::Again(bounds, turn))?;
    patch(code, begin, Instruction::Begin(bounds, turn + 1));
    Ok(())
}

/// The statements of a block, whose names go at its end.
#[cycle(statements)]
pub(crate) fn emit_block<'a>(
    code: &mut Vec<Instruction>,
    script: &[CheckedFunction],
    names: &mut Vec<Register<'a>>,
    statements: &'a [CheckedStatement],
) -> Result<(), AllocError>
    ensures code { OnOk result (codes code.new.items
        ≡ codes code.old.items ++ block_code (script_of script.now) (names_of names.old.items) (statements_of statements.now)) }
    ensures names { OnOk result (names_of names.new.items ≡ names_of names.old.items) }
{
    let outer = names.len();
    for statement in statements {
        emit_statement(code, script, names, statement)?;
    }
    names.truncate(outer);
    Ok(())
}
