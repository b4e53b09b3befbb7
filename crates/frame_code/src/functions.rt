// The code of functions and scripts.

ghost use Rattle.std.specs.Prelude.{◌≡◌, ◌++◌, ◌∷◌, [], ◌+◌, IfOk, OnOk, length, map};
ghost use Rattle.frame_laws.specs.Compile.{marked_code, body_code, parameter_names};
ghost use Rattle.frame_laws.specs.Law as laws;
ghost use Rattle.script_check.specs.Trees.{script_of, function_of, parameter_of};
ghost use Rattle.frame_code.specs.Views.{codes, code_of, names_of};

use crate::instruction::{Code, Instruction, Operand};
use crate::names::{Register, following, slot};
use crate::operands::put;
use crate::statements::emit_block;
use crate::weights::weigh;
use script_check::{Checked, CheckedFunction, CheckedParameter};
use std::alloc::{AllocError, Global};

/// The names of a call's first registers.
fn parameter_names<'a>(
    alloc: Global,
    parameters: &'a [CheckedParameter],
) -> Result<Vec<Register<'a>>, AllocError>
    ensures { IfOk result (λ names. names_of names.items ≡ parameter_names (map parameter_of parameters.now)) }
{
    let mut names = Vec::new(alloc);
    for parameter in parameters {
        names.push(Register::Variable(parameter.name.as_str()))?;
    }
    Ok(names)
}

/// The arguments of a task are dereferenced where their marks say so. The marks stand behind the arguments.
fn emit_marked(
    code: &mut Vec<Instruction>,
    parameters: &[CheckedParameter],
) -> Result<(), AllocError>
    ensures { OnOk result (codes code.new.items
        ≡ codes code.old.items ++ marked_code 0 (length parameters.now) (map parameter_of parameters.now)) }
{
    let alloc = *code.allocator();
    let count = slot(alloc, parameters.len())?;
    let mut mark = count;
    for argument in 0..count {
        put(code, Instruction::SkipZero(Operand::Slot(mark), 1))?;
        put(code, Instruction::Get(argument, Operand::Slot(argument)))?;
        mark = following(alloc, mark)?;
    }
    Ok(())
}

/// A function's body, which is wrong to come to its end without a return.
fn emit_body(
    code: &mut Vec<Instruction>,
    script: &[CheckedFunction],
    function: &CheckedFunction,
) -> Result<(), AllocError>
    ensures { OnOk result (codes code.new.items ≡ codes code.old.items ++ body_code (script_of script.now) (function_of function.now)) }
{
    let mut names = parameter_names(*code.allocator(), &function.parameters)?;
    emit_block(code, script, &mut names, &function.body.statements)?;
    put(code, Instruction::Wrong)
}

/// The code of a checked script: each function begins with what dereferences its arguments, behind which plain calls enter it.
pub fn compile(alloc: Global, script: &Checked) -> Result<Code, AllocError>
    ensures { IfOk result (λ code. code_of code ≡ laws.code_of (script_of script.now)) }
{
    let script = script.functions();
    let mut instructions = Vec::new(alloc);
    let mut entries = Vec::new(alloc);
    for function in script {
        emit_marked(&mut instructions, &function.parameters)?;
        entries.push(instructions.len())?;
        emit_body(&mut instructions, script, function)?;
    }
    let weights = weigh(alloc, script)?;
    Ok(Code {
        instructions,
        entries,
        weights,
    })
}
