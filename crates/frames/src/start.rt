// With which registers, and at which instruction, a task begins.

ghost use Rattle.std.specs.Prelude.{◌≡◌, ◌+◌, ◌-◌, ◌≤◌, ◌++◌, ℕ, [], IfOk, Some, map, length, slice_get};
ghost use Rattle.meaning.specs.Values.{Name, Task};
ghost use Rattle.meaning.specs.Syntax.{Function, Script};
ghost use Rattle.meaning.specs.Meaning.{find};
ghost use Rattle.frame_laws.specs.Compile.{number_of};
ghost use Rattle.frame_laws.specs.Law as laws;
ghost use Rattle.frame_laws.specs.Law.{entry_or, values_in, marks_in};
ghost use Rattle.frame_code.specs.Views.{code_of};
ghost use Rattle.frames.specs.Values.{value_of};
ghost use Rattle.frames.specs.Machines.{argument_of, state_of};
ghost use Rattle.frames.specs.Courses.{Standing, answers_of, no_past};
ghost use Rattle.frames.specs.Values.{outcome_of};

use crate::course::Course;
use crate::halt::MarkedArgument;
use crate::registers::State;
use crate::value::{Outcome, Value};
use frame_code::Code;
use ids::ObjectId;
use small_list::SmallList;
use std::alloc::{AllocError, Global};

/// So many registers have room behind a task's first ones, that few tasks need more memory for theirs.
const ROOM: usize = 6;

/// A task's first registers: its arguments, and then their marks.
fn first_registers(alloc: Global, arguments: &[MarkedArgument]) -> Result<Vec<Value>, AllocError>
    ensures { IfOk result (λ rs. map value_of rs.items ≡ values_in (map argument_of arguments.now) ++ marks_in (map argument_of arguments.now)) }
{
    let count = arguments.len().saturating_mul(2).saturating_add(ROOM);
    let mut registers = Vec::with_capacity(alloc, count)?;
    for argument in arguments {
        registers.push(argument.value.share()?)?;
    }
    for argument in arguments {
        let mark = if argument.is_dereferenced { 1 } else { 0 };
        registers.push(Value::Int(mark))?;
    }
    Ok(registers)
}

/// Where a task of the function with that number begins: two instructions for each argument before a plain call.
fn task_entry(code: &Code, function: usize, arguments: usize) -> usize
    ensures { result ≡ entry_or 0 (slice_get (code_of code.now).entries function) - (arguments + arguments) }
{
    let Some(entry) = code.entries.get(function) else {
        return 0;
    };
    entry.saturating_sub(arguments).saturating_sub(arguments)
}

/// The first state of a task of the function with that number, where it is one of the script and takes as many arguments.
pub(crate) fn first_state(
    alloc: Global,
    code: &Code,
    function: usize,
    arguments: &[MarkedArgument],
) -> Result<State, AllocError>
    ensures { IfOk result (λ s. (script : Script) (g : Name) (f : Function) → code_of code.now ≡ laws.code_of script →
        function ≡ number_of script g (length arguments.now) → length arguments.now ≡ length f.parameters →
        state_of s ≡ laws.first_state script g f (map argument_of arguments.now)) }
{
    let pc = task_entry(code, function, arguments.len());
    let registers = first_registers(alloc, arguments)?;
    Ok(State {
        pc,
        base: 0,
        registers,
        callers: Vec::new(alloc),
    })
}

impl Course {
    /// A task of the function with that number begins, where it is one of the script and takes as many arguments.
    pub(crate) fn for_task(
        alloc: Global,
        code: &Code,
        function: usize,
        arguments: &[MarkedArgument],
        base: ObjectId,
        answers: Vec<Outcome>,
    ) -> Result<Course, AllocError>
        ensures stands { IfOk result (λ k. (script : Script) (g : Name) (f : Function) (depth retries others : ℕ) → code_of code.now ≡ laws.code_of script →
            function ≡ number_of script g (length arguments.now) → find script g ≡ Some f → length arguments.now ≡ length f.parameters → depth ≤ 32 →
            Standing script (32 - depth) (Task g (map argument_of arguments.now) depth retries others) base no_past k) }
        ensures answers { IfOk result (λ k. answers_of k ≡ map outcome_of answers.items) }
    {
        let state = first_state(alloc, code, function, arguments)?;
        Ok(Course {
            state,
            births: Vec::new(alloc),
            prints: Vec::new(alloc),
            next: base,
            answers: SmallList::from_vec(answers),
            used: 0,
            steps: 0,
        })
    }
}
