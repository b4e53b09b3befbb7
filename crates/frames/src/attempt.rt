// An attempt of a task, in pieces.

ghost use Rattle.std.specs.Prelude.{◌≡◌, ℕ, ◌≤◌, [], ◌++◌, IfOk, OnErr, None, map, true};
ghost use Rattle.meaning.specs.Syntax.{Script};
ghost use Rattle.meaning.specs.Values.{Birth, Id, Task};
ghost use Rattle.script_check.specs.Trees.{script_of};
ghost use Rattle.frames.specs.Values.{outcome_of};
ghost use Rattle.frames.specs.Machines.{argument_of, is_stop};
ghost use Rattle.frames.specs.Courses.{Past, Stops, answers_of, no_past};
ghost use Rattle.frames.specs.Tasks.{Halts};
ghost use Rattle.frames.specs.Frames.{HaltsBehind, KeepsFrame, CountsSteps};

use crate::compiled::Compiled;
use crate::course::Course;
use crate::frame::Frame;
use crate::halt::{Halt, Made, MarkedArgument};
use crate::mismatch::stop_mismatch;
use crate::serially::DEEPEST;
use crate::value::{Outcome, Value};
use frame_code::number_of;
use ids::ObjectId;
use std::alloc::{AllocError, Global};
use values::Trap;

/// What an attempt did, and why it stopped: it is over, or it asks for an answer that it wasn't handed. Where it waits for an answer it has
/// a frame, from which it goes on. Its steps are those that it began since the last of its answers.
#[derive(Drop)]
pub struct Attempt {
    /// What it bore, in the order of its ids.
    pub births: Vec<Made>,
    /// What it printed, in order.
    pub prints: Vec<Value>,
    /// Why it stopped.
    pub halt: Halt,
    /// From where it goes on, if it waits for an answer.
    pub frame: Option<Box<Frame>>,
    /// How many steps it began since the last of its answers.
    pub steps: u64,
}

/// An attempt that stopped before it did anything.
#[cold]
#[inline(never)]
fn nothing_done(alloc: Global, halt: Halt) -> Attempt
    ensures births { result.births.items ≡ [] }
    ensures prints { result.prints.items ≡ [] }
    ensures halt { result.halt ≡ halt }
    ensures frame { result.frame ≡ None }
    ensures steps { result.steps ≡ 0 }
{
    Attempt {
        births: Vec::new(alloc),
        prints: Vec::new(alloc),
        halt,
        frame: None,
        steps: 0,
    }
}

/// What was done up to where it stopped, where as many calls may wait. It stands where it is called, so that what is large is moved once.
#[inline(always)]
pub(crate) fn stop(course: Course, halt: Halt, limit: usize) -> Result<Attempt, AllocError>
    ensures halts { IfOk result (λ a. (script : Script) (spec : Birth) (base : Id) (past : Past) →
        Stops script limit spec base past course halt → HaltsBehind script spec base past (answers_of course) a) }
    ensures keeps { IfOk result (λ a. (script : Script) (spec : Birth) (base : Id) (past : Past) →
        Stops script limit spec base past course halt → KeepsFrame script spec base past (answers_of course) a) }
    ensures counts { IfOk result (λ a. (script : Script) (spec : Birth) (base : Id) (past : Past) →
        Stops script limit spec base past course halt → CountsSteps script spec base (past.answers ++ answers_of course) a) }
    ensures halt { IfOk result (λ a. a.halt ≡ halt) }
{
    let Course {
        state,
        births,
        prints,
        next,
        answers: _,
        used: _,
        steps,
    } = course;
    if let Halt::Asks(reference, to) = &halt {
        let frame = Box::new(
            *births.allocator(),
            Frame {
                state,
                next,
                reference: reference.share()?,
                to: *to,
                limit,
                steps,
            },
        )?;
        return Ok(Attempt {
            births,
            prints,
            halt,
            frame: Some(frame),
            steps,
        });
    }
    Ok(Attempt {
        births,
        prints,
        halt,
        frame: None,
        steps,
    })
}

/// Runs a task on the answers that it is handed, its births taking ids from `base` on.
pub fn run_task(
    alloc: Global,
    script: &Compiled,
    function: &str,
    arguments: &[MarkedArgument],
    depth: u32,
    base: ObjectId,
    answers: Vec<Outcome>,
) -> Result<Attempt, AllocError>
    ensures halts { IfOk result (λ a. (retries others : ℕ) →
        Halts (script_of script.now) (Task function.now (map argument_of arguments.now) depth retries others) base (map outcome_of answers.items) a) }
    // Where it waits for an answer, its frame is where it waits.
    ensures keeps { IfOk result (λ a. (retries others : ℕ) → KeepsFrame (script_of script.now)
        (Task function.now (map argument_of arguments.now) depth retries others) base no_past (map outcome_of answers.items) a) }
    // Its steps are those that it began since the last of the answers.
    ensures counts { IfOk result (λ a. (retries others : ℕ) → CountsSteps (script_of script.now)
        (Task function.now (map argument_of arguments.now) depth retries others) base (map outcome_of answers.items) a) }
    // It stopped where a run in pieces stops.
    ensures stops { IfOk result (λ a. is_stop a.halt ≡ true) }
    // Want of memory is told only of a task that isn't too deep.
    ensures shallow { OnErr result (depth ≤ 32) }
    ensures began { IfOk result (λ a. a.halt ≡ Halt.NoMemory → depth ≤ 32) }
{
    if depth > DEEPEST {
        return Ok(nothing_done(alloc, Halt::Trap(Trap::TooDeep)));
    }
    let functions = script.script().functions();
    let number = number_of(functions, function, arguments.len());
    if number >= functions.len() {
        let halt = stop_mismatch(functions, function, arguments, &answers);
        return Ok(nothing_done(alloc, halt));
    }
    let limit = (DEEPEST - depth) as usize;
    let code = script.code();
    let mut course = Course::for_task(alloc, code, number, arguments, base, answers)?;
    let halt = course.run(code, limit);
    stop(course, halt, limit)
}
