// Where a task traps of its own.

ghost use Rattle.std.specs.Prelude.{IfOk, map};
ghost use Rattle.script_check.specs.Trees.{script_of};
ghost use Rattle.values.specs.Values.{content_of};
ghost use Rattle.task_spec.specs.Births.{birth_of};
ghost use Rattle.frames.specs.OwnTraps.{FindsTrap};

use crate::convert::{from_arguments, from_contents};
use frames::{Compiled, find_trap as find_own_trap};
use ids::ObjectId;
use spots::Spot;
use std::alloc::{AllocError, Global};
use task_spec::Birth;
use values::Content;

/// Runs a task once more from its start on the answers that it was handed, its births taking ids from `base` on, and looks where it traps by an
/// instruction of its own: where that stands in the script's code, what it works on, and where the calls stand that wait. It is `None` where the task
/// doesn't trap so: where it returns, needs an answer more, is handed a trap, or begins nothing; and of a put. An error is want of memory.
pub fn find_trap(
    alloc: Global,
    script: &Compiled,
    spec: &Birth,
    base: ObjectId,
    answers: &[Content],
) -> Result<Option<Spot>, AllocError>
    ensures { IfOk result (λ spot. FindsTrap (script_of script.now) (birth_of spec.now) base (map content_of answers.now) spot) }
{
    match spec {
        Birth::Put(_) => Ok(None),
        Birth::Task {
            function,
            arguments,
            depth,
            retries: _,
            others: _,
        } => {
            let arguments = from_arguments(alloc, arguments.as_slice())?;
            let answers = from_contents(alloc, answers)?;
            find_own_trap(
                alloc,
                script,
                function.as_str(),
                arguments.as_slice(),
                *depth,
                base,
                answers,
            )
        }
    }
}
