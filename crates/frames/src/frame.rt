// Where an attempt waits for an answer.

ghost use Rattle.std.specs.Prelude.{◌≡◌, ◌∷◌, ◌++◌, [], IfOk, List, true};
ghost use Rattle.meaning.specs.Values.{Birth, Id};
ghost use Rattle.script_check.specs.Trees.{script_of};
ghost use Rattle.frames.specs.Values.{outcome_of};
ghost use Rattle.frames.specs.Machines.{is_stop};
ghost use Rattle.frames.specs.Courses.{Past};
ghost use Rattle.frames.specs.Frames.{IsWaiting, HaltsBehind, KeepsFrame, CountsSteps};

use crate::attempt::{Attempt, stop};
use crate::compiled::Compiled;
use crate::course::Course;
use crate::registers::State;
use crate::value::{Outcome, Value};
use ids::ObjectId;
use small_list::SmallList;
use std::alloc::{AllocError, Global};

/// Where an attempt waits for an answer, which may be kept: the machine's state behind the get, the id of the attempt's next birth, the
/// reference that is got, the register that takes its value, how many calls may wait, and how many steps were begun since the answer before.
#[derive(Drop)]
pub struct Frame {
    /// Where the machine stands, behind the get.
    pub(crate) state: State,
    /// The id that the attempt's next birth takes.
    pub(crate) next: ObjectId,
    /// The reference that is got.
    pub(crate) reference: Value,
    /// The register that takes the answer's value.
    pub(crate) to: usize,
    /// How many calls may wait in one another.
    pub(crate) limit: usize,
    /// How many steps were begun since the answer before.
    pub(crate) steps: u64,
}

impl Frame {
    /// Goes on with the answer that it waits for, up to the next one that it needs or to its end. What is given is what the attempt does
    /// beyond what it did before: see docs/architecture.md, "Why a frame is as good as a replay".
    pub fn go_on(
        self,
        alloc: Global,
        script: &Compiled,
        answer: Outcome,
    ) -> Result<Attempt, AllocError>
        ensures halts { IfOk result (λ a. (spec : Birth) (base : Id) (past : Past) → IsWaiting (script_of script.now) spec base past self →
            HaltsBehind (script_of script.now) spec base past (outcome_of answer ∷ []) a) }
        ensures keeps { IfOk result (λ a. (spec : Birth) (base : Id) (past : Past) → IsWaiting (script_of script.now) spec base past self →
            KeepsFrame (script_of script.now) spec base past (outcome_of answer ∷ []) a) }
        ensures counts { IfOk result (λ a. (spec : Birth) (base : Id) (past : Past) → IsWaiting (script_of script.now) spec base past self →
            CountsSteps (script_of script.now) spec base (past.answers ++ outcome_of answer ∷ []) a) }
        ensures stops { IfOk result (λ a. is_stop a.halt ≡ true) }
    {
        let Frame {
            state,
            next,
            reference,
            to,
            limit,
            steps,
        } = self;
        let mut course = Course {
            state,
            births: Vec::new(alloc),
            prints: Vec::new(alloc),
            next,
            answers: SmallList::one(alloc, answer),
            used: 0,
            steps,
        };
        let halt = course.pass(script.code(), limit, reference, to);
        stop(course, halt, limit)
    }
}
