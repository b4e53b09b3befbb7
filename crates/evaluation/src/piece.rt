// A piece of a task's run.

ghost use Rattle.std.specs.Prelude.{◌≡◌, ◌≤◌, ◌∷◌, [], IfOk, IfErr, None, Some, drop, map, true};
ghost use Rattle.meaning.specs.Values as meant;
ghost use Rattle.meaning.specs.Values.{Id, Val, Trapped, Broken, Returned, Aborted, first_outcome, outcomes, others_of};
ghost use Rattle.meaning.specs.Runs.{Over, stopped};
ghost use Rattle.meaning.specs.Runs as runs;
ghost use Rattle.meaning.specs.Meaning.{replay};
ghost use Rattle.script_check.specs.Trees.{script_of};
ghost use Rattle.values.specs.Values.{value_of, content_of, trap_of};
ghost use Rattle.task_spec.specs.Births.{birth_of};
ghost use Rattle.frame_laws.specs.Resuming.{after};
ghost use Rattle.frame_laws.specs.Steps.{HasSteps};
ghost use Rattle.frames.specs.Values.{value_of as run_value_of};
ghost use Rattle.frames.specs.Machines.{is_stop};
ghost use Rattle.frames.specs.Courses.{Past, no_past};
ghost use Rattle.frames.specs.Frames.{IsWaiting};
ghost use Rattle.frames.specs.Tasks.{stopped_by};
ghost use Rattle.evaluation.specs.TaskValues.{AreTaskOutcomes, IsTaskBirth, IsTaskOutcome, IsTaskPiece};
ghost use Rattle.evaluation.specs.Pieces.{HasBroken, IsBrokenEnd, IsBrokenStop, IsNoTaskStop, IsPieceOf, Keeps, Stands, answered_so, piece_of, stop_of};

use crate::convert::{
    ConversionError, from_arguments, from_content, from_contents, named, to_births, to_prints,
    to_value,
};
use boxed_value::Boxed;
use frames::{Attempt, Compiled, Frame, Halt, Value, run_task};
use held::{Outcomes, SharedContent, SmallList, Stopped};
use ids::ObjectId;
use sequence::Seq;
use std::alloc::{AllocError, AllocFailed, Global};
use task_spec::Birth;
use thiserror::Error;
use values::{Content, RunValue, Trap};

/// What a task does up to its next get: what it bears, in the order of the ids that the births take, what it prints, and where it stops.
#[derive(Drop)]
pub struct Piece {
    /// Its births and prints, and where it stops: at a get for whose object there is no answer left, or at the task's end. They stand behind a
    /// pointer from here on, up to the commit that takes them.
    pub outcomes: Boxed<Outcomes>,
    /// Where it stops at a get, the frame from which it goes on with an answer.
    pub frame: Option<Box<Frame>>,
    /// How many steps it began since the last of its answers, or since its start where it had none: statements, and expressions but for
    /// parentheses. At 2^64 - 1 the count stays.
    pub steps: u64,
}

/// Why there is no piece. `From` is written by hand, since the causes that clauses tell apart have to pass through `?`.
#[derive(Clone, Copy, PartialEq, Eq, Debug, Drop, Error)]
pub enum PieceError {
    /// An operand of the wrong kind, which a checked script never meets where its arguments and answers are of the
    /// kinds asked for.
    #[error("an operand of the wrong kind")]
    Broken,
    /// Memory ran out.
    #[error("refused 39: want of memory")]
    NoMemory,
}

impl From<AllocError> for PieceError {
    ghost use Rattle.evaluation.specs.declared.piece.PieceError.TheVariants.{NoMemory};

    ghost from_gives = { λ _ e. e ≡ NoMemory };

    fn from(_: AllocError) -> PieceError {
        PieceError::NoMemory
    }
}

impl<T: Drop> From<AllocFailed<T>> for PieceError {
    ghost use Rattle.evaluation.specs.declared.piece.PieceError.TheVariants.{NoMemory};

    ghost from_gives = { λ _ e. e ≡ NoMemory };

    fn from(_: AllocFailed<T>) -> PieceError {
        PieceError::NoMemory
    }
}

/// The content of the result at a place, as tasks have it. It is broken where the run has no such result.
fn content_at(
    alloc: Global,
    values: &[Value],
    place: usize,
) -> Result<SharedContent, ConversionError>
    ensures value { IfOk result (λ c. c ≡ first_outcome (Returned (map run_value_of (drop place values.now)))) }
    ensures broken { IfErr result (λ e. e ≡ ConversionError.Broken → first_outcome (Returned (map run_value_of (drop place values.now))) ≡ Trapped Broken) }
    ensures plain { IfErr result (λ e. e ≡ ConversionError.HasOutcome →
        IsTaskOutcome (first_outcome (Returned (map run_value_of (drop place values.now)))) → ⊥) }
{
    if place >= values.len() {
        return Err(ConversionError::Broken);
    }
    match to_value(alloc, &values[place]) {
        Ok(value) => Ok(SharedContent::new(alloc, Content::Value(value))?),
        Err(error) => Err(error),
    }
}

/// The contents of so many results, as tasks have them.
fn of_values(
    alloc: Global,
    values: &[Value],
    count: usize,
) -> Result<SmallList<SharedContent>, ConversionError>
    ensures value { IfOk result (λ cs. cs ≡ outcomes count (Returned (map run_value_of values.now))) }
    ensures broken { IfErr result (λ e. e ≡ ConversionError.Broken → HasBroken (outcomes count (Returned (map run_value_of values.now)))) }
    ensures plain { IfErr result (λ e. e ≡ ConversionError.HasOutcome →
        AreTaskOutcomes (outcomes count (Returned (map run_value_of values.now))) → ⊥) }
{
    let mut contents = SmallList::new(alloc);
    for place in 0..count {
        contents.push(content_at(alloc, values, place)?)?;
    }
    Ok(contents)
}

/// A trap, as the content of each of so many results.
#[inline(never)]
fn of_trap(alloc: Global, trap: Trap, count: usize) -> Result<SmallList<SharedContent>, AllocError>
    ensures { IfOk result (λ cs. cs ≡ outcomes count (Aborted (trap_of trap))) }
{
    let mut contents = SmallList::new(alloc);
    for _ in 0..count {
        let content = SharedContent::new(alloc, Content::Trap(trap))?;
        contents.push(content)?;
    }
    Ok(contents)
}

/// Where a run of so many results stopped, one at least, as tasks have it.
fn to_stop(alloc: Global, halt: &Halt, count: usize) -> Result<Stopped, ConversionError>
    requires stops { is_stop halt.now ≡ true }
    requires some { 1 ≤ count }
    ensures value { IfOk result (λ s. stopped_by count halt.now ≡ Some (stop_of s)) }
    ensures broken { IfErr result (λ e. e ≡ ConversionError.Broken → IsBrokenEnd (stopped_by count halt.now)) }
    ensures plain { IfErr result (λ e. e ≡ ConversionError.HasOutcome → IsNoTaskStop (stopped_by count halt.now)) }
{
    match halt {
        Halt::Over(values) => match of_values(alloc, values, count) {
            Ok(contents) => Ok(Stopped::AtEnd(contents)),
            Err(error) => Err(error),
        },
        Halt::Asks(reference, _) => match named(reference) {
            Ok(object) => Ok(Stopped::AtGet(object)),
            Err(error) => Err(error),
        },
        Halt::Trap(trap) => Ok(Stopped::AtEnd(of_trap(alloc, *trap, count)?)),
        Halt::Broken => Err(ConversionError::Broken),
        Halt::NoMemory => Err(ConversionError::NoMemory),
        Halt::Bears(_, _) => unreachable!(),
        Halt::Shows(_) => unreachable!(),
    }
}

/// What an attempt did up to where it stopped, as tasks have it, and its frame.
fn to_piece(alloc: Global, attempt: Attempt, count: usize) -> Result<Piece, ConversionError>
    requires stops { is_stop attempt.halt ≡ true }
    requires some { 1 ≤ count }
    ensures value { IfOk result (λ p. IsPieceOf count p attempt) }
    ensures frame { IfOk result (λ p. p.frame ≡ attempt.frame) }
    ensures steps { IfOk result (λ p. p.steps ≡ attempt.steps) }
    ensures broken { IfErr result (λ e. e ≡ ConversionError.Broken → (past : Past) (q : runs.Piece) → Stands count past attempt q →
        IsBrokenStop q.stop) }
    ensures plain { IfErr result (λ e. e ≡ ConversionError.HasOutcome → (past : Past) (q : runs.Piece) → Stands count past attempt q →
        IsTaskPiece q → ⊥) }
{
    let Attempt {
        births,
        prints,
        halt,
        frame,
        steps,
    } = attempt;
    let stop = to_stop(alloc, &halt, count)?;
    let births = to_births(alloc, births)?;
    let prints = to_prints(alloc, &prints)?;
    let outcomes = Boxed::new(
        alloc,
        Outcomes {
            births,
            prints,
            stop,
        },
    )?;
    Ok(Piece {
        outcomes,
        frame,
        steps,
    })
}

/// What an attempt did up to where it stopped, as tasks have it, and its frame.
fn finish(alloc: Global, attempt: Attempt, count: usize) -> Result<Piece, PieceError>
    requires stops { is_stop attempt.halt ≡ true }
    requires some { 1 ≤ count }
    ensures value { IfOk result (λ p. IsPieceOf count p attempt) }
    ensures frame { IfOk result (λ p. p.frame ≡ attempt.frame) }
    ensures steps { IfOk result (λ p. p.steps ≡ attempt.steps) }
    ensures broken { IfErr result (λ e. e ≡ PieceError.Broken → (past : Past) (q : runs.Piece) → Stands count past attempt q → IsTaskPiece q →
        IsBrokenStop q.stop) }
{
    match to_piece(alloc, attempt, count) {
        Ok(piece) => Ok(piece),
        Err(ConversionError::Broken) => Err(PieceError::Broken),
        // No task has such a value.
        Err(ConversionError::HasOutcome) => Err(PieceError::Broken),
        Err(ConversionError::NoMemory) => Err(PieceError::NoMemory),
    }
}

/// A put's piece: it ends with its value at once.
#[inline(never)]
fn put_piece(alloc: Global, value: &RunValue) -> Result<Piece, PieceError>
    ensures value { IfOk result (λ p. piece_of p ≡ stopped (Over (Val (value_of value.now) ∷ []))) }
    ensures frame { IfOk result (λ p. p.frame ≡ None) }
    ensures steps { IfOk result (λ p. p.steps ≡ 0) }
    ensures only { IfErr result (λ e. e ≡ PieceError.NoMemory) }
{
    let value = value.copy(alloc)?;
    let content = SharedContent::new(alloc, Content::Value(value))?;
    let contents = SmallList::one(alloc, content);
    let outcomes = Boxed::new(
        alloc,
        Outcomes {
            births: Seq::new(alloc),
            prints: Seq::new(alloc),
            stop: Stopped::AtEnd(contents),
        },
    )?;
    Ok(Piece {
        outcomes,
        frame: None,
        steps: 0,
    })
}

/// Runs a task from its start on the answers that it has so far, its births taking ids from `base` on. An error is want of memory, or `Broken`, which no
/// checked script meets where arguments and answers are of the kinds asked for.
pub fn run_piece(
    alloc: Global,
    script: &Compiled,
    spec: &Birth,
    base: ObjectId,
    answers: &[Content],
) -> Result<Piece, PieceError>
    // What is given is the task's replay.
    ensures replayed { IfOk result (λ p. piece_of p ≡ replay (script_of script.now) (birth_of spec.now) base (map content_of answers.now)) }
    // It is broken only where the replay is.
    ensures broken { IfErr result (λ e. e ≡ PieceError.Broken →
        IsBrokenStop (replay (script_of script.now) (birth_of spec.now) base (map content_of answers.now)).stop) }
    // Its frame, if it has one, is where the task waits that was so answered.
    ensures keeps { IfOk result (λ p. Keeps (script_of script.now) (birth_of spec.now) base no_past (map content_of answers.now) p) }
    // Its steps are those that the task began since the last of the answers.
    ensures counts { IfOk result (λ p. HasSteps (script_of script.now) (birth_of spec.now) base (map content_of answers.now) p.steps) }
{
    match spec {
        Birth::Put(value) => put_piece(alloc, value),
        Birth::Task {
            function,
            arguments,
            depth,
            retries: _,
            others,
        } => {
            let arguments = from_arguments(alloc, arguments.as_slice())?;
            let answers = from_contents(alloc, answers)?;
            let attempt = run_task(
                alloc,
                script,
                function.as_str(),
                arguments.as_slice(),
                *depth,
                base,
                answers,
            )?;
            finish(alloc, attempt, *others as usize + 1)
        }
    }
}

/// Goes on from where a task waits that has so many results beside the first, with the answer that it waits for. What is given is what the task does from
/// there on. An error is want of memory, or `Broken`, which no checked script meets where arguments and answers are of the kinds
/// asked for; the frame is let go of then.
pub fn go_on(
    alloc: Global,
    script: &Compiled,
    frame: Frame,
    others: u8,
    answer: &Content,
) -> Result<Piece, PieceError>
    // Behind what was done before, what is given is the task's replay.
    ensures replayed { IfOk result (λ p. (spec : meant.Birth) (base : Id) (past : Past) → others_of spec ≡ others →
        IsWaiting (script_of script.now) spec base past frame →
        after past.births past.prints (piece_of p) ≡ replay (script_of script.now) spec base (answered_so past answer.now)) }
    // It is broken only where the replay is, if no value of the task's has an outcome in it.
    ensures broken { IfErr result (λ e. e ≡ PieceError.Broken → (spec : meant.Birth) (base : Id) (past : Past) → others_of spec ≡ others →
        IsTaskBirth spec → AreTaskOutcomes past.answers → IsWaiting (script_of script.now) spec base past frame →
        IsBrokenStop (replay (script_of script.now) spec base (answered_so past answer.now)).stop) }
    // Its frame, if it has one, is where the task waits that was so answered.
    ensures keeps { IfOk result (λ p. (spec : meant.Birth) (base : Id) (past : Past) → IsWaiting (script_of script.now) spec base past frame →
        Keeps (script_of script.now) spec base past (content_of answer.now ∷ []) p) }
    // Its steps are those that the task began since this answer.
    ensures counts { IfOk result (λ p. (spec : meant.Birth) (base : Id) (past : Past) → others_of spec ≡ others →
        IsWaiting (script_of script.now) spec base past frame →
        HasSteps (script_of script.now) spec base (answered_so past answer.now) p.steps) }
{
    let answer = from_content(alloc, answer)?;
    let attempt = frame.go_on(alloc, script, answer)?;
    finish(alloc, attempt, others as usize + 1)
}
