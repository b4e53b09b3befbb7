// What is known of an attempt that goes on.

ghost use Rattle.std.specs.Prelude.{◌≡◌, ◌++◌, IfOk, IfSome, OnOk, map};
ghost use Rattle.values.specs.Values.{content_of};
ghost use Rattle.kept_frames.specs.Known.{IsAfter, IsAt, IsNext};
ghost use Rattle.kept_frames.specs.Views.{data_of};

use held::SharedBirth;
use ids::{AttemptId, ObjectId};
use segment::{Done, Job, ScriptName};
use std::alloc::{AllocError, Global};
use values::Content;

/// An attempt, and how far it came. What it bore and printed follows from its answers and how much that was.
#[derive(Drop)]
pub(crate) struct Known {
    /// The attempt that goes on.
    pub attempt: AttemptId,
    /// What it runs.
    pub spec: SharedBirth,
    /// The id of its first own birth.
    pub base: ObjectId,
    /// How many births it made so far.
    pub births: usize,
    /// How many values it printed so far.
    pub prints: usize,
    /// What it was answered so far.
    pub answers: Vec<Content>,
}

#[tactic(auto, using(crate::proofs::Adding::added))]
fn add_answers(alloc: Global, to: &mut Vec<Content>, more: &[Content]) -> Result<(), AllocError>
    ensures { OnOk result (map content_of to.new.items ≡ map content_of to.old.items ++ map content_of more.now) }
{
    for answer in more {
        to.push(answer.copy(alloc)?)?;
    }
    Ok(())
}

/// The job's attempt, before what the job does.
fn read<S: ScriptName>(alloc: Global, job: &Job<S>) -> Result<Box<Known>, AllocError>
    ensures { IfOk result (λ known. IsAt (data_of known.value) job.now) }
{
    let spec = job.spec().copy(alloc)?;
    let mut answers = Vec::new(alloc);
    add_answers(alloc, &mut answers, job.answers().as_slice())?;
    let known = Box::new(
        alloc,
        Known {
            attempt: job.attempt(),
            spec,
            base: job.base(),
            births: job.births().len(),
            prints: job.printed().len(),
            answers,
        },
    )?;
    Ok(known)
}

/// The job's attempt, before what the job does; from what was known before its last answer, if anything was.
fn known_at<S: ScriptName>(
    alloc: Global,
    known: Option<Box<Known>>,
    job: &Job<S>,
) -> Result<Box<Known>, AllocError>
    requires { IfSome known (λ known. IsNext (data_of known.value) job.now) }
    ensures { IfOk result (λ known. IsAt (data_of known.value) job.now) }
{
    let Some(known) = known else {
        return read(alloc, job);
    };
    let Some((answer, _)) = job.answers().as_slice().split_last() else {
        return read(alloc, job);
    };
    let mut known = known;
    known.answers.push(answer.copy(alloc)?)?;
    Ok(known)
}

/// The attempt, once the job was run. None where there is no memory for it, or where what it bore or printed can't be counted.
pub(crate) fn known_after<S: ScriptName>(
    alloc: Global,
    known: Option<Box<Known>>,
    done: &Done<S>,
) -> Option<Box<Known>>
    requires { IfSome known (λ known. IsNext (data_of known.value) done.now.job) }
    ensures { IfSome result (λ known. IsAfter (data_of known.value) done.now) }
{
    let Ok(mut known) = known_at(alloc, known, done.job()) else {
        return None;
    };
    let Some(births) = known.births.checked_add(done.births().len()) else {
        return None;
    };
    let Some(prints) = known.prints.checked_add(done.prints().len()) else {
        return None;
    };
    known.births = births;
    known.prints = prints;
    Some(known)
}
