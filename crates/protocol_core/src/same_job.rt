// Whether a job is the one that an attempt is given out as.

ghost use Rattle.std.specs.Prelude.{◌≡◌, IfOk, length, map, true};
ghost use Rattle.std.specs.Arc.{arc_value};
ghost use Rattle.values.specs.Values.{value_of};
ghost use Rattle.task_spec.specs.Births.{birth_of};
ghost use Rattle.protocol.specs.Answers.{job_of};
ghost use Rattle.protocol_core.specs.SameJobs.{HasItsAnswers, IsInPace, IsLike, IsShaped};

use held::{Answers, Births, Prints};
use protocol_data::Execution;
use segment::{Job, ScriptName};
use std::alloc::{AllocError, Global};
use std::sync::Arc;
use task_spec::Birth;
use values::{RunValue, are_same_contents};

fn are_same_births(births: &[Arc<Birth>], held: &[Arc<Birth>]) -> bool
    ensures same { result ≡ true → map birth_of (map arc_value births.now) ≡ map birth_of (map arc_value held.now) }
    ensures only { map birth_of (map arc_value births.now) ≡ map birth_of (map arc_value held.now) → result ≡ true }
{
    if births.len() != held.len() {
        return false;
    }
    for i in 0..births.len() {
        if !births[i].is_same(&held[i]) {
            return false;
        }
    }
    true
}

fn are_same_prints(prints: &[Arc<RunValue>], held: &[Arc<RunValue>]) -> bool
    ensures same { result ≡ true → map value_of (map arc_value prints.now) ≡ map value_of (map arc_value held.now) }
    ensures only { map value_of (map arc_value prints.now) ≡ map value_of (map arc_value held.now) → result ≡ true }
{
    if prints.len() != held.len() {
        return false;
    }
    for i in 0..prints.len() {
        if !prints[i].is_same(&held[i]) {
            return false;
        }
    }
    true
}

fn are_births(alloc: Global, births: &Births, held: &Births) -> Result<bool, AllocError>
    ensures same { IfOk result (λ is. is ≡ true → births.now ≡ held.now) }
    ensures only { IfOk result (λ is. births.now ≡ held.now → is ≡ true) }
{
    let these = births.inner.items(alloc)?;
    let those = held.inner.items(alloc)?;
    Ok(are_same_births(&these, &those))
}

fn are_prints(alloc: Global, prints: &Prints, held: &Prints) -> Result<bool, AllocError>
    ensures same { IfOk result (λ is. is ≡ true → prints.now ≡ held.now) }
    ensures only { IfOk result (λ is. prints.now ≡ held.now → is ≡ true) }
{
    let these = prints.inner.items(alloc)?;
    let those = held.inner.items(alloc)?;
    Ok(are_same_prints(&these, &those))
}

fn are_answers(answers: &Answers, held: &Answers) -> bool
    ensures same { result ≡ true → answers.now ≡ held.now }
    ensures only { answers.now ≡ held.now → result ≡ true }
{
    are_same_contents(answers.as_slice(), held.as_slice())
}

fn are_as_many(answers: &Answers, held: &Answers) -> bool
    ensures same { result ≡ true → length answers.now ≡ length held.now }
    ensures only { answers.now ≡ held.now → result ≡ true }
{
    answers.as_slice().len() == held.as_slice().len()
}

/// Whether the job is the one of that number, as the attempt is given out, as far as one sees without reading what it bore, printed and was answered.
fn is_shaped<S: ScriptName>(job: &Job<S>, number: u64, run: &Execution) -> bool
    ensures shaped { result ≡ true → IsShaped job.now number run.now }
    ensures only { job.now ≡ job_of number run.now → result ≡ true }
{
    job.number() == number
        && job.attempt() == run.attempt
        && job.base() == run.base
        && job.births().len() == run.births.len()
        && job.printed().len() == run.prints.len()
        && are_as_many(job.answers(), &run.answers)
        && job.spec().inner.is_same(&run.spec.inner)
}

/// Whether the job is the one of that number, as the attempt is given out, as far as one sees without reading what it bore and printed.
fn is_like<S: ScriptName>(job: &Job<S>, number: u64, run: &Execution) -> bool
    ensures like { result ≡ true → IsLike job.now number run.now }
    ensures only { job.now ≡ job_of number run.now → result ≡ true }
{
    is_shaped(job, number, run) && are_answers(job.answers(), &run.answers)
}

/// Whether the job is the one of that number, as the attempt is given out. What it bore and printed is read, whose cost grows with it. An error
/// is want of memory.
pub fn is_job_of<S: ScriptName>(
    alloc: Global,
    job: &Job<S>,
    number: u64,
    run: &Execution,
) -> Result<bool, AllocError>
    ensures same { IfOk result (λ is. is ≡ true → job.now ≡ job_of number run.now) }
    ensures only { IfOk result (λ is. job.now ≡ job_of number run.now → is ≡ true) }
{
    if !is_like(job, number, run) || !are_births(alloc, job.births(), &run.births)? {
        return Ok(false);
    }
    are_prints(alloc, job.printed(), &run.prints)
}

/// Whether the job is the one of that number, as the attempt is given out, where what the attempt bore and printed begins what its task does on
/// its answers. So does what the job has: on the same answers, as much of it is the same, and isn't read.
#[tactic(auto, using(crate::proofs::Pace::like_is_same))]
pub fn is_job_in_pace<S: ScriptName>(job: &Job<S>, number: u64, run: &Execution) -> bool
    requires { IsInPace S.script run.now }
    ensures same { result ≡ true → job.now ≡ job_of number run.now }
    ensures only { job.now ≡ job_of number run.now → result ≡ true }
{
    job.attest();
    is_like(job, number, run)
}

/// Whether the job is the one of that number, as the attempt is given out, where what the attempt bore and printed begins what its task does on
/// its answers, and as many answers of the job are the attempt's. Nothing of these is read, so the cost doesn't grow with them.
#[tactic(auto, using(crate::proofs::Pace::shaped_is_same))]
pub fn is_own_job<S: ScriptName>(job: &Job<S>, number: u64, run: &Execution) -> bool
    requires pace { IsInPace S.script run.now }
    requires answers { HasItsAnswers job.now run.now }
    ensures same { result ≡ true → job.now ≡ job_of number run.now }
    ensures only { job.now ≡ job_of number run.now → result ≡ true }
{
    job.attest();
    is_shaped(job, number, run)
}
