// What is handed in with an event.

ghost use Rattle.std.specs.Prelude.{◌≡◌, IfOk, IfSome, OnOk, true};
ghost use Rattle.protocol.specs.Jobs.{Nothing};
ghost use Rattle.protocol.specs.Tables.{Out};
ghost use Rattle.segment.specs.Jobs.{IsTrueOf};
ghost use Rattle.protocol_core.specs.Own.{HasAnswersIn, HaveAnswersIn};
ghost use Rattle.protocol_core.specs.Pace.{AreInPace};
ghost use Rattle.protocol_core.specs.Steps.{IsHanded, IsHandedFor, IsOut};

use crate::same_job::{is_job_in_pace, is_job_of, is_own_job};
use log_entries::Event;
use number_lists::item_at_number;
use protocol_data::{ClusterState, CommitInput, Execution, Phase};
use segment::{Done, DoneParts, ScriptName};
use std::alloc::{AllocError, Global};

/// Whether the attempt is out as the job of that number.
fn is_out_as(run: &Execution, job: u64) -> bool
    ensures out { result ≡ true → run.now.phase ≡ Out job }
    ensures only { run.now.phase ≡ Out job → result ≡ true }
{
    match run.phase {
        Phase::Out(number) => number == job,
        _ => false,
    }
}

/// Whether what was done was done on the job that is out with that number. Of a live worker's attempt what it bore and printed need not be read,
/// nor, where the job is one of this run's own, what it was answered. An error is want of memory.
fn is_done_on<S: ScriptName>(
    alloc: Global,
    whole: &ClusterState,
    job: u64,
    done: &Done<S>,
    is_own: bool,
) -> Result<bool, AllocError>
    requires pace { AreInPace S.script whole.now }
    requires own { is_own ≡ true → HasAnswersIn whole.now done.now.job }
    ensures out { IfOk result (λ is. is ≡ true → IsOut whole.now job done.now.job) }
    ensures only { IfOk result (λ is. IsOut whole.now job done.now.job → is ≡ true) }
{
    let Some(given) = item_at_number(&whole.jobs, job) else {
        return Ok(false);
    };
    let Some(worker) = item_at_number(whole.workers.rows(), u64::from(given.worker.0)) else {
        return Ok(false);
    };
    let Some(run) = &worker.run else {
        return Ok(false);
    };
    if !is_out_as(run, job) {
        return Ok(false);
    }
    if !worker.is_live {
        return is_job_of(alloc, done.job(), job, run);
    }
    if is_own {
        return Ok(is_own_job(done.job(), job, run));
    }
    Ok(is_job_in_pace(done.job(), job, run))
}

/// What is handed in with the commit of the job: what was done on another job counts as nothing.
fn handed_for<S: ScriptName>(
    alloc: Global,
    whole: &ClusterState,
    job: u64,
    done: Option<Done<S>>,
    is_own: bool,
) -> Result<CommitInput, AllocError>
    requires pace { AreInPace S.script whole.now }
    requires own { is_own ≡ true → HaveAnswersIn whole.now done }
    ensures handed { IfOk result (λ handed. IsHandedFor whole.now job done handed) }
    ensures is_true { IfSome done (λ d. IsTrueOf S.script d) }
{
    let Some(done) = done else {
        return Ok(CommitInput::Nothing);
    };
    if !is_done_on(alloc, whole, job, &done, is_own)? {
        return Ok(CommitInput::OfAnother);
    }
    let DoneParts { job: _, outcomes } = done.into_parts();
    Ok(CommitInput::OfJob(outcomes))
}

/// Puts what is handed in with the commit where nothing was. It is a function of its own, so that an event with which nothing is handed in doesn't set
/// up what it needs.
#[inline(never)]
fn hand_job<S: ScriptName>(
    alloc: Global,
    whole: &ClusterState,
    job: u64,
    done: Option<Done<S>>,
    is_own: bool,
    handed: &mut CommitInput,
) -> Result<(), AllocError>
    requires pace { AreInPace S.script whole.now }
    requires own { is_own ≡ true → HaveAnswersIn whole.now done }
    requires empty { handed.old ≡ Nothing }
    ensures handed { OnOk result (IsHandedFor whole.now job done handed.new) }
    ensures is_true { IfSome done (λ d. IsTrueOf S.script d) }
{
    *handed = handed_for(alloc, whole, job, done, is_own)?;
    Ok(())
}

/// What comes with an event that is no commit is of no use.
fn discard<S: ScriptName>(done: Option<Done<S>>)
    ensures { IfSome done (λ d. IsTrueOf S.script d) }
{
    if let Some(done) = &done {
        let _ = done.job();
    }
}

/// Puts what is handed in with the event where nothing was. With `is_own` what was done is done on a job of this run.
pub fn hand_in<S: ScriptName>(
    alloc: Global,
    whole: &ClusterState,
    event: &Event,
    done: Option<Done<S>>,
    is_own: bool,
    handed: &mut CommitInput,
) -> Result<(), AllocError>
    requires pace { AreInPace S.script whole.now }
    requires own { is_own ≡ true → HaveAnswersIn whole.now done }
    requires empty { handed.old ≡ Nothing }
    ensures handed { OnOk result (IsHanded whole.now event.now done handed.new) }
    ensures is_true { IfSome done (λ d. IsTrueOf S.script d) }
{
    match event {
        Event::Commit(job) => hand_job(alloc, whole, *job, done, is_own, handed),
        _ => {
            discard(done);
            Ok(())
        }
    }
}
