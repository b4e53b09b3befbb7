// The job that a claim gives out.

ghost use Rattle.std.specs.Prelude.{◌≡◌, IfOk};
ghost use Rattle.protocol.specs.Answers.{given_out, job_at, job_of};
ghost use Rattle.protocol.specs.Cluster.{worker_at};

use cluster_events::next_job;
use held::JobParts;
use ids::WorkerId;
use log_entries::Event;
use number_lists::item_at_number;
use protocol_data::{ClusterState, Execution};
use std::alloc::{AllocError, Global};
use std::marker::Model;

/// A job that is given out, which contracts see as its parts. It is handed on as a pointer.
#[derive(Drop)]
pub struct GivenJob {
    /// The job's parts, which contracts see in its place.
    pub inner: Box<JobParts>,
}

impl Model for GivenJob {
    ghost use Rattle.std.specs.Coded.{codes};
    ghost use Rattle.held.specs.Codes.{birth_code, outcome_code, value_code};
    ghost use Rattle.protocol.specs.Jobs.{Job};

    ghost Value = { Job };

    ghost coded = { Prim.hlevel (codes, birth_code, value_code, outcome_code) };

    ghost view = { λ g. g.inner.value };
}

/// The job of that number, of the attempt.
fn job_of(alloc: Global, number: u64, run: &Execution) -> Result<GivenJob, AllocError>
    ensures { IfOk result (λ job. job ≡ job_of number run.now) }
{
    let spec = run.spec.copy(alloc)?;
    let births = run.births.copy()?;
    let prints = run.prints.copy()?;
    let answers = run.answers.copy()?;
    let inner = Box::new(
        alloc,
        JobParts {
            number,
            attempt: run.attempt,
            spec,
            base: run.base,
            births,
            prints,
            answers,
        },
    )?;
    Ok(GivenJob { inner })
}

/// The job of that number, of the worker's attempt.
#[inline(never)]
fn job_at(
    alloc: Global,
    whole: &ClusterState,
    number: u64,
    worker: WorkerId,
) -> Result<Option<GivenJob>, AllocError>
    ensures { IfOk result (λ job. job ≡ job_at number (worker_at whole.now worker)) }
{
    let Some(found) = item_at_number(whole.workers.rows(), u64::from(worker.0)) else {
        return Ok(None);
    };
    match &found.run {
        None => Ok(None),
        Some(run) => Ok(Some(job_of(alloc, number, run)?)),
    }
}

/// The job that the event gives out, if it is a claim.
pub fn given_out(
    alloc: Global,
    whole: &ClusterState,
    event: &Event,
) -> Result<Option<GivenJob>, AllocError>
    ensures { IfOk result (λ job. job ≡ given_out whole.now event.now) }
{
    match event {
        Event::Claim(worker) => {
            let number = next_job(whole);
            job_at(alloc, whole, number, *worker)
        }
        _ => Ok(None),
    }
}
