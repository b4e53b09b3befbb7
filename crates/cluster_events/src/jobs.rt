// Claims, which give out a job, and commits, which hand one in, as changes of the whole run.

ghost use Rattle.std.specs.Prelude.{◌≡◌, ◌<◌, ◌+◌, ◌++◌, ◌∷◌, [], IfOk, OnOk, false, length};
ghost use Rattle.step_laws.specs.Limits.{entries_limited, whole_limited};
ghost use Rattle.cluster_events.specs.Told.{if_taken};
ghost use Rattle.protocol.specs.Events.{as_committed, claimed, committed};
ghost use Rattle.protocol.specs.Jobs.{OfJob};
ghost use Rattle.protocol.specs.Numbered.{changed_at};
ghost use Rattle.protocol.specs.Cluster.{moved};

use crate::births::with_made;
use crate::counting::nothing;
use crate::within_limits::let_act;
use boxed_value::Boxed;
use ids::WorkerId;
use number_lists::place_of;
use protocol_data::{ClusterState, CommitInput, JobRecord, Outcomes, WorkerContext};
use std::alloc::{AllocError, Global};
use std::mem;
use worker_acts::Act;

/// The number of the next job.
pub fn next_job(whole: &ClusterState) -> u64
    ensures { result ≡ length whole.now.jobs + 1 }
{
    whole.jobs.items.len() as u64 + 1
}

/// The next job is the worker's.
fn add_job(whole: &mut ClusterState, worker: WorkerId) -> Result<(), AllocError>
    ensures { OnOk result (whole.new ≡ record whole.old { jobs = whole.old.jobs ++ record { worker = worker; is_committed = false } ∷ [] }) }
{
    whole.jobs.push(JobRecord {
        worker,
        is_committed: false,
    })?;
    Ok(())
}

/// The worker's attempt is given out as the next job.
#[inline(always)]
pub fn claim(
    alloc: Global,
    whole: &mut ClusterState,
    here: &mut WorkerContext,
    worker: WorkerId,
) -> Result<bool, AllocError>
    ensures whole { OnOk result (whole.new ≡ whole_limited whole.old (claimed whole.old worker)) }
    ensures entries { IfOk result (λ taken. if_taken taken here.new.there.out.entries ≡ entries_limited (claimed whole.old worker)) }
{
    let job = next_job(whole);
    let made = whole.made;
    if !let_act(alloc, whole, here, worker, &mut Act::Claim(job), made)? {
        return Ok(false);
    }
    add_job(whole, worker)?;
    Ok(true)
}

/// The job at the place was committed, and there are so many objects now.
fn note_commit(whole: &mut ClusterState, place: usize, job: u64, made: u64)
    requires place_in { place < length whole.old.jobs }
    requires number { job ≡ 1 + place }
    ensures { whole.new ≡ record whole.old { jobs = changed_at whole.old.jobs job as_committed; made = made } }
{
    let jobs = &mut whole.jobs;
    let given = &mut jobs.items[place];
    given.is_committed = true;
    whole.made = made;
}

/// What was done on the job is committed.
fn commit_outcomes(
    alloc: Global,
    whole: &mut ClusterState,
    here: &mut WorkerContext,
    job: u64,
    outcomes: Boxed<Outcomes>,
) -> Result<bool, AllocError>
    ensures whole { OnOk result (whole.new ≡ whole_limited whole.old (committed whole.old job (OfJob outcomes))) }
    ensures entries { IfOk result (λ taken. if_taken taken here.new.there.out.entries ≡ entries_limited (committed whole.old job (OfJob outcomes))) }
{
    let Some(place) = place_of(job, whole.jobs.len()) else {
        return Ok(nothing(whole, &mut here.there, whole.made));
    };
    let worker = whole.jobs.get(place).worker;
    let Some(made) = with_made(whole.made, &outcomes.births) else {
        return Ok(false);
    };
    if !let_act(alloc, whole, here, worker, &mut Act::Commit(outcomes), made)? {
        return Ok(false);
    }
    note_commit(whole, place, job, made);
    Ok(true)
}

/// What is handed in is taken, and committed as what was done on the job.
#[inline(never)]
pub fn commit(
    alloc: Global,
    whole: &mut ClusterState,
    here: &mut WorkerContext,
    job: u64,
    handed: &mut CommitInput,
) -> Result<bool, AllocError>
    ensures whole { OnOk result (whole.new ≡ whole_limited whole.old (committed whole.old job handed.old)) }
    ensures entries { IfOk result (λ taken. if_taken taken here.new.there.out.entries ≡ entries_limited (committed whole.old job handed.old)) }
{
    match mem::replace(handed, CommitInput::Nothing) {
        CommitInput::OfJob(outcomes) => commit_outcomes(alloc, whole, here, job, outcomes),
        _ => Ok(nothing(whole, &mut here.there, whole.made)),
    }
}
