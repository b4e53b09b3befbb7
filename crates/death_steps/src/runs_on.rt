// The attempts that a death breaks.

ghost use Rattle.std.specs.Prelude.{◌≡◌, ◌==◌, ◌+◌, ◌-◌, OnErr, OnOk, Some, None};
ghost use Rattle.worker_steps.specs.of_contexts.Emptied.{nothing_here};
ghost use Rattle.protocol.specs.Tables.{task_of};
ghost use Rattle.protocol.specs.Steps.{own_object};
ghost use Rattle.protocol.specs.Notices.{breaks_if, breaks_where, runs_on_node, runs_on_worker};
ghost use Rattle.death_steps.specs.Dead.{runs_on};

use ids::{NodeId, ObjectId, WorkerId};
use number_lists::object_at_number;
use owner_steps::break_attempt;
use protocol_data::{Endpoint, ObjectSource, Progress, WorkerContext};
use std::alloc::{AllocError, Global};

/// Whether the present attempt runs on the worker.
fn runs_on_worker(worker: WorkerId, progress: &Progress) -> bool
    ensures { result ≡ runs_on_worker worker progress.now }
{
    match progress {
        Progress::RunsOn(other, _) => other.is(worker),
        Progress::AskedAt(..) => false,
        Progress::AtRest => false,
    }
}

/// Whether the node gave the worker that the present attempt runs on.
fn runs_on_node(node: NodeId, progress: &Progress) -> bool
    ensures { result ≡ runs_on_node node progress.now }
{
    match progress {
        Progress::RunsOn(_, other) => other.is(node),
        Progress::AskedAt(..) => false,
        Progress::AtRest => false,
    }
}

/// Whether the death breaks the present attempt.
fn runs_on(dead: &Endpoint, progress: &Progress) -> bool
    ensures { result ≡ runs_on dead.now progress.now }
{
    match dead {
        Endpoint::TheWorker(worker) => runs_on_worker(*worker, progress),
        Endpoint::TheNode(node) => runs_on_node(*node, progress),
    }
}

/// The present attempt of that task is broken, if it runs there.
fn break_if(
    alloc: Global,
    here: &mut WorkerContext,
    dead: &Endpoint,
    serial: u64,
) -> Result<(), AllocError>
    ensures done { OnOk result (here.new ≡ breaks_if (runs_on dead.now) here.old serial (task_of (own_object here.old serial))) }
    ensures err { OnErr result (here.new ≡ nothing_here) }
{
    let Some(found) = object_at_number(&here.worker.objects, serial) else {
        return Ok(());
    };
    let ObjectSource::ByTask(task) = &found.source else {
        return Ok(());
    };
    if !runs_on(dead, &task.progress) {
        return Ok(());
    }
    let owner = here.me;
    break_attempt(alloc, here, ObjectId { owner, serial })
}

/// The present attempts that run there are broken, in birth order.
#[tactic(auto, using(worker_steps::proofs::EachLaws::each_step, worker_steps::proofs::EachLaws::each_last))]
pub fn break_where(
    alloc: Global,
    here: &mut WorkerContext,
    dead: &Endpoint,
) -> Result<(), AllocError>
    ensures done { OnOk result (here.new ≡ breaks_where (runs_on dead.now) here.old) }
    ensures err { OnErr result (here.new ≡ nothing_here) }
{
    let count = here.worker.objects.len() as u64;
    for place in 0..count {
        break_if(alloc, here, dead, place + 1)?;
    }
    Ok(())
}
