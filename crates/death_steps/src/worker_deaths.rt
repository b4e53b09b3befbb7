// What the death of a worker ends.

ghost use Rattle.std.specs.Prelude.{◌≡◌, ◌&&◌, ◌==◌, ◌++◌, ◌∷◌, [], IfOk, OnErr, OnOk, Some, None, not};
ghost use Rattle.worker_steps.specs.of_contexts.Emptied.{nothing_here};
ghost use Rattle.std.specs.List.{filter};
ghost use Rattle.protocol.specs.Steps.{with_run};
ghost use Rattle.protocol.specs.Notices.{drops_holds, drops_holds_by, drops_stop, is_unheard, loses_owner, with_dead_worker};
ghost use Rattle.protocol_data.specs.declared.tables.Execution.{Execution};

use ids::WorkerId;
use protocol_data::{Execution, Holding, Phase, SmallList, WorkerContext};
use std::alloc::{AllocError, Global};
use values::{Fault, FaultKind};
use worker_steps::{fault, leave_if_free, note_heard, or_nothing};

/// The worker knows that the other is dead.
pub fn add_dead_worker(here: &mut WorkerContext, worker: WorkerId) -> Result<(), AllocError>
    ensures done { OnOk result (here.new ≡ with_dead_worker here.old worker) }
    ensures err { OnErr result (here.new ≡ nothing_here) }
{
    or_nothing(here.worker.dead_workers.push(worker), here)
}

/// The own attempt, if it needs an object of the dead, is answered by a fault.
pub fn lose_owner(
    alloc: Global,
    here: &mut WorkerContext,
    worker: WorkerId,
) -> Result<(), AllocError>
    ensures done { OnOk result (here.new ≡ loses_owner here.old worker) }
    ensures err { OnErr result (here.new ≡ nothing_here) }
{
    let Some(run) = &here.worker.run else {
        return Ok(());
    };
    let Phase::Waits(object, _) = &run.phase else {
        return Ok(());
    };
    let object = *object;
    if !object.owned_by(worker) {
        return Ok(());
    }
    let kind = FaultKind::OwnerDied;
    fault(alloc, here, Fault { kind, object })
}

/// The Holds that are not of objects of the dead.
fn holds_of_others(
    alloc: Global,
    holds: &SmallList<Holding>,
    worker: WorkerId,
) -> Result<SmallList<Holding>, AllocError>
    ensures { IfOk result (λ others. others ≡ filter (λ k. not (k.object.owner == worker)) holds.now) }
{
    let mut others = SmallList::new(alloc);
    for hold in holds.as_slice() {
        if !hold.object.owned_by(worker) {
            others.push(*hold)?;
        }
    }
    Ok(others)
}

/// Takes out the Holds that are of objects of the dead.
fn keep_of_others(
    alloc: Global,
    holds: &mut SmallList<Holding>,
    worker: WorkerId,
) -> Result<(), AllocError>
    ensures done { OnOk result (holds.new ≡ filter (λ k. not (k.object.owner == worker)) holds.old) }
    ensures err { OnErr result (holds.new ≡ holds.old) }
{
    let others = holds_of_others(alloc, holds, worker)?;
    *holds = others;
    Ok(())
}

/// The own attempt waits for no Hold to the dead.
fn keep_holds_of_others(
    alloc: Global,
    here: &mut WorkerContext,
    worker: WorkerId,
) -> Result<(), AllocError>
    ensures done { (run : Execution) → here.old.worker.run ≡ Some run →
        OnOk result (here.new ≡ with_run here.old (record run { holds = filter (λ k. not (k.object.owner == worker)) run.holds })) }
    ensures err { OnErr result (here.new ≡ nothing_here) }
{
    if let Some(run) = &mut here.worker.run {
        return or_nothing(keep_of_others(alloc, &mut run.holds, worker), here);
    }
    Ok(())
}

/// Holds to the dead count as acknowledged, and a stopped attempt that waited for them alone is over.
fn drop_own_holds(
    alloc: Global,
    here: &mut WorkerContext,
    worker: WorkerId,
) -> Result<(), AllocError>
    ensures done { (run : Execution) → here.old.worker.run ≡ Some run → OnOk result (here.new ≡ drops_holds_by here.old worker (Some run)) }
    ensures err { OnErr result (here.new ≡ nothing_here) }
{
    keep_holds_of_others(alloc, here, worker)?;
    leave_if_free(alloc, here)
}

/// Holds to the dead count as acknowledged.
pub fn drop_holds(
    alloc: Global,
    here: &mut WorkerContext,
    worker: WorkerId,
) -> Result<(), AllocError>
    ensures done { OnOk result (here.new ≡ drops_holds here.old worker) }
    ensures err { OnErr result (here.new ≡ nothing_here) }
{
    match &here.worker.run {
        None => Ok(()),
        Some(_) => drop_own_holds(alloc, here, worker),
    }
}

/// Whether the attempt is over and its owner hasn't heard of it.
pub fn is_unheard(run: &Execution) -> bool
    ensures { result ≡ is_unheard run.now }
{
    run.is_over && !run.is_acknowledged
}

/// The end of an attempt of the dead counts as heard.
pub fn drop_stop(here: &mut WorkerContext, worker: WorkerId) -> Result<(), AllocError>
    ensures done { OnOk result (here.new ≡ drops_stop here.old worker) }
    ensures err { OnErr result (here.new ≡ nothing_here) }
{
    let Some(run) = &here.worker.run else {
        return Ok(());
    };
    if !is_unheard(run) {
        return Ok(());
    }
    if !run.attempt.owner().is(worker) {
        return Ok(());
    }
    note_heard(here)
}
