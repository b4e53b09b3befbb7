// A lost object is made again.

ghost use Rattle.std.specs.Prelude.{◌≡◌, Err, OnErr, OnOk, Some, None};
ghost use Rattle.worker_steps.specs.of_contexts.Emptied.{nothing_here};
ghost use Rattle.protocol.specs.Steps.{own_object};
ghost use Rattle.protocol.specs.Recovery.{gives_up, recovers, recovers_if_lost, remakes, remakes_one};
ghost use Rattle.lineage.specs.Plans.{IsPlanned};
ghost use Rattle.owner_steps.specs.Made.{AllMayBeMade, MayBeMade};

use crate::faulted::answer_faulted;
use ids::ObjectId;
use lineage::{Stop, first_by, is_lost_here, may_try_again, plan, task_by};
use number_lists::object_at_number;
use protocol::laws::plans_are_least_closed_sets;
use protocol_data::WorkerContext;
use sequence::Seq;
use std::alloc::{AllocError, Global};
use values::Fault;
use worker_steps::{is_pending_task, or_nothing, request, resolve};

/// The next attempt of the task that makes the object of that serial is asked for, unless one is under way already.
#[tactic(auto, using(crate::proofs::Remaking::has_retries, crate::proofs::Remaking::stands_first))]
fn remake(here: &mut WorkerContext, serial: u64) -> Result<(), AllocError>
    requires { MayBeMade here.old serial }
    ensures done { OnOk result (here.new ≡ remakes_one here.old serial (own_object here.old serial)) }
    ensures err { OnErr result (here.new ≡ nothing_here) }
{
    let objects = &here.worker.objects;
    let Some(found) = object_at_number(objects, serial) else {
        return Ok(());
    };
    let Some(task) = task_by(objects, &found.source) else {
        return Ok(());
    };
    if is_pending_task(task) {
        return Ok(());
    }
    // It may be tried again, so the next number fits.
    let _ = may_try_again(task);
    let number = task.number + 1;
    let owner = here.me;
    let serial = first_by(serial, &found.source);
    request(here, ObjectId { owner, serial }, number)
}

/// These are asked for again, each once, and of the objects of one task one attempt.
fn remake_all(here: &mut WorkerContext, serials: &Seq<u64>) -> Result<(), AllocError>
    requires { AllMayBeMade here.old serials.now }
    ensures done { OnOk result (here.new ≡ remakes here.old serials.now) }
    ensures err { OnErr result (here.new ≡ nothing_here) }
{
    for serial in &serials.items {
        remake(here, *serial)?;
    }
    Ok(())
}

/// The object that stops the plan is resolved, and the one asked for to the same fault.
fn give_up(
    alloc: Global,
    here: &mut WorkerContext,
    object: ObjectId,
    why: Fault,
) -> Result<(), AllocError>
    ensures done { OnOk result (here.new ≡ gives_up here.old object why) }
    ensures err { OnErr result (here.new ≡ nothing_here) }
{
    if why.object.is(object) {
        resolve(here, object, why)?;
        return answer_faulted(alloc, here, object);
    }
    resolve(here, why.object, why)?;
    resolve(here, object, why)?;
    answer_faulted(alloc, here, why.object)?;
    answer_faulted(alloc, here, object)
}

/// A stop of the object's plan, carried out.
#[tactic(auto, using(crate::proofs::Plans::stopped))]
fn give_up_by(
    alloc: Global,
    here: &mut WorkerContext,
    object: ObjectId,
    stop: Stop,
) -> Result<(), AllocError>
    ensures done { OnOk result (IsPlanned here.old object.serial (Err stop) → here.new ≡ recovers here.old object) }
    ensures err { OnErr result (here.new ≡ nothing_here) }
{
    match stop {
        Stop::CannotBeRemade(why) => give_up(alloc, here, object, why),
        Stop::NoMemory => or_nothing(Err(AllocError), here),
    }
}

/// The lost own object is made again, with the lost objects that it is made from: in birth order the next attempt of each is asked for. If one of
/// them can't be made again the first such one is resolved, the object asked for to the same fault, and whoever waits for them is answered.
#[tactic(auto, using(crate::proofs::Plans::remade))]
pub fn recover(alloc: Global, here: &mut WorkerContext, object: ObjectId) -> Result<(), AllocError>
    ensures done { OnOk result (here.new ≡ recovers here.old object) }
    ensures err { OnErr result (here.new ≡ nothing_here) }
{
    plans_are_least_closed_sets();
    match plan(alloc, here, object) {
        Ok(plan) => remake_all(here, &plan.serials),
        Err(stop) => give_up_by(alloc, here, object, stop),
    }
}

/// So where the own object is lost.
pub fn recover_if_lost(
    alloc: Global,
    here: &mut WorkerContext,
    object: ObjectId,
) -> Result<(), AllocError>
    ensures done { OnOk result (here.new ≡ recovers_if_lost here.old object) }
    ensures err { OnErr result (here.new ≡ nothing_here) }
{
    if is_lost_here(here, object) {
        return recover(alloc, here, object);
    }
    Ok(())
}
