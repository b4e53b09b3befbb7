// Workers that ask where an object is, or find no copy of it.

ghost use Rattle.std.specs.Prelude.{◌≡◌, OnErr, OnOk, Some, None, true};
ghost use Rattle.worker_steps.specs.Concerned.{is_asked_by, is_missed, is_missed_by};
ghost use Rattle.worker_steps.specs.of_contexts.Emptied.{nothing_here};
ghost use Rattle.protocol.specs.Numbered.{changed_at};
ghost use Rattle.protocol.specs.Tables.{with_asker};
ghost use Rattle.protocol.specs.Steps.{changes};
ghost use Rattle.protocol.specs.Locations.{hands_missing_on, missing_from, missing_reached, takes_location, tells_released, where_reached};

use crate::needs::{need_own_if_waiting, remove_location, settled_number};
use crate::recovery::recover;
use ids::{NodeId, ObjectId, WorkerId};
use lineage::{has_content, is_lost};
use number_lists::{add_worker, row_of};
use protocol_data::{Endpoint, Message, Object, Objects, WorkerContext, copy_of};
use std::alloc::{AllocError, Global};
use values::{Fault, FaultKind};
use worker_steps::{
    find_none, is_own, is_present, is_waiting_for, object_at, or_nothing, report_missing, say,
};

/// The worker waits for the object of that serial.
fn add_asker_at(objects: &mut Objects, serial: u64, worker: WorkerId) -> Result<(), AllocError>
    ensures { OnOk result (objects.new ≡ changed_at objects.old serial (with_asker worker)) }
{
    let Some(place) = row_of(objects, serial) else {
        return Ok(());
    };
    let object = objects.row_mut(place);
    add_worker(&mut object.askers, worker)?;
    Ok(())
}

/// The worker waits for the own object.
fn add_asker(here: &mut WorkerContext, object: ObjectId, worker: WorkerId) -> Result<(), AllocError>
    ensures done { OnOk result (here.new ≡ changes here.old object (with_asker worker)) }
    ensures err { OnErr result (here.new ≡ nothing_here) }
{
    or_nothing(
        add_asker_at(&mut here.worker.objects, object.serial, worker),
        here,
    )
}

/// Who asks for a released object is told of a fault where an object of the dead held it, and is passed over else.
fn tell_released(
    here: &mut WorkerContext,
    worker: WorkerId,
    object: ObjectId,
    dead_holder: Option<ObjectId>,
) -> Result<(), AllocError>
    ensures done { OnOk result (here.new ≡ tells_released here.old object worker dead_holder) }
    ensures err { OnErr result (here.new ≡ nothing_here) }
{
    let Some(held_by) = dead_holder else {
        return Ok(());
    };
    let why = Fault {
        kind: FaultKind::OwnerDied,
        object: held_by,
    };
    say(here, worker, Message::Gone(object, why))
}

/// Another worker asks where the own object is: it is told that there is no content (Gone), or all locations or the content
/// that the owner keeps (At), or it waits. A lost object is made again. Of one that was released it is told that there is no content, where an
/// object of the dead held it.
pub fn where_reached(
    alloc: Global,
    here: &mut WorkerContext,
    worker: WorkerId,
    object: ObjectId,
) -> Result<(), AllocError>
    ensures done { OnOk result (here.new ≡ where_reached here.old worker object) }
    ensures err { OnErr result (here.new ≡ nothing_here) }
    ensures asked { OnErr result (is_asked_by here.old worker object ≡ true) }
{
    let Some(found) = object_at(here, object) else {
        return Ok(());
    };
    if worker.is(here.me) {
        return Ok(());
    }
    if let Some(why) = found.fault {
        return say(here, worker, Message::Gone(object, why));
    }
    if has_content(found) {
        let number = settled_number(found);
        let locations = found.locations.copy(alloc);
        let kept = copy_of(&found.kept, alloc);
        let locations = or_nothing(locations, here)?;
        let kept = or_nothing(kept, here)?;
        return say(here, worker, Message::At(object, number, locations, kept));
    }
    if found.is_released {
        let dead_holder = found.dead_holder;
        return tell_released(here, worker, object, dead_holder);
    }
    if is_lost(&here.worker.objects, found) {
        add_asker(here, object, worker)?;
        return recover(alloc, here, object);
    }
    add_asker(here, object, worker)
}

/// A location of that content of the own object is none any more.
fn take_location(here: &mut WorkerContext, object: ObjectId, number: u32, node: NodeId)
    ensures { here.new ≡ takes_location here.old object number node }
{
    let Some(found) = object_at(here, object) else {
        return;
    };
    if !is_present(number, found) {
        return;
    }
    remove_location(here, object, node);
}

/// The owner is told of it, by the waiting attempt or in its place.
fn hand_missing_on(
    here: &mut WorkerContext,
    object: ObjectId,
    number: u32,
    node: NodeId,
) -> Result<(), AllocError>
    ensures done { OnOk result (here.new ≡ hands_missing_on here.old object number node) }
    ensures err { OnErr result (here.new ≡ nothing_here) }
{
    if is_waiting_for(&here.worker, object) {
        return find_none(here, object, number, node);
    }
    report_missing(here, object, number, node)
}

/// Whoever told it is treated as one that asks.
fn missing_from(
    alloc: Global,
    here: &mut WorkerContext,
    sender: &Endpoint,
    object: ObjectId,
) -> Result<(), AllocError>
    ensures done { OnOk result (here.new ≡ missing_from here.old sender.now object) }
    ensures err { OnErr result (here.new ≡ nothing_here) }
    ensures asked { OnErr result (is_missed_by here.old sender.now object ≡ true) }
{
    match sender {
        Endpoint::TheWorker(worker) => where_reached(alloc, here, *worker, object),
        Endpoint::TheNode(_) => need_own_if_waiting(alloc, here, object),
    }
}

/// There is no copy of the content of that number at the node. The owner takes that location out, and then treats a worker that told it as one
/// that asks; where a node told it, the own waiting attempt looks again. Another worker hands it on to the owner.
pub fn missing_reached(
    alloc: Global,
    here: &mut WorkerContext,
    sender: &Endpoint,
    object: ObjectId,
    number: u32,
    node: NodeId,
) -> Result<(), AllocError>
    ensures done { OnOk result (here.new ≡ missing_reached here.old sender.now object number node) }
    ensures err { OnErr result (here.new ≡ nothing_here) }
    ensures asked { OnErr result (is_missed here.old sender.now object ≡ true) }
{
    if !is_own(here, object) {
        return hand_missing_on(here, object, number, node);
    }
    take_location(here, object, number, node);
    missing_from(alloc, here, sender, object)
}
