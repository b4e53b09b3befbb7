// The owner hears how an attempt stopped.

ghost use Rattle.std.specs.Prelude.{◌≡◌, ◌&&◌, ◌-◌, ◌==◌, IfOk, OnErr, OnOk, [], ◌∷◌, ◌++◌, Some, None, drop, true};
ghost use Rattle.worker_steps.specs.of_contexts.Emptied.{nothing_here};
ghost use Rattle.protocol.specs.Numbered.{changed_at, item_at};
ghost use Rattle.protocol.specs.Tables.{ever_for, is_pending_task, locations_for, task_of, with_content};
ghost use Rattle.protocol.specs.Steps.{changes, with_task_of};
ghost use Rattle.protocol.specs.Asking.{rests};
ghost use Rattle.protocol.specs.Ends.{accepts, failed_by, failed_reached, fails, finished_by, finished_reached, first_result, hears_of_end, if_present, settles};
ghost use Rattle.protocol_data.specs.declared.tables.OwnTask.{OwnTask};

use crate::results::{answer_all_faulted, answer_all_settled, resolve_all_open};
use held::SharedContent;
use ids::{AttemptId, NodeId, ObjectId, WorkerId};
use log_entries::Entry;
use number_lists::{add_node, add_objects, object_at_number, row_of};
use protocol_data::{
    EndedResult, Message, Object, ObjectSource, Objects, OwnTask, Progress, SmallList,
    WorkerContext, copy_of,
};
use sequence::Seq;
use std::alloc::{AllocError, Global};
use values::Fault;
use worker_steps::{end_of, is_own, log, or_nothing, say, set_progress_at};

/// Whether it is the present attempt of a pending task.
fn is_present_attempt(attempt: AttemptId, task: &OwnTask) -> bool
    ensures { result ≡ if_present attempt task.now }
{
    match &task.progress {
        Progress::AtRest => false,
        Progress::AskedAt(..) => task.number == attempt.number,
        Progress::RunsOn(..) => task.number == attempt.number,
    }
}

/// The worker is told that its owner has heard how the attempt stopped.
fn hear_of_end(
    here: &mut WorkerContext,
    worker: WorkerId,
    attempt: AttemptId,
) -> Result<(), AllocError>
    ensures done { OnOk result (here.new ≡ hears_of_end here.old worker attempt) }
    ensures err { OnErr result (here.new ≡ nothing_here) }
{
    say(here, worker, Message::FinishedAck(attempt))
}

/// No attempt of the object's task is under way.
pub fn rest(here: &mut WorkerContext, object: ObjectId, number: u32)
    ensures { (task : OwnTask) → task_of (item_at here.old.worker.objects object.serial) ≡ Some task → task.number ≡ number
        → here.new ≡ with_task_of here.old object (rests task) }
{
    set_progress_at(
        &mut here.worker.objects,
        object.serial,
        number,
        Progress::AtRest,
    );
}

/// Where a content is that was made at the node: there, unless the owner keeps it.
fn locations_for(
    alloc: Global,
    node: NodeId,
    kept: &Option<SharedContent>,
) -> Result<Seq<NodeId>, AllocError>
    ensures { IfOk result (λ locations. locations ≡ locations_for node kept.now) }
{
    let mut locations = Seq::new(alloc);
    if kept.is_some() {
        return Ok(locations);
    }
    locations.push(node)?;
    Ok(locations)
}

/// A copy was ever known at the node too where a content was made there, unless the owner keeps it.
fn note_made(
    all_locations: &mut Seq<NodeId>,
    node: NodeId,
    kept: &Option<SharedContent>,
) -> Result<(), AllocError>
    ensures { OnOk result (all_locations.new ≡ ever_for node kept.now all_locations.old) }
{
    if kept.is_some() {
        return Ok(());
    }
    add_node(all_locations, node)
}

/// The object of that serial has the content of the accepted attempt.
fn set_content_at(
    alloc: Global,
    objects: &mut Objects,
    serial: u64,
    number: u32,
    node: NodeId,
    ids: &Seq<ObjectId>,
    kept: &Option<SharedContent>,
) -> Result<(), AllocError>
    ensures { OnOk result (objects.new ≡ changed_at objects.old serial (with_content number node ids.now kept.now)) }
{
    let Some(place) = row_of(objects, serial) else {
        return Ok(());
    };
    let locations = locations_for(alloc, node, kept)?;
    let own = copy_of(kept, alloc)?;
    let object = objects.row_mut(place);
    object.settled = Some(number);
    object.locations = locations;
    note_made(&mut object.all_locations, node, kept)?;
    object.kept = own;
    add_objects(&mut object.ids, ids)?;
    Ok(())
}

/// The object of that serial has the content that the result in that place tells of; where there is none, one of which nothing is told.
#[tactic(auto, using(crate::proofs::Told::one_told, crate::proofs::Told::none_told))]
fn set_told_content_at(
    alloc: Global,
    objects: &mut Objects,
    serial: u64,
    number: u32,
    node: NodeId,
    results: &SmallList<EndedResult>,
    place: usize,
) -> Result<(), AllocError>
    ensures { OnOk result (objects.new ≡ changed_at objects.old serial
        (with_content number node (first_result (drop place results.now)).ids (first_result (drop place results.now)).kept)) }
{
    if place >= results.len() {
        let ids = Seq::new(alloc);
        let kept = None;
        return set_content_at(alloc, objects, serial, number, node, &ids, &kept);
    }
    let told = results.get(place);
    set_content_at(alloc, objects, serial, number, node, &told.ids, &told.kept)
}

/// The object and each behind it, to before that serial, have the contents that these results tell of, in order.
#[tactic(auto, using(crate::proofs::Told::first_settled, crate::proofs::Told::next_settled, crate::proofs::Told::all_settled))]
fn settle_all(
    alloc: Global,
    here: &mut WorkerContext,
    object: ObjectId,
    end: u64,
    number: u32,
    node: NodeId,
    results: &SmallList<EndedResult>,
) -> Result<(), AllocError>
    ensures done { OnOk result (here.new ≡ settles here.old object number node (end - object.serial) results.now) }
    ensures err { OnErr result (here.new ≡ nothing_here) }
{
    let mut place = 0;
    for serial in object.serial..end {
        let objects = &mut here.worker.objects;
        let set = set_told_content_at(alloc, objects, serial, number, node, results, place);
        or_nothing(set, here)?;
        place += 1;
    }
    Ok(())
}

/// The attempt's end is accepted.
#[tactic(auto, using(crate::proofs::Each::accepted))]
fn accept(
    alloc: Global,
    here: &mut WorkerContext,
    attempt: AttemptId,
    node: NodeId,
    results: &SmallList<EndedResult>,
) -> Result<(), AllocError>
    ensures done { (task : OwnTask) → task_of (item_at here.old.worker.objects attempt.object.serial) ≡ Some task → task.number ≡ attempt.number
        → OnOk result (here.new ≡ accepts here.old attempt task node results.now) }
    ensures err { OnErr result (here.new ≡ nothing_here) }
{
    let end = end_of(&here.worker.objects, attempt.object.serial);
    rest(here, attempt.object, attempt.number);
    settle_all(
        alloc,
        here,
        attempt.object,
        end,
        attempt.number,
        node,
        results,
    )?;
    log(here, Entry::Accepted(attempt))
}

/// The attempt under way has ended: that is accepted, and whoever waits for one of the task's objects is answered.
#[tactic(auto, using(crate::proofs::Each::finished))]
fn take_end(
    alloc: Global,
    here: &mut WorkerContext,
    worker: WorkerId,
    attempt: AttemptId,
    node: NodeId,
    results: &SmallList<EndedResult>,
) -> Result<(), AllocError>
    ensures done { (task : OwnTask) → task_of (item_at here.old.worker.objects attempt.object.serial) ≡ Some task → task.number ≡ attempt.number
        → if_present attempt task ≡ true
        → OnOk result (here.new ≡ finished_by here.old worker attempt node results.now (Some task)) }
    ensures err { OnErr result (here.new ≡ nothing_here) }
{
    let end = end_of(&here.worker.objects, attempt.object.serial);
    accept(alloc, here, attempt, node, results)?;
    hear_of_end(here, worker, attempt)?;
    answer_all_settled(alloc, here, attempt.object.serial, end)
}

/// The worker tells that the attempt has ended, with contents at the node of which this is told, a small one with its content. If it is the
/// present attempt of a pending task it is accepted, and whoever waits for one of the task's objects is answered. Of any attempt the worker is told
/// that its end was heard.
pub fn finished_reached(
    alloc: Global,
    here: &mut WorkerContext,
    worker: WorkerId,
    attempt: AttemptId,
    node: NodeId,
    results: &SmallList<EndedResult>,
) -> Result<(), AllocError>
    ensures done { OnOk result (here.new ≡ finished_reached here.old worker attempt node results.now) }
    ensures err { OnErr result (here.new ≡ nothing_here) }
{
    if !is_own(here, attempt.object) {
        return hear_of_end(here, worker, attempt);
    }
    let Some(found) = object_at_number(&here.worker.objects, attempt.object.serial) else {
        return hear_of_end(here, worker, attempt);
    };
    let ObjectSource::ByTask(task) = &found.source else {
        return hear_of_end(here, worker, attempt);
    };
    if !is_present_attempt(attempt, task) {
        return hear_of_end(here, worker, attempt);
    }
    take_end(alloc, here, worker, attempt, node, results)
}

/// The attempt under way has that fault: those of the task's objects that have none are resolved to it, and whoever waits for one of them is answered.
#[tactic(auto, using(crate::proofs::Each::failed))]
fn take_fault(
    alloc: Global,
    here: &mut WorkerContext,
    worker: WorkerId,
    attempt: AttemptId,
    why: Fault,
) -> Result<(), AllocError>
    ensures done { (task : OwnTask) → task_of (item_at here.old.worker.objects attempt.object.serial) ≡ Some task → task.number ≡ attempt.number
        → if_present attempt task ≡ true
        → OnOk result (here.new ≡ failed_by here.old worker attempt why (Some task)) }
    ensures err { OnErr result (here.new ≡ nothing_here) }
{
    let end = end_of(&here.worker.objects, attempt.object.serial);
    rest(here, attempt.object, attempt.number);
    resolve_all_open(here, attempt.object.serial, end, why)?;
    hear_of_end(here, worker, attempt)?;
    answer_all_faulted(alloc, here, attempt.object.serial, end)
}

/// The worker tells that the attempt has ended by a fault. If it is the present attempt of a pending task those of the task's objects that have no
/// fault are resolved to this one, and whoever waits for one of them is answered. Of any attempt the worker is told that its end was heard.
pub fn failed_reached(
    alloc: Global,
    here: &mut WorkerContext,
    worker: WorkerId,
    attempt: AttemptId,
    why: Fault,
) -> Result<(), AllocError>
    ensures done { OnOk result (here.new ≡ failed_reached here.old worker attempt why) }
    ensures err { OnErr result (here.new ≡ nothing_here) }
{
    if !is_own(here, attempt.object) {
        return hear_of_end(here, worker, attempt);
    }
    let Some(found) = object_at_number(&here.worker.objects, attempt.object.serial) else {
        return hear_of_end(here, worker, attempt);
    };
    let ObjectSource::ByTask(task) = &found.source else {
        return hear_of_end(here, worker, attempt);
    };
    if !is_present_attempt(attempt, task) {
        return hear_of_end(here, worker, attempt);
    }
    take_fault(alloc, here, worker, attempt, why)
}
