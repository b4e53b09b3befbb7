// Attempts that begin, break, or are asked for elsewhere.

ghost use Rattle.std.specs.Prelude.{◌≡◌, ◌+◌, ◌≤◌, ◌^◌, ◌++◌, ◌∷◌, [], OnErr, OnOk, IfOk, Some, None, true};
ghost use Rattle.worker_steps.specs.of_contexts.Emptied.{nothing_here};
ghost use Rattle.protocol.specs.Numbered.{changed_at, item_at};
ghost use Rattle.protocol.specs.Tables.{task_of, with_task};
ghost use Rattle.protocol.specs.Steps.{object_at};
ghost use Rattle.protocol.specs.Asking.{asks_next, begins, breaks, elsewhere_reached, first_live, given_reached, if_asked, pushes, uses_up, with_begun};
ghost use Rattle.protocol_data.specs.declared.tables.OwnTask.{OwnTask};
ghost use Rattle.owner_steps.specs.Asked.{has_ask};

use crate::ends::rest;
use crate::results::{answer_all_faulted, resolve_all_used};
use ids::{AttemptId, NodeId, ObjectId, WorkerId};
use lease::next_in_circle;
use lineage::may_try_again;
use log_entries::Entry;
use number_lists::{has_node, object_at_number, row_of};
use protocol_data::{
    Message, Object, ObjectSource, Objects, OwnTask, Progress, Worker, WorkerContext,
};
use sequence::refused_growth;
use std::alloc::{AllocError, Global};
use worker_steps::{ask_at, end_of, is_own, knows_dead, log, or_nothing, request, say};

/// The task has no retries left: those of its objects that have no copy are resolved by RetriesUsed, and whoever waits for one of them is answered.
#[tactic(auto, using(crate::proofs::Each::used_up))]
fn use_up(
    alloc: Global,
    here: &mut WorkerContext,
    object: ObjectId,
    number: u32,
) -> Result<(), AllocError>
    ensures done { (task : OwnTask) → task_of (item_at here.old.worker.objects object.serial) ≡ Some task → task.number ≡ number
        → OnOk result (here.new ≡ uses_up here.old object task) }
    ensures err { OnErr result (here.new ≡ nothing_here) }
{
    let end = end_of(&here.worker.objects, object.serial);
    rest(here, object, number);
    resolve_all_used(here, object.serial, end)?;
    answer_all_faulted(alloc, here, object.serial, end)
}

/// The present attempt of the pending task that stands with the object is broken: its worker or its node is dead. While there are retries left the
/// next attempt is asked for, at the own node; else those of the task's objects that have no copy are resolved by RetriesUsed, and whoever waits for
/// one of them is answered.
pub fn break_attempt(
    alloc: Global,
    here: &mut WorkerContext,
    object: ObjectId,
) -> Result<(), AllocError>
    ensures done { (task : OwnTask) → task_of (item_at here.old.worker.objects object.serial) ≡ Some task
        → OnOk result (here.new ≡ breaks here.old object task) }
    ensures err { OnErr result (here.new ≡ nothing_here) }
{
    let Some(found) = object_at_number(&here.worker.objects, object.serial) else {
        return Ok(());
    };
    let ObjectSource::ByTask(task) = &found.source else {
        return Ok(());
    };
    let number = task.number;
    if may_try_again(task) {
        return request(here, object, number + 1);
    }
    use_up(alloc, here, object, number)
}

/// The task's present attempt runs on the worker.
fn set_begun(object: &mut Object, worker: WorkerId, node: NodeId) -> Result<(), AllocError>
    ensures { (task : OwnTask) → task_of (Some object.old) ≡ Some task
        → OnOk result (object.new ≡ with_task (with_begun task worker node) object.old) }
{
    if let ObjectSource::ByTask(task) = &mut object.source {
        task.begun.push(worker)?;
        task.progress = Progress::RunsOn(worker, node);
        return Ok(());
    }
    Ok(())
}

/// The same, of the object of that serial.
fn set_begun_at(
    objects: &mut Objects,
    serial: u64,
    worker: WorkerId,
    node: NodeId,
) -> Result<(), AllocError>
    ensures { (task : OwnTask) → task_of (item_at objects.old serial) ≡ Some task
        → OnOk result (objects.new ≡ changed_at objects.old serial (with_task (with_begun task worker node))) }
{
    let Some(place) = row_of(objects, serial) else {
        return Ok(());
    };
    let object = objects.row_mut(place);
    set_begun(object, worker, node)?;
    Ok(())
}

/// The worker is told to run the attempt.
fn push(
    alloc: Global,
    here: &mut WorkerContext,
    object: ObjectId,
    worker: WorkerId,
    node: NodeId,
) -> Result<(), AllocError>
    ensures done { (task : OwnTask) → task_of (item_at here.old.worker.objects object.serial) ≡ Some task
        → OnOk result (here.new ≡ pushes here.old object (with_begun task worker node) worker) }
    ensures err { OnErr result (here.new ≡ nothing_here) }
{
    let Some(found) = object_at_number(&here.worker.objects, object.serial) else {
        return Ok(());
    };
    let ObjectSource::ByTask(task) = &found.source else {
        return Ok(());
    };
    let attempt = AttemptId {
        object,
        number: task.number,
    };
    let spec = or_nothing(task.spec.copy(alloc), here)?;
    match set_begun_at(&mut here.worker.objects, object.serial, worker, node) {
        Ok(()) => {}
        Err(error) => return or_nothing(Err(error), here),
    }
    log(here, Entry::Begun { attempt, worker })?;
    say(here, worker, Message::Push(attempt, spec))
}

/// The attempt that was begun on a dead worker is broken.
fn push_in_vain(
    alloc: Global,
    here: &mut WorkerContext,
    object: ObjectId,
    worker: WorkerId,
    node: NodeId,
) -> Result<(), AllocError>
    ensures done { (task : OwnTask) → task_of (item_at here.old.worker.objects object.serial) ≡ Some task
        → OnOk result (here.new ≡ breaks (pushes here.old object (with_begun task worker node) worker) object (with_begun task worker node)) }
    ensures err { OnErr result (here.new ≡ nothing_here) }
{
    push(alloc, here, object, worker, node)?;
    break_attempt(alloc, here, object)
}

/// The owner learns that the worker, given by the node, runs the attempt.
fn begin(
    alloc: Global,
    here: &mut WorkerContext,
    object: ObjectId,
    worker: WorkerId,
    node: NodeId,
) -> Result<(), AllocError>
    ensures done { (task : OwnTask) → task_of (item_at here.old.worker.objects object.serial) ≡ Some task
        → OnOk result (here.new ≡ begins here.old object task worker node) }
    ensures err { OnErr result (here.new ≡ nothing_here) }
{
    if knows_dead(&here.worker, worker) {
        return push_in_vain(alloc, here, object, worker, node);
    }
    push(alloc, here, object, worker, node)
}

/// Whether it is the present ask of the task.
fn is_asked(t: u32, attempt: AttemptId, task: &OwnTask) -> bool
    ensures { result ≡ if_asked t attempt task.now }
{
    if task.number != attempt.number {
        return false;
    }
    match &task.progress {
        Progress::AtRest => false,
        Progress::AskedAt(u, _) => *u == t,
        Progress::RunsOn(..) => false,
    }
}

/// Whether ask `t` of the attempt, of an own object, is the one that stands.
fn has_ask(here: &WorkerContext, attempt: AttemptId, t: u32) -> bool
    ensures { result ≡ has_ask t attempt (task_of (object_at here.now attempt.object)) }
{
    if !is_own(here, attempt.object) {
        return false;
    }
    let Some(found) = object_at_number(&here.worker.objects, attempt.object.serial) else {
        return false;
    };
    match &found.source {
        ObjectSource::ByTask(task) => is_asked(t, attempt, task),
        _ => false,
    }
}

/// The node has given the worker to ask `t` of the attempt. Where that ask stands the attempt begins: that is logged, and the worker gets the
/// Push; if it is known dead the attempt is broken at once. Another Give is passed over.
pub fn given_reached(
    alloc: Global,
    here: &mut WorkerContext,
    node: NodeId,
    attempt: AttemptId,
    t: u32,
    worker: WorkerId,
) -> Result<(), AllocError>
    ensures done { OnOk result (here.new ≡ given_reached here.old node attempt t worker) }
    ensures err { OnErr result (here.new ≡ nothing_here) }
    ensures asked { OnErr result (has_ask t attempt (task_of (object_at here.old attempt.object)) ≡ true) }
{
    if !has_ask(here, attempt, t) {
        return Ok(());
    }
    begin(alloc, here, attempt.object, worker, node)
}

/// The first node from that one on, in the circle of numbers, that isn't known dead.
#[tactic(auto, using(crate::proofs::Circles::live_here, crate::proofs::Circles::dead_here, crate::proofs::Circles::none_left))]
pub fn first_live(worker: &Worker, count: u64, node: NodeId) -> NodeId
    ensures { result ≡ first_live worker.now count count node }
{
    let mut next = node;
    for turn in 0..count {
        let _ = turn;
        if !has_node(&worker.dead_nodes, next) {
            return next;
        }
        next = next_in_circle(count, next);
    }
    next
}

/// The number of the ask after ask `t`. There is none past 2^32 - 1, where no attempt comes: it is asked for at most once at each of 64 nodes in turn,
/// and again where one of them dies.
fn next_ask(alloc: Global, t: u32) -> Result<u32, AllocError>
    ensures next { IfOk result (λ u. u ≡ t + 1) }
    ensures refused { OnErr result (2 ^ 32 ≤ t + 1) }
{
    match t.checked_add(1) {
        Some(next) => Ok(next),
        None => Err(refused_growth(alloc)),
    }
}

/// Ask `t + 1` of the attempt of that number goes to the node, or to the first after it in the circle of numbers that isn't known dead.
pub fn ask_next(
    here: &mut WorkerContext,
    object: ObjectId,
    number: u32,
    t: u32,
    node: NodeId,
) -> Result<(), AllocError>
    ensures done { (task : OwnTask) → task_of (item_at here.old.worker.objects object.serial) ≡ Some task
        → OnOk result (here.new ≡ asks_next here.old object (record task { number = number }) t node) }
    ensures err { OnErr result (here.new ≡ nothing_here) }
{
    let alloc = *here.there.out.entries.items.allocator();
    let t = or_nothing(next_ask(alloc, t), here)?;
    let next = first_live(&here.worker, here.there.nodes, node);
    ask_at(here, object, number, t, next)
}

/// The present attempt is asked for on from the node.
fn ask_on(
    here: &mut WorkerContext,
    object: ObjectId,
    t: u32,
    node: NodeId,
) -> Result<(), AllocError>
    ensures done { (task : OwnTask) → task_of (item_at here.old.worker.objects object.serial) ≡ Some task
        → OnOk result (here.new ≡ asks_next here.old object task t node) }
    ensures err { OnErr result (here.new ≡ nothing_here) }
{
    let Some(found) = object_at_number(&here.worker.objects, object.serial) else {
        return Ok(());
    };
    let ObjectSource::ByTask(task) = &found.source else {
        return Ok(());
    };
    let number = task.number;
    ask_next(here, object, number, t, node)
}

/// No slot was free for ask `t` of the attempt, and that node is next. Where that ask stands it is followed there; another Elsewhere is passed
/// over.
pub fn elsewhere_reached(
    here: &mut WorkerContext,
    attempt: AttemptId,
    t: u32,
    node: NodeId,
) -> Result<(), AllocError>
    ensures done { OnOk result (here.new ≡ elsewhere_reached here.old attempt t node) }
    ensures err { OnErr result (here.new ≡ nothing_here) }
    ensures asked { OnErr result (has_ask t attempt (task_of (object_at here.old attempt.object)) ≡ true) }
{
    if !has_ask(here, attempt, t) {
        return Ok(());
    }
    ask_on(here, attempt.object, t, node)
}
