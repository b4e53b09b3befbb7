// What a worker's tables say of where contents are: which objects are waited for, pending or present, and at which node one is.

ghost use Rattle.std.specs.Prelude.{◌≡◌};
ghost use Rattle.contexts.specs.of_protocol.Numbered.{item_at};
ghost use Rattle.contexts.specs.of_protocol.Tables.{chosen_location, is_pending, is_pending_by, is_pending_task, is_waiting_for, live_location, task_in, task_of};
ghost use Rattle.contexts.specs.of_protocol.Locations.{is_present, may_gain_location};

use contexts::protocol_data::{Object, ObjectSource, Objects, OwnTask, Phase, Progress, Worker};
use ids::{NodeId, ObjectId};
use number_lists::{first_node, has_node, object_at_number};
use sequence::Seq;

/// Whether the worker's attempt waits for the object.
pub fn is_waiting_for(worker: &Worker, object: ObjectId) -> bool
    ensures { result ≡ is_waiting_for worker.now object }
{
    let Some(run) = &worker.run else {
        return false;
    };
    match &run.phase {
        Phase::Waits(y, _) => y.is(object),
        Phase::Ready => false,
        Phase::Out(_) => false,
        Phase::HasEnded(_) => false,
        Phase::HasFaulted(_) => false,
    }
}

/// Whether an attempt of the task is asked for or under way.
pub fn is_pending_task(task: &OwnTask) -> bool
    ensures { result ≡ is_pending_task task.now }
{
    match &task.progress {
        Progress::AtRest => false,
        Progress::AskedAt(..) => true,
        Progress::RunsOn(..) => true,
    }
}

/// Whether a task stands with an object so made, an attempt of which is asked for or under way.
pub fn is_pending_with(source: &ObjectSource) -> bool
    ensures { result ≡ is_pending_by (task_in source.now) }
{
    match source {
        ObjectSource::WasPut => false,
        ObjectSource::ByTask(task) => is_pending_task(task),
        ObjectSource::Beside(_) => false,
    }
}

/// Whether a task stands with the own object of that serial, and an attempt of it is asked for or under way.
fn is_pending_at(objects: &Objects, serial: u64) -> bool
    ensures { result ≡ is_pending_by (task_of (item_at objects.now serial)) }
{
    let Some(found) = object_at_number(objects, serial) else {
        return false;
    };
    is_pending_with(&found.source)
}

/// Whether an attempt of the task that makes the object, which may stand with another one of these, is asked for or under way.
pub fn is_pending(objects: &Objects, object: &Object) -> bool
    ensures { result ≡ is_pending objects.now object.now }
{
    match &object.source {
        ObjectSource::WasPut => false,
        ObjectSource::ByTask(task) => is_pending_task(task),
        ObjectSource::Beside(first) => is_pending_at(objects, *first),
    }
}

/// Whether it is of the content that the object has now, which the owner doesn't keep itself.
pub fn is_present(number: u32, object: &Object) -> bool
    ensures { result ≡ is_present number object.now }
{
    let Some(settled) = object.settled else {
        return false;
    };
    settled == number && !object.is_released && object.kept.is_none()
}

/// Whether a location of the object's content may be added: while an attempt is under way, only where one is known.
pub fn may_gain_location(objects: &Objects, object: &Object) -> bool
    ensures { result ≡ may_gain_location objects.now object.now }
{
    !is_pending(objects, object) || !object.locations.items.is_empty()
}

/// The first of the locations that isn't known dead.
pub fn live_location(worker: &Worker, nodes: &Seq<NodeId>) -> Option<NodeId>
    ensures { result ≡ live_location worker.now nodes.now }
{
    for node in &nodes.items {
        if !has_node(&worker.dead_nodes, *node) {
            return Some(*node);
        }
    }
    None
}

/// The own node if listed, else the first that isn't known dead, else the first.
pub fn chosen_location(worker: &Worker, nodes: &Seq<NodeId>) -> Option<NodeId>
    ensures { result ≡ chosen_location worker.now nodes.now }
{
    if has_node(nodes, worker.node) {
        return Some(worker.node);
    }
    if let Some(node) = live_location(worker, nodes) {
        return Some(node);
    }
    first_node(nodes)
}
