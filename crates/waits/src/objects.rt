// What keeps an object from coming for which a worker waits.

ghost use Rattle.std.specs.Prelude.{◌≡◌, MatchOption, None, Some};
ghost use Rattle.waits.specs.Links.{asked_link, asker_link, fetch_link, first_link, foreign_link, made_link, source_link, object_of, own_link};
ghost use Rattle.waits.specs.Links.{progress_link, task_link, wait_link};
ghost use Rattle.waits.specs.Tables.{worker_at};

use crate::link::Link;
use crate::lookups::{is_live, is_live_node, is_one, object_at, worker_at};
use crate::sent::sent;
use crate::topics::Topic;
use ids::{AttemptId, NodeId, ObjectId, WorkerId};
use protocol_data::{ClusterState, Object, ObjectSource, Progress};

fn progress_link(worker: WorkerId, attempt: AttemptId, progress: Progress) -> Link
    ensures { result ≡ progress_link worker attempt progress }
{
    match progress {
        Progress::AtRest => Link::Resting(worker),
        Progress::AskedAt(number, node) => Link::AskedFor(attempt, number, node),
        Progress::RunsOn(runner, node) => Link::RunsAt(attempt, runner, node),
    }
}

/// How far its owner is with the task that stands with the object.
fn task_link(worker: WorkerId, object: ObjectId, source: &ObjectSource) -> Link
    ensures { result ≡ task_link worker object source.now }
{
    match source {
        ObjectSource::WasPut | ObjectSource::Beside(_) => Link::Resting(worker),
        ObjectSource::ByTask(task) => {
            let attempt = AttemptId {
                object,
                number: task.number,
            };
            progress_link(worker, attempt, task.progress)
        }
    }
}

/// The object, in the table of its owner.
fn object_of(whole: &ClusterState, object: ObjectId) -> Option<&Object>
    ensures { MatchOption result
        (object_of object (worker_at whole.now object.owner) ≡ None)
        (λ x. object_of object (worker_at whole.now object.owner) ≡ Some x.now) }
{
    let Some(owner) = worker_at(whole, object.owner) else {
        return None;
    };
    object_at(&owner.objects, object.serial)
}

fn first_link(whole: &ClusterState, worker: WorkerId, first: ObjectId) -> Link
    ensures { result ≡ first_link worker first (object_of first (worker_at whole.now first.owner)) }
{
    match object_of(whole, first) {
        None => Link::Resting(worker),
        Some(found) => task_link(worker, first, &found.source),
    }
}

/// How far its owner is with the task that makes it, which may stand with another object.
fn source_link(
    whole: &ClusterState,
    worker: WorkerId,
    object: ObjectId,
    source: &ObjectSource,
) -> Link
    ensures { result ≡ source_link whole.now worker object source.now }
{
    match source {
        ObjectSource::WasPut | ObjectSource::ByTask(_) => task_link(worker, object, source),
        ObjectSource::Beside(serial) => {
            let owner = object.owner;
            let serial = *serial;
            first_link(whole, worker, ObjectId { owner, serial })
        }
    }
}

fn made_link(whole: &ClusterState, worker: WorkerId, object: ObjectId, made: &Object) -> Link
    ensures { result ≡ made_link whole.now worker object made.now }
{
    if made.is_released {
        return Link::WasReleased(object);
    }
    source_link(whole, worker, object, &made.source)
}

/// A worker that waits for the object, which its owner knows or not.
fn asker_link(whole: &ClusterState, worker: WorkerId, object: ObjectId, made: &Object) -> Link
    ensures { result ≡ foreign_link whole.now worker object (Some made.now) }
{
    if is_one(made.askers.as_slice(), worker) {
        return made_link(whole, worker, object, made);
    }
    if let Some(number) = sent(whole, &Topic::SoughtBy(worker, object)) {
        return Link::UnderWay(number);
    }
    if made.is_released {
        return Link::WasReleased(object);
    }
    Link::Resting(worker)
}

fn own_link(whole: &ClusterState, object: ObjectId) -> Link
    ensures { result ≡ own_link whole.now object.owner object (object_of object (worker_at whole.now object.owner)) }
{
    match object_of(whole, object) {
        None => Link::Resting(object.owner),
        Some(made) => made_link(whole, object.owner, object, made),
    }
}

fn foreign_link(whole: &ClusterState, worker: WorkerId, object: ObjectId) -> Link
    ensures { result ≡ foreign_link whole.now worker object (object_of object (worker_at whole.now object.owner)) }
{
    match object_of(whole, object) {
        None => Link::Resting(worker),
        Some(made) => asker_link(whole, worker, object, made),
    }
}

#[tactic(auto, unfolding(crate::specs::Links::asked_link))]
fn asked_link(whole: &ClusterState, worker: WorkerId, object: ObjectId) -> Link
    ensures { result ≡ asked_link whole.now worker object }
{
    if object.owner.is(worker) {
        return own_link(whole, object);
    }
    if is_live(whole, object.owner) {
        return foreign_link(whole, worker, object);
    }
    Link::Untold(worker, object.owner)
}

/// What keeps the object from the worker, which asked the node for a copy.
#[tactic(auto, unfolding(crate::specs::Links::fetch_link))]
pub fn fetch_link(whole: &ClusterState, worker: WorkerId, object: ObjectId, node: NodeId) -> Link
    ensures { result ≡ fetch_link whole.now worker object node }
{
    if let Some(number) = sent(whole, &Topic::AnswerTo(worker, object)) {
        return Link::UnderWay(number);
    }
    if !is_live_node(whole, node) {
        return Link::NodeUntold(worker, node);
    }
    if let Some(number) = sent(whole, &Topic::FetchOf(worker, node, object)) {
        return Link::UnderWay(number);
    }
    Link::Resting(worker)
}

/// What keeps the object from the worker.
#[tactic(auto, unfolding(crate::specs::Links::wait_link))]
pub fn wait_link(whole: &ClusterState, worker: WorkerId, object: ObjectId) -> Link
    ensures { result ≡ wait_link whole.now worker object }
{
    if let Some(number) = sent(whole, &Topic::AnswerTo(worker, object)) {
        return Link::UnderWay(number);
    }
    asked_link(whole, worker, object)
}
